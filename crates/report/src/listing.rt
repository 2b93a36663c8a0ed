//! Lines put on a listing.
ghost use Rattle.std.specs.Prelude.{◌*◌, ◌≤◌, length, decimal};
ghost use Rattle.list.specs.Lists.{room, Puts};
ghost use Rattle.sets.specs.Sets.{limit, member};
ghost use Rattle.report.specs.Listings.{spaced, states, at_line, refused_line};

use itoa::Buffer;
use list::List;
use sets::state_set::StateSet;

/// Puts some bytes, for which there are places.
// kept: `file` has the same, since a call that another crate can reach may not ask for room
fn put(listing: &mut List<u8>, bytes: &[u8])
    requires { length bytes.now ≤ room listing.old }
    ensures { Puts listing.old listing.new bytes.now }
{
    listing.extend(bytes).unwrap();
}

/// Puts a number in decimal digits, three at most.
fn put_number(listing: &mut List<u8>, n: u8)
    requires { 3 ≤ room listing.old }
    ensures { Puts listing.old listing.new (decimal n) }
{
    let mut digits = Buffer::new();
    put(listing, digits.format(n).as_bytes());
}

/// Puts a state after a space, where it is in the set.
// kept: each of these asks for as much room as it fills, which is another for each
fn put_state(listing: &mut List<u8>, set: StateSet, s: u8)
    requires { 4 ≤ room listing.old }
    ensures { Puts listing.old listing.new (spaced (member set) s) }
{
    if set.contains(s) {
        put(listing, b" ");
        put_number(listing, s);
    }
}

/// Puts the states of a set, rising, each after a space.
fn put_states(listing: &mut List<u8>, set: StateSet)
    requires { 4 * limit ≤ room listing.old }
    ensures { Puts listing.old listing.new (states (member set)) }
{
    for s in 0..64u8 {
        put_state(listing, set, s);
    }
}

/// Puts the line that tells where a question holds.
pub(crate) fn put_at(listing: &mut List<u8>, set: StateSet)
    requires { 512 ≤ room listing.old }
    ensures { Puts listing.old listing.new (at_line (member set)) }
{
    put(listing, b"at:");
    put_states(listing, set);
    put(listing, b"\n");
}

/// Puts the line of a refusal.
pub(crate) fn put_refused(listing: &mut List<u8>, number: u8)
    requires { 512 ≤ room listing.old }
    ensures { Puts listing.old listing.new (refused_line number) }
{
    put(listing, b"refused ");
    put_number(listing, number);
    put(listing, b"\n");
}
