//! One agent more.
ghost use Rattle.std.specs.Prelude.{◌≡◌, ℕ, ◌+◌, ◌*◌, ◌/◌, ◌%◌, ◌<◌, ◌≤◌, slice_index};
ghost use Rattle.ability.specs.Ability.{Extends, Small};

use super::Parts;

/// Fills the places from `width` to `end`: what stands `width` places before, and `step` more.
fn repeat(own: &mut [u8; 64], width: u8, end: u8, step: u8)
    requires some { 1 ≤ width }
    requires room { end ≤ 64 }
    requires fits { (j : ℕ) → j < end → slice_index own.old (j % width) + j / width * step < 256 }
    ensures { (j : ℕ) → j < end → slice_index own.new j ≡ slice_index own.old (j % width) + j / width * step }
{
    // kept: with split_at_mut and chunks_mut it is two loops, one in the other, and no plainer
    for j in width..end {
        own[j as usize] = own[(j - width) as usize] + step;
    }
}

impl Parts {
    /// Adds an agent with `d` choices, who is in the coalition or isn't.
    pub(crate) fn extend(&mut self, d: u8, member: bool)
        requires { Small self.old d }
        ensures { Extends self.old self.new d member }
    {
        let end = self.width * d;
        let step = if member { self.count } else { 0 };
        repeat(&mut self.own, self.width, end, step);
        self.width = end;
        if member {
            self.count *= d;
        }
    }
}
