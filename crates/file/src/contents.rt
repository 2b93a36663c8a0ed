//! What a model's file holds.
ghost use Rattle.std.specs.Prelude.{◌≡◌, ◌^◌, ◌<◌, ◌≤◌, T, ◌↔◌, length};
ghost use Rattle.list.specs.Lists.{room, Puts};
ghost use Rattle.model.specs.Model.{marks_of};
ghost use Rattle.legend.specs.Legends.{names_of};
ghost use Rattle.file.specs.File.{Named, file_of, outcomes};

use crate::kind::Kind;
use crate::put::{put, put_names, put_states};
use crate::write::among;
use legend::Legend;
use list::List;
use model::game::{Game, Marked};
use model::pointed::Pointed;

/// A model, the names of its marks, and how many outcomes all its states have.
#[derive(Drop)]
pub(crate) struct Contents<'a, G: Game> {
    game: &'a G,
    legend: &'a Legend,
    total: u16,
    ghost counted: { total ≡ outcomes (G.Game.model game.now) (G.Game.model game.now).n },
}

/// How many outcomes all states have.
fn all_outcomes<G: Game>(game: &G) -> u16
    ensures { result ≡ outcomes (G.Game.model game.now) (G.Game.model game.now).n }
{
    // kept: with `sum` the bound that it asks for stayed open
    let mut total = 0;
    for s in 0..game.states() {
        total += u16::from(Pointed::new(game, s).unwrap().joint_moves());
    }
    total
}

/// Whether each mark that a state carries is one of the first `names`, where the state exists.
fn is_named<G: Game>(game: &G, s: u8, names: u8) -> bool
    ensures { T result ↔ (s < (G.Game.model game.now).n → (G.Game.model game.now).marks s < 2 ^ names) }
{
    game.marks(s).is_none_or(|marks| among(marks, names))
}

/// Whether the legend has a name for each mark that a state carries.
pub(crate) fn is_covered<G: Game>(game: &G, legend: &Legend) -> bool
    ensures { T result ↔ Named (marks_of (G.Game.model game.now)) (length (names_of legend.now)) }
{
    let names = legend.count();
    (0..game.states()).all(|s| is_named(game, s, names))
}

impl<'a, G: Game> Contents<'a, G> {
    /// The contents of the file of this model and this legend.
    pub(crate) fn new(game: &'a G, legend: &'a Legend) -> Contents<'a, G>
        ensures { (result.game.now ≡ game.now) × (result.legend.now ≡ legend.now) }
    {
        let total = all_outcomes(game);
        Contents {
            game,
            legend,
            total,
        }
    }

    /// How long the file is.
    #[tactic(auto, using(crate::proofs::Spanning::length_file_of))]
    pub(crate) fn length(&self) -> usize
        ensures { result ≡ length (file_of (G.Game.model self.now.game.now) (names_of self.now.legend.now)) }
    {
        let names = usize::from(self.legend.count());
        let states = usize::from(self.game.states());
        let outs = usize::from(self.total);
        Kind::Begin.length()
            + Kind::Name.length() * names
            + Kind::State.length() * states
            + Kind::Out.length() * outs
            + Kind::End.length()
    }

    /// Puts the file, where there is room for it.
    #[tactic(auto, using(crate::proofs::Spanning::parts_length, list::proofs::Joins::puts_room))]
    pub(crate) fn put(&self, bytes: &mut List<u8>)
        requires { length (file_of (G.Game.model self.now.game.now) (names_of self.now.legend.now)) ≤ room bytes.old }
        ensures { Puts bytes.old bytes.new (file_of (G.Game.model self.now.game.now) (names_of self.now.legend.now)) }
    {
        put(
            bytes,
            &[
                Kind::Begin.code(),
                self.game.agents(),
                self.game.states(),
                self.legend.count(),
            ],
        );
        put_names(bytes, self.legend);
        put_states(bytes, self.game);
        put(bytes, &[Kind::End.code()]);
        put(bytes, &self.total.to_be_bytes());
    }
}
