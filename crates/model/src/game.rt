//! Marked sets of states, and games over them: what every kind of model answers.
ghost use Rattle.std.specs.Prelude.{◌≡◌, ◌<◌};
ghost use Rattle.std.specs.Option.{SomeIff};
ghost use Rattle.model.specs.Model.{Marks, MarksRanged, Model, Ranged, joint, marks_of};

/// States with marks. A query answers none exactly where the state doesn't exist.
pub trait Marked {
    ghost marked: { Self → Marks };

    /// How many states there are.
    fn states(&self) -> u8
        ensures { result ≡ (marked self.now).n };

    /// The marks of a state: bit `i` for mark `i`.
    fn marks(&self, s: u8) -> Option<u16>
        ensures { SomeIff result (s < (marked self.now).n) ((marked self.now).marks s) };

    ghost in_range: { (x : Self) → MarksRanged (marked x) };
}

/// States with marks, and agents that move between them. A query answers none exactly where the state, the agent or the joint move doesn't exist.
pub trait Game: Marked {
    ghost model: { Self → Model };

    /// How many agents there are.
    fn agents(&self) -> u8
        ensures { result ≡ (model self.now).k };

    /// How many choices an agent has at a state.
    fn choices(&self, s: u8, a: u8) -> Option<u8>
        ensures { SomeIff result ((s < (model self.now).n) × (a < (model self.now).k)) ((model self.now).d s a) };

    /// The state that follows a joint move at a state.
    fn out(&self, s: u8, j: u8) -> Option<u8>
        ensures { SomeIff result ((s < (model self.now).n) × (j < joint (model self.now) s)) ((model self.now).out s j) };

    ghost tied: { (x : Self) → marks_of (model x) ≡ Self.Marked.marked x };

    ghost ranged: { (x : Self) → Ranged (model x) };
}
