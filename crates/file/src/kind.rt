//! The kinds of commands.
ghost use Rattle.std.specs.Prelude.{◌≡◌, ◌+◌};
ghost use Rattle.file.specs.Kinds.{code_of};
ghost use Rattle.file.specs.Reading.{size};

/// What a command tells; a command is the code of its kind, and then the operands.
#[derive(Clone, Copy, PartialEq, Eq, Debug)]
pub enum Kind {
    /// So many agents, states and marks.
    Begin = 1,
    /// The name of a mark.
    Name = 2,
    /// A state's marks and counts.
    State = 3,
    /// The state that follows a joint move.
    Out = 4,
    /// So many outcomes in all.
    End = 5,
}

impl Kind {
    /// The byte that a command of this kind begins with.
    pub fn code(self) -> u8
        ensures { result ≡ code_of self }
    {
        self as u8
    }

    /// How many bytes of operands follow the code.
    pub fn operands(self) -> usize
        ensures { result ≡ size (code_of self) }
    {
        // kept: `as` reads one number of a case, and that is its code
        match self {
            Kind::Begin => 3,
            Kind::Name => 9,
            Kind::State => 8,
            Kind::Out => 1,
            Kind::End => 2,
        }
    }

    /// How many bytes a command of this kind has, its code among them.
    pub(crate) fn length(self) -> usize
        ensures { result ≡ 1 + size (code_of self) }
    {
        1 + self.operands()
    }
}
