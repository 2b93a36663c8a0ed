//! Coalitions of agents.
ghost use Rattle.std.specs.Prelude.{◌≡◌, ◌^◌, ◌<◌, T, ◌↔◌};
ghost use Rattle.sets.specs.Sets.{bit, who};

use crate::bits::{is_below, is_set};

/// A set of agents, as the bits of a number: agent `a` is in it where bit `a` is set.
// kept: a type beside `StateSet`, though both are a word, so that no set of states passes for a coalition
#[derive(Clone, Copy, PartialEq, Eq, Debug)]
pub struct Coalition {
    bits: u8,
}

impl From<u8> for Coalition {
    ghost from_gives = { λ number result. who result ≡ number };

    /// The coalition of the agents whose bits are set.
    fn from(number: u8) -> Coalition {
        Coalition { bits: number }
    }
}

impl From<Coalition> for u8 {
    ghost from_gives = { λ coalition result. result ≡ who coalition };

    /// The number whose bits are the coalition's agents.
    fn from(coalition: Coalition) -> u8 {
        coalition.bits
    }
}

impl Coalition {
    /// Whether the agent is in it.
    pub fn contains(self, agent: u8) -> bool
        ensures { result ≡ bit (who self) agent }
    {
        is_set(u64::from(self.bits), agent)
    }

    /// Whether it exists among so many agents: whether each of its agents is below that number.
    pub fn is_among(self, agents: u8) -> bool
        ensures { T result ↔ (who self < 2 ^ agents) }
    {
        is_below(u64::from(self.bits), agents)
    }
}
