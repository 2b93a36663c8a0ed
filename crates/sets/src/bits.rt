//! The bits of a word, whose places are the members of a set.
ghost use Rattle.std.specs.Prelude.{◌≡◌, ◌^◌, ◌<◌, T, ◌↔◌};
ghost use Rattle.sets.specs.Sets.{bit};

/// Whether bit `i` of a word is set.
pub fn is_set(word: u64, i: u8) -> bool
    ensures { result ≡ bit word i }
{
    i < 64 && (word >> i) & 1 == 1
}

/// Whether each bit of a word that is set is one of the first `n`.
pub fn is_below(word: u64, n: u8) -> bool
    ensures { T result ↔ (word < 2 ^ n) }
{
    n >= 64 || word >> n == 0
}
