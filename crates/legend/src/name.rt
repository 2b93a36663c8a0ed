//! Names: eight bytes, a word and then spaces.
ghost use Rattle.std.specs.Prelude.{◌≡◌, ℕ, ◌<◌, ◌≤◌, T, ◌↔◌, length, slice_index};
ghost use Rattle.std.specs.Option.{SomeIff};
ghost use Rattle.legend.specs.Names.{Letter, LetterOrDigit, Name, padded};

/// Whether two names are the same, byte by byte.
pub fn same(a: &[u8; 8], b: &[u8; 8]) -> bool
    ensures { T result ↔ (a.now ≡ b.now) }
{
    a == b
}

fn is_letter(b: u8) -> bool
    ensures { T result ↔ Letter b }
{
    b.is_ascii_lowercase()
}

fn is_inner(b: u8) -> bool
    ensures { T result ↔ LetterOrDigit b }
{
    is_letter(b) || b.is_ascii_digit()
}

/// How many letters and digits come first.
fn word_length(bytes: &[u8; 8]) -> usize
    ensures within { result ≤ 8 }
    ensures inner { (i : ℕ) → i < result → LetterOrDigit (slice_index bytes.now i) }
    ensures longest { result < 8 → LetterOrDigit (slice_index bytes.now result) → ⊥ }
{
    bytes.iter().position(|b| !is_inner(*b)).unwrap_or(8)
}

/// Whether the bytes are all spaces.
fn is_blank(bytes: &[u8]) -> bool
    ensures { T result ↔ ((i : ℕ) → i < length bytes.now → slice_index bytes.now i ≡ 32) }
{
    bytes.iter().all(|b| *b == b' ')
}

/// Whether the bytes are a letter, then letters or digits, then spaces, and not the reserved name.
pub fn is_name(bytes: &[u8; 8]) -> bool
    ensures { T result ↔ Name bytes.now }
{
    if same(bytes, b"true    ") {
        return false;
    }
    let end = word_length(bytes);
    is_letter(bytes[0]) && is_blank(&bytes[end..])
}

/// A word with spaces after it up to eight bytes, or none where it is longer.
pub fn pad(word: &[u8]) -> Option<[u8; 8]>
    ensures { SomeIff result (length word.now ≤ 8) (padded word.now) }
{
    // kept: with `name.get_mut(..word.len())?` the proof didn't close, since after its loan nothing is known of the bytes
    if word.len() > 8 {
        return None;
    }
    let mut name = [b' '; 8];
    name[..word.len()].copy_from_slice(word);
    Some(name)
}
