//! Sizes: words that say how many bytes.
ghost use Rattle.std.specs.Prelude.{◌≡◌};
ghost use Rattle.mc_program.specs.Sizes.{size_of, size_within, unit_of};

use mc_text::read_u64;

/// Returns how many bytes a word says, if they are from `least` to `most`. A word is a number, or a number and K, M or G,
/// small or capital, for that many times 1,024, 1,024^2 or 1,024^3 bytes. Any other word says nothing.
pub fn size_within(word: &str, least: u64, most: u64) -> Option<u64>
    ensures { result ≡ size_within word.now least most }
{
    match size_of(word.as_bytes()) {
        Some(size) if least <= size && size <= most => Some(size),
        _ => None,
    }
}

/// Returns how many bytes a word says, if 64 bits can hold it. A number has 1 to 20 digits.
fn size_of(word: &[u8]) -> Option<u64>
    ensures { result ≡ size_of word.now }
{
    match word {
        [count @ .., letter] => match unit_of(*letter) {
            Some(unit) => read_u64(count)?.checked_mul(unit),
            None => read_u64(word),
        },
        [] => None,
    }
}

/// Returns how many bytes the unit of a letter has.
fn unit_of(letter: u8) -> Option<u64>
    ensures { result ≡ unit_of letter }
{
    match letter {
        b'K' | b'k' => Some(1 << 10),
        b'M' | b'm' => Some(1 << 20),
        b'G' | b'g' => Some(1 << 30),
        _ => None,
    }
}
