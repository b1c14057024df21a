//! A digest of answers.
ghost use Rattle.std.specs.Prelude.{◌≤◌, ◌+◌};

/// A digest of texts, in the order in which they are added. Of each text eight words at a time go into eight sums side by side, and these
/// into eight sums of sums. So it costs little beside the work that made the text.
#[derive(Clone, Copy)]
pub struct Digest {
    value: u64,
}

/// How many bytes go into the sums at a time.
const WIDTH: usize = 64;

impl Digest {
    pub fn new() -> Digest {
        Digest { value: 1 }
    }

    /// Adds a text.
    pub fn add(&mut self, text: &[u8]) {
        let mut value = mixed(self.value, text.len() as u64);
        let mut sums = [0u64; 8];
        let mut of_sums = [0u64; 8];
        for chunk in text.chunks(WIDTH) {
            match chunk.first_chunk::<WIDTH>() {
                Some(words) => {
                    for lane in 0..8 {
                        sums[lane] = sums[lane].wrapping_add(word_at(words, 8 * lane));
                        of_sums[lane] = of_sums[lane].wrapping_add(sums[lane]);
                    }
                }
                None => value = of_rest(value, chunk),
            }
        }
        if text.len() >= WIDTH {
            for lane in 0..8 {
                value = mixed(mixed(value, sums[lane]), of_sums[lane]);
            }
        }
        self.value = value;
    }

    /// The digest of all texts that were added.
    pub fn value(&self) -> u64 {
        self.value
    }
}

/// A value after one word more.
fn mixed(value: u64, word: u64) -> u64 {
    (value ^ word)
        .wrapping_mul(0x9FB2_1C65_1E98_DF25)
        .rotate_left(29)
}

/// A value after the bytes of a text's end, eight at a time.
fn of_rest(value: u64, rest: &[u8]) -> u64 {
    rest.chunks(8).fold(value, |value, bytes| {
        let word = bytes
            .iter()
            .fold(0u64, |word, byte| word << 8 | u64::from(*byte));
        mixed(value, word)
    })
}

/// Eight bytes from a place on as a number.
fn word_at(words: &[u8; WIDTH], at: usize) -> u64
    requires { at + 8 ≤ WIDTH }
{
    u64::from_le_bytes([
        words[at],
        words[at + 1],
        words[at + 2],
        words[at + 3],
        words[at + 4],
        words[at + 5],
        words[at + 6],
        words[at + 7],
    ])
}
