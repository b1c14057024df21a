//! The answers to the clients, counted.

/// The bytes of an answer to a set.
const STORED: usize = 8;

/// The bytes of the end of an answer to a get.
const END: usize = 5;

/// The bytes of an item in an answer to a get: of its line with the key of 20 bytes, and of its block of 100.
const ITEM: usize = 136;

/// How many requests were answered, and how many gets found their key.
#[derive(Clone, Copy)]
pub struct Tally {
    pub answers: u64,
    pub hits: u64,
}

impl Tally {
    /// The tally of all answers to the clients.
    pub fn of(outputs: &[Vec<u8>]) -> Tally {
        let mut tally = Tally {
            answers: 0,
            hits: 0,
        };
        for output in outputs {
            tally.add(output.as_slice());
        }
        tally
    }

    /// Counts the answers to a client. The first byte of each part of an answer shows which one it is.
    fn add(&mut self, output: &[u8]) {
        let mut rest = output;
        for _ in 0..output.len() {
            let size = match rest.first() {
                Some(b'S') => STORED,
                Some(b'E') => END,
                Some(b'V') => ITEM,
                _ => return,
            };
            if size == ITEM {
                self.hits = self.hits.saturating_add(1);
            } else {
                self.answers = self.answers.saturating_add(1);
            }
            rest = rest.get(size..).unwrap_or_default();
        }
    }
}
