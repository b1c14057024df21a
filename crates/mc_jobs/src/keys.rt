//! Keys and values of realistic shape.

use crate::errors::JobError;
use crate::randoms::Random;
use itoa::Buffer;
use std::alloc::{AllocError, Global};

/// The texts of a key before and after its number.
const SHAPES: [(&[u8], &[u8]); 8] = [
    (b"app:user:", b":profile"),
    (b"session:", b":9f86d081884c7d65"),
    (b"page:/en/articles/", b"?render=full&theme=dark"),
    (b"app:product:", b":price:eur"),
    (b"fragment/sidebar/", b"/v42"),
    (b"rate-limit:api:", b""),
    (b"app:user:", b":permissions:by-team:2026"),
    (b"thumbnail:", b":320x200:webp:quality=80"),
];

/// The lengths of small values in bytes, each as likely as another: log-normal around 150.
const SMALL: [usize; 32] = [
    17, 28, 36, 44, 51, 58, 65, 73, 80, 88, 96, 105, 114, 123, 133, 144, 156, 169, 183, 198, 215,
    234, 256, 281, 310, 344, 387, 441, 513, 619, 802, 4096,
];

/// The lengths of large values in bytes, each as likely as another: log-normal around 8,192.
const LARGE: [usize; 32] = [
    2000, 2060, 2090, 2118, 2504, 2891, 3286, 3692, 4114, 4556, 5021, 5512, 6036, 6595, 7197, 7846,
    8553, 9325, 10175, 11119, 12174, 13367, 14730, 16311, 18176, 20424, 23211, 26801, 31690, 38968,
    51764, 120_000,
];

/// The number of bytes that values are taken from.
const STOCK: usize = 1_048_576;

/// Appends the key of a number.
pub fn append_key(text: &mut Vec<u8>, number: u64) -> Result<(), AllocError> {
    let (before, after) = SHAPES[(number % 8) as usize];
    text.extend_from_slice(before)?;
    append_number(text, number)?;
    text.extend_from_slice(after)
}

/// Appends a number in decimal.
pub fn append_number(text: &mut Vec<u8>, number: u64) -> Result<(), AllocError> {
    let mut buffer = Buffer::new();
    text.extend_from_slice(buffer.format(number).as_bytes())
}

/// The number of a key by its rank: numbers of near ranks are far apart. There are 2^`bits` of them.
pub fn by_rank(rank: u64, bits: u32) -> u64 {
    let size = 1u64 << bits % 64;
    rank.wrapping_mul(0x9E37_79B1) & size.wrapping_sub(1)
}

/// The length of a small value.
pub fn small_len(random: &mut Random) -> usize {
    SMALL[(random.next() % 32) as usize]
}

/// The length of a large value; one in a hundred has 500,000 bytes.
pub fn large_len(random: &mut Random) -> usize {
    if random.one_in(100) {
        500_000
    } else {
        LARGE[(random.next() % 32) as usize]
    }
}

/// Bytes from which values are taken.
#[derive(Drop)]
pub struct Stock {
    bytes: Vec<u8>,
}

impl Stock {
    pub fn new(alloc: Global, random: &mut Random) -> Result<Stock, JobError> {
        let mut bytes = Vec::with_capacity(alloc, STOCK)?;
        for _ in 0..STOCK / 8 {
            bytes.extend_from_slice(&random.next().to_le_bytes())?;
        }
        Ok(Stock { bytes })
    }

    /// This number of bytes from a random place on.
    pub fn value(&self, random: &mut Random, len: usize) -> &[u8] {
        let from = random.below(STOCK as u64 / 2) as usize;
        let (_, more) = self.bytes.split_at(from.min(self.bytes.len()));
        more.get(..len).unwrap_or_default()
    }

    /// A line, then this number of bytes, and the end of their block, from a random place on. The line and the end overwrite
    /// bytes there for good, so that no byte of the block is copied.
    pub fn framed(&mut self, random: &mut Random, line: &[u8], len: usize) -> &[u8] {
        let from = random.below(STOCK as u64 / 4) as usize;
        let size = line.len().saturating_add(len).saturating_add(2);
        let from = from.min(self.bytes.len());
        let (_, more) = self.bytes.split_at_mut(from);
        let size = size.min(more.len());
        let (frame, _) = more.split_at_mut(size);
        for (to, byte) in frame.iter_mut().zip(line) {
            *to = *byte;
        }
        if let [.., before, last] = frame {
            *before = b'\r';
            *last = b'\n';
        }
        frame
    }
}
