//! Long texts, and the texts of errors.

use std::alloc::{AllocError, Global};
use std::fmt::Display;

/// A value of this number of times 16 bytes, with the bytes before and after it.
pub fn with_value(
    alloc: Global,
    before: &[u8],
    sixteens: usize,
    after: &[u8],
) -> Result<Vec<u8>, AllocError> {
    let mut text = before.to_vec(alloc)?;
    text.extend_from_slice(&b"0123456789abcdef".repeat(alloc, sixteens)?)?;
    text.extend_from_slice(after)?;
    Ok(text)
}

/// Whether each error reads so.
pub fn read_so<E: Display>(alloc: Global, texts: &[(E, &str)]) -> bool {
    texts.iter().all(|(
        error,
        text,
    )| matches!(error.to_string(alloc), Ok(said) if said.as_str() == *text))
}
