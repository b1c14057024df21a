//! Encodes commands, and decodes replies to them.
//!
//! Each line of standard input is a case: words in hexadecimal digits, with a space between. The first is the text of a
//! request. The others are the bytes that arrive in answer to the first of its commands, piece by piece. The printed line
//! of a case has the command's canonical spelling. After each piece it has what a reader of replies then returns: each
//! reply by its spelling, and last `more` or `strange`. If a text has no first request with a command, the line is
//! `none`.
//!
//! So this project's spellings and replies can be compared with a model that was written independently.

use crate::spelled_cases::play_line;
use std::io::{self, Read, Write};

/// Plays all lines of standard input.
pub fn play(rt: &HostRuntime) -> anyhow::Result<()> {
    let mut input = Vec::new(rt.alloc());
    let mut reader = rt.reader();
    reader.read_to_end(&mut input)?;
    let mut output = Vec::new(rt.alloc());
    for line in input.as_slice().split(|b| *b == b'\n') {
        if !line.is_empty() {
            play_line(rt.alloc(), line, &mut output)?;
            output.push(b'\n')?;
        }
    }
    io::writer(rt).write_all(output.as_slice())?;
    Ok(())
}
