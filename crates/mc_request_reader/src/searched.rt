//! How far bytes were searched for the end of their first line.
ghost use Rattle.std.specs.Prelude.{◌≡◌, ◌<◌, length};
ghost use Rattle.mc_text.specs.Lines.{first_line, HasNoLineFeed};
ghost use Rattle.mc_text.specs.LineSeen.{line_seen, IfPartial};
ghost use Rattle.mc_text.specs.declared.lines.TheConstants.{LINE_LIMIT};
ghost use Rattle.mc_request_reader.specs.Steps.{IsSearched};

use mc_text::{Line, content_to, next_line_from};

/// How far bytes were searched for the end of their first line. No byte is searched again.
#[derive(Clone, Copy, Debug)]
pub enum Searched {
    /// The first bytes, this many, hold no line feed.
    Without(usize),
    /// The first line feed is at this index.
    Ends(usize),
    /// The first line is too long.
    TooLong,
}

impl Searched {
    /// Returns the first line of the bytes, which were searched this far.
    #[inline(always)]
    pub fn line(self, bytes: &[u8]) -> Line<'_>
        requires { IsSearched self bytes.now }
        ensures line { line_seen result ≡ first_line bytes.now }
        ensures partial { IfPartial result (HasNoLineFeed (length bytes.now) bytes.now) }
        ensures short { IfPartial result (length bytes.now < LINE_LIMIT) }
    {
        match self {
            Searched::Without(count) => next_line_from(bytes, count),
            Searched::Ends(end) => Line::Whole {
                content: content_to(bytes, end),
                taken: end + 1,
            },
            Searched::TooLong => Line::TooLong,
        }
    }
}
