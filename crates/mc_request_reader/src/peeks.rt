//! What is first in a reader, and where it ends.
use mc_request::RequestRef;
use mc_text::{Block, Key, WordIter};

/// The most bytes that a request or fault takes: a line, a data block and the line end after it.
pub const REQUEST_LIMIT: usize = 1_114_114;

/// Where the first request or fault of a reader ends.
#[derive(Clone, Copy, Debug)]
pub struct Front {
    /// The number of unconsumed bytes that it takes.
    pub size: usize,
    /// Whether nothing is read after it.
    pub closes: bool,
}

/// What is first in a reader. It is borrowed, and not consumed yet.
#[derive(Drop)]
pub enum Peek<'a> {
    /// A whole request or fault, and where it ends.
    First(RequestRef<'a>, Front),
    /// Nothing is whole until more bytes arrive.
    More,
    /// Nothing is read any more, after `quit` or a line too long.
    Closed,
}

/// What is first in a reader, as far as a fast look reads. It is borrowed, and not consumed yet.
#[derive(Drop)]
pub enum Look<'a> {
    /// Nothing is whole until more bytes arrive.
    More,
    /// A good `get` or `gets` without a space in front.
    Get(LentGet<'a>),
    /// Another line. If no data block follows it, what it asks for is what is first.
    Line(LentLine<'a>),
    /// Nothing is said of what is first: the end of its line is not known, it is too long, a refused block or its fault comes before it, or
    /// nothing is read any more.
    Other,
}

/// The command line that is first in a reader. It is borrowed, and not consumed yet.
#[derive(Drop)]
pub struct LentLine<'a> {
    /// The line without its end.
    pub content: &'a [u8],
    /// The number of bytes that it takes.
    pub size: usize,
}

/// A `get` or `gets` that is first in a reader. Its keys are borrowed, and it is not consumed yet.
#[derive(Drop)]
pub struct LentGet<'a> {
    /// The words that are its keys: at least one.
    pub keys: WordIter<'a>,
    /// Whether it asks for the items' numbers.
    pub with_cas: bool,
    /// Where it ends.
    pub front: Front,
}

/// A `set` that was first in a reader, and is consumed: its key and its block are owned.
#[derive(Drop)]
pub struct TakenSet {
    /// The key.
    pub key: Key,
    /// The client flags.
    pub flags: u32,
    /// When its item expires, as the command says it.
    pub exptime: i64,
    /// The data block.
    pub block: Block,
    /// Whether its reply line is hidden.
    pub noreply: bool,
}
