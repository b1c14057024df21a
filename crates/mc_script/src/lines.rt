//! Lines of a script, their numbers and their words.
ghost use Rattle.std.specs.Prelude.{◌≡◌, ◌+◌, ◌^◌, ◌<◌, ◌==◌, ℕ, List, Some, None, length, position, MatchOption, IfSome};
ghost use Rattle.std.specs.Iterator.{YieldsFirstBy, item_count};
ghost use Rattle.mc_script.specs.Lines.{cut_at_space, lines_from, with_line};

use memchr::memchr;
use std::marker::Model;

/// An iterator over the lines of a text that are not empty. Contracts see the list of the remaining ones, each
/// with its number.
#[derive(Drop)]
pub struct LineIter<'a> {
    rest: &'a [u8],
    passed: u64,
}

impl<'a> Model for LineIter<'a> {
    ghost Value = { List (ℕ × List ℕ) };

    ghost view = { λ l. lines_from (l.passed + 1) l.rest.now };

    ghost invariant = { λ l. l.passed + length l.rest.now < 2 ^ 64 };
}

/// The lines of a text that are not empty, in order, each with its number. The first line has number 1. An empty
/// line is counted, and the last line may lack its line feed.
pub fn lines_of(text: &[u8]) -> LineIter<'_>
    ensures { result ≡ lines_from 1 text.now }
{
    LineIter {
        rest: text,
        passed: 0,
    }
}

impl<'a> Iterator for LineIter<'a> {
    type Item = (u64, &'a [u8]);

    ghost next_gives = { YieldsFirstBy (λ line. (line.0, line.1.now)) (λ s. s) };

    ghost remaining = { item_count (λ s. s) };

    fn next(&mut self) -> Option<(u64, &'a [u8])> {
        while !self.rest.is_empty() {
            let (line, rest) = cut_line(self.rest);
            self.rest = rest;
            self.passed += 1;
            if !line.is_empty() {
                return Some((self.passed, line));
            }
        }
        None
    }
}

/// The first line of a text, without its line feed, and what follows it.
fn cut_line(text: &[u8]) -> (&[u8], &[u8])
    requires { 0 < length text.now }
    ensures lines { (n : ℕ) → lines_from n text.now ≡ with_line n result.0.now (lines_from (n + 1) result.1.now) }
    ensures shorter { length result.1.now < length text.now }
{
    match memchr(b'\n', text) {
        Some(end) => {
            let (line, _) = text.split_at(end);
            let (_, rest) = text.split_at(end + 1);
            (line, rest)
        }
        None => (text, &[]),
    }
}

/// The text before the first space, and the text after it.
#[tactic(auto, unfolding(crate::specs::Lines::cut_at_space))]
pub fn cut_at_space(text: &[u8]) -> Option<(&[u8], &[u8])>
    ensures { MatchOption result (cut_at_space text.now ≡ None)
        (λ p. cut_at_space text.now ≡ Some (p.0.now, p.1.now)) }
{
    let end = find_space(text)?;
    let (front, _) = text.split_at(end);
    let (_, rest) = text.split_at(end + 1);
    Some((front, rest))
}

/// The index of the first space.
fn find_space(text: &[u8]) -> Option<usize>
    ensures place { result ≡ position (λ b. b == 32) text.now }
    ensures inside { IfSome result (λ end. end < length text.now) }
{
    text.iter().position(|b| *b == b' ')
}
