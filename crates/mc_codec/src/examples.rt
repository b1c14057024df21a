//! Worked examples: how early a violation is found, and how many bytes a reader waits for.
ghost use Rattle.std.specs.Prelude.{codes};
ghost use Rattle.mc_codec.specs.NextReply.{IsShortOf};
ghost use Rattle.mc_codec.specs.Examples.{IsStrangeFrom, get_of_a, set_of_a, incr_of_a, mg_of_a};

/// A value under another key.
pub fn another_key()
    ensures { IsStrangeFrom get_of_a 7 (codes "VALUE b") }
{}

/// An error line, which is no reply to a `get`.
pub fn error_to_a_get()
    ensures { IsStrangeFrom get_of_a 2 (codes "ERROR") }
{}

/// A size above the greatest.
pub fn size_too_large()
    ensures { IsStrangeFrom get_of_a 17 (codes "VALUE a 0 1048577") }
{}

/// A block that is longer than its size.
pub fn block_too_long()
    ensures { IsStrangeFrom get_of_a 15 (codes "VALUE a 0 1\r\nxy") }
{}

/// A line feed without its carriage return.
pub fn bare_line_feed()
    ensures { IsStrangeFrom set_of_a 7 (codes "STORED\n") }
{}

/// A leading zero.
pub fn leading_zero()
    ensures { IsStrangeFrom incr_of_a 2 (codes "007") }
{}

/// A number above the greatest.
pub fn number_too_large()
    ensures { IsStrangeFrom incr_of_a 20 (codes "18446744073709551616") }
{}

/// Seconds that the command did not ask for: only a mark is possible there.
pub fn seconds_not_asked_for()
    ensures { IsStrangeFrom mg_of_a 6 (codes "VA 1 t") }
{}

/// A block that has begun to arrive. The reader waits for the rest of it and for one byte after it, which may be a
/// violation.
pub fn block_is_waited_for()
    ensures { IsShortOf get_of_a 17 (codes "VALUE a 0 3\r\nx") }
{}
