//! Worked examples of whole texts, computed from the definitions alone.
#![tactic(auto, unfolding(mc_text::specs::Words::words, mc_text::specs::Lines::line_end, mc_text::specs::Lines::first_line, mc_request::specs::Names::name_of, mc_request::specs::Requests::next_request, mc_request::specs::Requests::requests_within, mc_request::specs::Requests::requests_of))]

ghost use Rattle.std.specs.Prelude.{◌≡◌, pos, [], ◌∷◌, None, false, codes};
ghost use Rattle.mc_request.specs.Requests.{requests_of};

use mc_request::{Fault, Parsed, Request, StoreMode, Update};

/// A value is stored, then its key is looked up. The second line ends with a bare line feed.
pub fn set_then_get()
    ensures { requests_of (codes "set a 0 0 1\r\nx\r\nget a\n")
        ≡ Parsed.Whole (Request.Update (Update.Store StoreMode.Set None (codes "a") 0 (pos 0) (codes "x")) false)
        ∷ Parsed.Whole (Request.Get (codes "a" ∷ []) None false) ∷ [] }
{}

/// A block that is longer than its line says takes as many bytes as the line says, and the two after them.
pub fn block_takes_too_much()
    ensures { requests_of (codes "set a 0 0 1\r\nxyzget a\r\n")
        ≡ Parsed.Faulty Fault.BadDataChunk ∷ Parsed.Whole (Request.Get (codes "a" ∷ []) None false) ∷ [] }
{}

/// A refused line swallows its block, which here would be a command itself.
pub fn refused_block_is_swallowed()
    ensures { requests_of (codes "cas a 0 0 5\r\nget a\r\nget b\r\n")
        ≡ Parsed.Faulty Fault.UnknownCommand ∷ Parsed.Whole (Request.Get (codes "b" ∷ []) None false) ∷ [] }
{}

/// Nothing is read after `quit`.
pub fn quit_ends_the_text()
    ensures { requests_of (codes "version\r\nquit\r\nget a\r\n")
        ≡ Parsed.Whole Request.Version ∷ Parsed.Whole Request.Quit ∷ [] }
{}

/// A faulty `ms` line takes its block if its third word is a readable length. Here the block would be a command.
pub fn meta_block_is_swallowed()
    ensures text { requests_of (codes "ms a 5 z\r\nget a\r\nmn\r\n") ≡ Parsed.Faulty Fault.InvalidFlag ∷ Parsed.Whole Request.MetaNoop ∷ [] }
{}
