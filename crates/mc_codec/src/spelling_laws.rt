//! Laws of canonical spellings. The functions do nothing: their contracts are the laws.
ghost use Rattle.std.specs.Prelude.{◌≡◌, ◌<◌, ℕ, List, [], ◌∷◌, ◌++◌, length, map, Some, true, codes};
ghost use Rattle.std.specs.List.{All, list_all};
ghost use Rattle.mc_request.specs.Atoms.{atoms_of, head_of};
ghost use Rattle.mc_request.specs.declared.parts.Atom.{Atom};
ghost use Rattle.mc_request.specs.Requests.{next_request, requests_of};
ghost use Rattle.mc_reply.specs.declared.replies.Reply.{Reply};
ghost use Rattle.mc_reply.specs.CanHave.{can_have};
ghost use Rattle.mc_reply.specs.Spelling.{answer_of, spelling_of};
ghost use Rattle.mc_codec.specs.Spellings.{can_be_spelled, is_good_atom, request_of, spelling_of_atom, spellings_of};

use mc_request::{Parsed, Request};

/// The canonical spelling of a command is read as that command, whatever follows. It is the first request of its text, which
/// takes the bytes of the spelling and no other, and the others are read after it.
pub fn spelled_commands_are_read()
    ensures first { (atom : Atom (List ℕ)) (more : List ℕ) → is_good_atom atom ≡ true
        → next_request (spelling_of_atom atom ++ more) ≡ Some (Parsed.Whole (request_of atom), length (spelling_of_atom atom)) }
    ensures requests { (atom : Atom (List ℕ)) (more : List ℕ) → is_good_atom atom ≡ true
        → requests_of (spelling_of_atom atom ++ more) ≡ Parsed.Whole (request_of atom) ∷ requests_of more }
{}

/// The request that the spelling of a command is read as stands for this command, and for no other.
pub fn spelled_command_is_one()
    ensures { (atom : Atom (List ℕ)) → atoms_of (request_of atom) ≡ atom ∷ [] }
{}

/// No spelling begins another: equal texts begin with the same command, and go on in the same way.
pub fn spellings_are_apart()
    ensures { (a b : Atom (List ℕ)) (xs ys : List ℕ) → is_good_atom a ≡ true → is_good_atom b ≡ true
        → spelling_of_atom a ++ xs ≡ spelling_of_atom b ++ ys → (a ≡ b) × (xs ≡ ys) }
{}

/// Spellings in sequence are read as their commands in order, and what follows them as by itself. So a `quit` after them is
/// the last request.
pub fn quit_after_commands_is_read()
    ensures more { (commands : List (Atom (List ℕ))) (more : List ℕ) → list_all is_good_atom commands ≡ true
        → requests_of (spellings_of commands ++ more) ≡ map (λ atom. Parsed.Whole (request_of atom)) commands ++ requests_of more }
    ensures quit { (commands : List (Atom (List ℕ))) → list_all is_good_atom commands ≡ true
        → requests_of (spellings_of commands ++ codes "quit\r\n")
        ≡ map (λ atom. Parsed.Whole (request_of atom)) commands ++ Parsed.Whole Request.Quit ∷ [] }
{}

/// Each command of a client's text has a canonical spelling. `All (λ b. b < 256)` says that a list is bytes, as each text of
/// a program is.
pub fn commands_of_texts_can_be_spelled()
    ensures { (text : List ℕ) → All (λ b. b < 256) text → list_all can_be_spelled (requests_of text) ≡ true }
{}

/// A server that reads the canonical spelling of a command answers the request by the canonical spelling of a reply that
/// this command can have.
pub fn canonical_answers()
    ensures { (atom : Atom (List ℕ)) → (reply : Reply (List ℕ)) → is_good_atom atom ≡ true → can_have atom reply ≡ true
        → answer_of (request_of atom) (reply ∷ []) ≡ spelling_of atom reply }
{}

/// The head of a command decides which replies it can have, and how they are spelled: its data block plays no part.
pub fn heads_tell_of_replies()
    ensures can_have { (atom : Atom (List ℕ)) → (reply : Reply (List ℕ)) → can_have (head_of atom) reply ≡ can_have atom reply }
    ensures spelling { (atom : Atom (List ℕ)) → (reply : Reply (List ℕ)) → spelling_of (head_of atom) reply ≡ spelling_of atom reply }
{}
