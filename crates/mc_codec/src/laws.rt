//! Laws of replies and their spellings. The functions do nothing: their contracts are the laws.
ghost use Rattle.std.specs.Prelude.{◌≡◌, ◌≢◌, ℕ, ℤ, Bool, true, List, [], ◌++◌, Option};
ghost use Rattle.mc_request.specs.Atoms.{head_of};
ghost use Rattle.mc_request.specs.declared.meta.MetaCommand.{MetaCommand};
ghost use Rattle.mc_request.specs.declared.parts.Atom.{Atom};
ghost use Rattle.mc_request.specs.declared.parts.Atom.TheVariants.{Get, Update as AnUpdate, Meta};
ghost use Rattle.mc_request.specs.declared.parts.Update.{Update};
ghost use Rattle.mc_reply.specs.declared.replies.Reply.{Reply};
ghost use Rattle.mc_reply.specs.CanHave.{can_have};
ghost use Rattle.mc_reply.specs.Spelling.{spelling_of};
ghost use Rattle.mc_codec.specs.Spellings.{is_askable, is_good_atom};
ghost use Rattle.mc_codec.specs.NextReply.{IsBegun};

/// No spelling of a reply to a command begins that of another, and each is of one reply. So the front of some bytes is
/// one reply or none.
#[tactic(auto, using(crate::proofs::HeadLemmas::replies_apart))]
pub fn replies_are_apart()
    ensures { (head : Atom (Unit {0})) → (r q : Reply (List ℕ)) → (xs ys : List ℕ)
        → can_have head r ≡ true → can_have head q ≡ true
        → spelling_of head r ++ xs ≡ spelling_of head q ++ ys → (r ≡ q) × (xs ≡ ys) }
{}

/// Before any byte has arrived, a reply may begin to any command that a client's request can say.
pub fn nothing_is_a_beginning()
    ensures get { (key : List ℕ) → (exptime : Option ℤ) → (with_cas : Bool) → IsBegun (Get key exptime with_cas) [] }
    ensures update { (update : Update (List ℕ) (Unit {0})) → IsBegun (AnUpdate update) [] }
    ensures meta { (command : MetaCommand (List ℕ) (Unit {0})) → is_askable command ≡ true → IsBegun (Meta command) [] }
    ensures atom { (atom : Atom (List ℕ)) → is_good_atom atom ≡ true → IsBegun (head_of atom) [] }
{}

/// No reply that a command can have is spelled by no bytes.
pub fn spellings_are_not_empty()
    ensures { (head : Atom (Unit {0})) → (reply : Reply (List ℕ)) → can_have head reply ≡ true → spelling_of head reply ≢ [] }
{}
