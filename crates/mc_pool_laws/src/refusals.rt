//! What no account allows. The functions do nothing: their contracts are the laws.
ghost use Rattle.std.specs.Prelude.{ℕ, ◌≡◌, ◌≢◌, List, [], ◌∷◌, Some, slice_get};
ghost use Rattle.mc_request.specs.declared.parts.Atom.{Atom};
ghost use Rattle.mc_reply.specs.Spelling.{spelling_of};
ghost use Rattle.mc_ring.specs.Rings.{RingState};
ghost use Rattle.mc_route.specs.declared.losses.Losses.{Losses};
ghost use Rattle.mc_route.specs.Routes.{to_place};
ghost use Rattle.mc_cache.specs.CacheState.{CacheState};
ghost use Rattle.mc_cache.specs.Step.{step_of};
ghost use Rattle.mc_history.specs.declared.entries.Entry.{Entry};
ghost use Rattle.mc_history.specs.Histories.{tag_in};
ghost use Rattle.mc_world.specs.Accounts.{Account};
ghost use Rattle.mc_world.specs.Homes.{Homes};
ghost use Rattle.mc_world.specs.Logs.{Log, number_of, puts, serves};
ghost use Rattle.mc_pool_laws.specs.Sent.{IsSent};

/// A history with an entry gives no account if the log has no turn of its server.
pub fn no_entry_without_a_turn()
    ensures { (home : Homes) (losses : Losses) (ring : RingState) (opening : CacheState) (texts outs : ℕ → List ℕ) (histories : ℕ → List Entry) (log : Log) (place k : ℕ) (e : Entry)
        → slice_get (histories place) k ≡ Some e → number_of (serves place) log ≡ 0 → Account home losses ring opening texts outs histories log → ⊥ }
{}

/// An answer that is emitted to a client that sent nothing gives no account.
pub fn no_answer_without_a_request()
    ensures { (home : Homes) (losses : Losses) (ring : RingState) (opening : CacheState) (texts outs : ℕ → List ℕ) (histories : ℕ → List Entry) (log : Log) (client : ℕ)
        → texts client ≡ [] → number_of (puts client) log ≢ 0 → Account home losses ring opening texts outs histories log → ⊥ }
{}

/// One command in the histories of two servers gives no account.
pub fn no_command_in_two_histories()
    ensures { (home : Homes) (losses : Losses) (ring : RingState) (opening : CacheState) (texts outs : ℕ → List ℕ) (histories : ℕ → List Entry) (log : Log) (r s j k : ℕ) (d e : Entry)
        → r ≢ s → slice_get (histories r) j ≡ Some d → slice_get (histories s) k ≡ Some e → tag_in d ≡ tag_in e
        → Account home losses ring opening texts outs histories log → ⊥ }
{}

/// A first entry gives no account if its reply is not the one that the opening cache gives to its
/// command.
pub fn no_reply_of_another_cache()
    ensures { (home : Homes) (losses : Losses) (ring : RingState) (opening : CacheState) (texts outs : ℕ → List ℕ) (histories : ℕ → List Entry) (log : Log) (place : ℕ)
        (atom : Atom (List ℕ)) (e : Entry) (es : List Entry) → histories place ≡ e ∷ es → IsSent home ring texts log (tag_in e) (to_place place atom)
        → e.reply ≢ spelling_of atom (step_of opening atom e.moment e.refused).1 → Account home losses ring opening texts outs histories log → ⊥ }
{}
