//! Laws of the bytes that are emitted to clients. The functions do nothing: their contracts are the laws.
ghost use Rattle.std.specs.Prelude.{ℕ, ◌≡◌, ◌<◌, ◌≤◌, List, [], length};
ghost use Rattle.std.specs.List.{concat};
ghost use Rattle.mc_ring.specs.Rings.{RingState};
ghost use Rattle.mc_route.specs.declared.losses.Losses.{Losses};
ghost use Rattle.mc_cache.specs.CacheState.{CacheState};
ghost use Rattle.mc_history.specs.declared.entries.Entry.{Entry};
ghost use Rattle.mc_world.specs.Accounts.{Account};
ghost use Rattle.mc_world.specs.Homes.{Homes};
ghost use Rattle.mc_world.specs.Logs.{Log, before, number_of, puts, takes};
ghost use Rattle.mc_pool_laws.specs.Outcomes.{AreAnswersFrom};

/// An answer is emitted only to a request that was taken before.
pub fn answers_follow_requests()
    ensures few { (home : Homes) (losses : Losses) (ring : RingState) (opening : CacheState) (texts outs : ℕ → List ℕ) (histories : ℕ → List Entry) (log : Log)
        → Account home losses ring opening texts outs histories log → (client : ℕ) → number_of (puts client) log ≤ number_of (takes client) log }
    ensures each { (home : Homes) (losses : Losses) (ring : RingState) (opening : CacheState) (texts outs : ℕ → List ℕ) (histories : ℕ → List Entry) (log : Log)
        → Account home losses ring opening texts outs histories log → (client request : ℕ) → request < number_of (puts client) log
        → request < number_of (takes client) (before (puts client) request log) }
{}

/// The bytes emitted to a client are one answer for each put of the log, to its first requests, in their order. Each answer is made of replies
/// to its commands whose encodings the servers' histories have. If a command was lost, which the log then shows, the answer follows the choice
/// for lost commands.
pub fn answers_are_those_of_the_histories()
    ensures { (home : Homes) (losses : Losses) (ring : RingState) (opening : CacheState) (texts outs : ℕ → List ℕ) (histories : ℕ → List Entry) (log : Log)
        → Account home losses ring opening texts outs histories log → (client : ℕ)
        → (answers : List (List ℕ)) × (length answers ≡ number_of (puts client) log) × (outs client ≡ concat answers)
        × AreAnswersFrom home losses ring texts histories log client 0 answers }
{}

/// No bytes are emitted to a client if the log has no put for it, or if it sent nothing.
pub fn nothing_is_put_out_unasked()
    ensures without_put { (home : Homes) (losses : Losses) (ring : RingState) (opening : CacheState) (texts outs : ℕ → List ℕ) (histories : ℕ → List Entry) (log : Log)
        → Account home losses ring opening texts outs histories log → (client : ℕ) → number_of (puts client) log ≡ 0 → outs client ≡ [] }
    ensures without_text { (home : Homes) (losses : Losses) (ring : RingState) (opening : CacheState) (texts outs : ℕ → List ℕ) (histories : ℕ → List Entry) (log : Log)
        → Account home losses ring opening texts outs histories log → (client : ℕ) → texts client ≡ [] → outs client ≡ [] }
{}
