//! Why an account has each of its clauses. The functions do nothing: their contracts are the laws. Each says that texts, histories and a log
//! exist of which all clauses except one hold, and which break a law of this crate.
ghost use Rattle.std.specs.Prelude.{ℕ, ◌≡◌, ◌≢◌, ◌<◌, ◌↔◌, List, [], Some, length, slice_get};
ghost use Rattle.mc_request.specs.Requests.{requests_of};
ghost use Rattle.mc_ring.specs.Rings.{RingState};
ghost use Rattle.mc_route.specs.declared.losses.Losses.{Losses};
ghost use Rattle.mc_cache.specs.CacheState.{CacheState};
ghost use Rattle.mc_account.specs.Orders.{Order};
ghost use Rattle.mc_account.specs.Lookups.{IsBefore};
ghost use Rattle.mc_history.specs.Histories.{tag_in};
ghost use Rattle.mc_history.specs.declared.entries.Entry.{Entry};
ghost use Rattle.mc_world.specs.Accounts.{Accounts, NotAnswered, WasTaken};
ghost use Rattle.mc_world.specs.Homes.{Homes};
ghost use Rattle.mc_world.specs.Logs.{Log, before, drops, in_life, number_of, puts, serves, takes};
ghost use Rattle.mc_pool_laws.specs.Followed.{FollowsProxy};
ghost use Rattle.mc_pool_laws.specs.Sent.{IsReplayed};
ghost use Rattle.mc_pool_laws.specs.Outcomes.{IsUnaccounted, LinkHeld, WasAnswered};
ghost use Rattle.mc_pool_laws.specs.Without.{AccountsBut, After, Allows, Answered, Asked, Clause, Followed, Legal, Lost, Moments, Numbered, Once, Ordered, Placed, Put, Replied, Rings, Sized, Turns, Unanswered};

/// The clauses that are left out one by one are those of the account.
pub fn clauses_are_those_of_the_account()
    ensures { (home : Homes) (losses : Losses) (ring : RingState) (opening : CacheState) (order : Order) (texts outs : ℕ → List ℕ) (histories : ℕ → List Entry) (log : Log)
        → Accounts home losses ring opening order texts outs histories log ↔ ((one : Clause) → AccountsBut one home losses ring opening order texts outs histories log) }
{}

/// Without `asked` or `turns` requests could be taken that no client sent. Without `turns`, `numbered` or `followed` two commands could be
/// exchanged on a link that was never down.
pub fn requests_need_their_clauses()
    ensures asked { Allows Asked (λ home ring opening texts outs histories log. length (requests_of (texts 0)) < number_of (takes 0) log) }
    ensures turns { Allows Turns (λ home ring opening texts outs histories log. length (requests_of (texts 0)) < number_of (takes 0) log) }
    ensures turns_in_order { Allows Turns (λ home ring opening texts outs histories log. (number_of (drops 0 0) log ≡ 0) × (FollowsProxy home 0 ring texts log 0 (histories 0) → ⊥)) }
    ensures numbered { Allows Numbered (λ home ring opening texts outs histories log. (number_of (drops 0 0) log ≡ 0) × (FollowsProxy home 0 ring texts log 0 (histories 0) → ⊥)) }
    ensures followed { Allows Followed (λ home ring opening texts outs histories log. (number_of (drops 0 0) log ≡ 0) × (FollowsProxy home 0 ring texts log 0 (histories 0) → ⊥)) }
{}

/// Without `after` or `put` an answer could exist although nothing was taken, or bytes that are no answer. Without `sized`, `answered`,
/// `replied`, `lost` or `rings` a request could be answered whose command no server has executed, and which no loss explains.
pub fn answers_need_their_clauses()
    ensures after { Allows After (λ home ring opening texts outs histories log. number_of (takes 0) log < number_of (puts 0) log) }
    ensures put { Allows Put (λ home ring opening texts outs histories log. (number_of (puts 0) log ≡ 0) × (outs 0 ≢ [])) }
    ensures sized { Allows Sized (λ home ring opening texts outs histories log. IsUnaccounted home ring texts histories log) }
    ensures answered { Allows Answered (λ home ring opening texts outs histories log. IsUnaccounted home ring texts histories log) }
    ensures replied { Allows Replied (λ home ring opening texts outs histories log. IsUnaccounted home ring texts histories log) }
    ensures lost { Allows Lost (λ home ring opening texts outs histories log. IsUnaccounted home ring texts histories log) }
    ensures rings { Allows Rings (λ home ring opening texts outs histories log. IsUnaccounted home ring texts histories log) }
{}

/// Without `legal` a server could answer what no cache does. Without `once` it could execute a command twice, and without `moments` it could
/// have a turn without an entry. Without `placed` it could execute a command before it was taken, or after it was answered by its reply.
pub fn histories_need_their_clauses()
    ensures legal { Allows Legal (λ home ring opening texts outs histories log. IsReplayed home ring texts log 0 opening (in_life 0 0 log (histories 0)) → ⊥) }
    ensures once { Allows Once (λ home ring opening texts outs histories log. (d : Entry) × (e : Entry) × (slice_get (histories 0) 0 ≡ Some d)
        × (slice_get (histories 0) 1 ≡ Some e) × (tag_in d ≡ tag_in e)) }
    ensures moments { Allows Moments (λ home ring opening texts outs histories log. length (histories 0) ≢ number_of (serves 0) log) }
    ensures placed { Allows Placed (λ home ring opening texts outs histories log. (e : Entry) × (slice_get (histories 0) 0 ≡ Some e)
        × (WasTaken (tag_in e) (before (serves 0) 0 log) → ⊥)) }
    ensures unanswered { Allows Unanswered (λ home ring opening texts outs histories log. (e : Entry) × (slice_get (histories 0) 0 ≡ Some e)
        × LinkHeld home 0 (tag_in e) log × (NotAnswered (tag_in e) (before (serves 0) 0 log) → ⊥)) }
{}

/// Without `ordered` a server could execute the commands of a client in another order than it sent them.
pub fn the_order_needs_its_clause()
    ensures { Allows Ordered (λ home ring opening texts outs histories log. (d : Entry) × (e : Entry) × (slice_get (histories 0) 0 ≡ Some d)
        × (slice_get (histories 0) 1 ≡ Some e) × (d.client ≡ e.client) × WasAnswered (tag_in d) log × WasAnswered (tag_in e) log
        × LinkHeld home 0 (tag_in d) log × LinkHeld home 0 (tag_in e) log × (IsBefore (tag_in d) (tag_in e) → ⊥)) }
{}
