//! Laws of requests that were taken. The functions do nothing: their contracts are the laws.
ghost use Rattle.std.specs.Prelude.{ℕ, ◌≡◌, ◌≤◌, ◌<◌, List, [], length};
ghost use Rattle.mc_request.specs.Requests.{requests_of};
ghost use Rattle.mc_request.specs.declared.parts.Parsed.{Parsed};
ghost use Rattle.mc_ring.specs.Rings.{RingState};
ghost use Rattle.mc_route.specs.declared.losses.Losses.{Losses};
ghost use Rattle.mc_cache.specs.CacheState.{CacheState};
ghost use Rattle.mc_account.specs.Orders.{Tagged};
ghost use Rattle.mc_history.specs.declared.entries.Entry.{Entry};
ghost use Rattle.mc_world.specs.Accounts.{Account};
ghost use Rattle.mc_world.specs.Homes.{Homes};
ghost use Rattle.mc_world.specs.Logs.{IsRingAfter, Log, number_of, takes};
ghost use Rattle.mc_pool_laws.specs.Followed.{AreSentBy};
ghost use Rattle.mc_pool_laws.specs.Sent.{IsTaken};

/// A request is taken only if its client sent it whole. It is the one of its number in the client's text, and its proxy has a ring of that moment.
pub fn requests_are_taken_as_sent()
    ensures few { (home : Homes) (losses : Losses) (ring : RingState) (opening : CacheState) (texts outs : ℕ → List ℕ) (histories : ℕ → List Entry) (log : Log)
        → Account home losses ring opening texts outs histories log → (client : ℕ) → number_of (takes client) log ≤ length (requests_of (texts client)) }
    ensures each { (home : Homes) (losses : Losses) (ring : RingState) (opening : CacheState) (texts outs : ℕ → List ℕ) (histories : ℕ → List Entry) (log : Log)
        → Account home losses ring opening texts outs histories log → (client request : ℕ) → request < number_of (takes client) log
        → (what : Parsed) × (now : RingState) × IsTaken home ring texts log client request what now }
{}

/// The commands that a proxy sent to a server are one list, which the clients' texts and the log determine. So what a history that follows the proxy
/// has of its clients is determined too.
pub fn sent_commands_are_one()
    ensures { (home : Homes) (proxy : ℕ) (ring : RingState) (texts : ℕ → List ℕ) (log : Log) (place : ℕ) (a b : List Tagged)
        → AreSentBy home proxy ring texts place [] log a → AreSentBy home proxy ring texts place [] log b → a ≡ b }
{}

/// A log leaves each proxy one ring. So the server of each command is determined.
pub fn rings_are_one()
    ensures { (proxy : ℕ) (ring a b : RingState) (log : Log) → IsRingAfter proxy ring log a → IsRingAfter proxy ring log b → a ≡ b }
{}
