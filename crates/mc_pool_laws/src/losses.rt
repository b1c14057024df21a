//! Laws of commands whose links are lost or hold. The functions do nothing: their contracts are the laws.
ghost use Rattle.std.specs.Prelude.{ℕ, ◌≡◌, ◌≢◌, ◌<◌, ◌⊎◌, List, Some, slice_get};
ghost use Rattle.mc_reply.specs.declared.replies.Reply.{Reply as AReply};
ghost use Rattle.mc_ring.specs.Rings.{RingState};
ghost use Rattle.mc_route.specs.declared.losses.Losses.{Losses};
ghost use Rattle.mc_route.specs.declared.outcomes.Outcome.TheVariants.{Lost, Reply};
ghost use Rattle.mc_route.specs.declared.routes.Routed.{Routed};
ghost use Rattle.mc_link.specs.declared.turns.Tag.{Tag};
ghost use Rattle.mc_cache.specs.CacheState.{CacheState};
ghost use Rattle.mc_account.specs.Lookups.{IsBefore, command_at, outcome_at};
ghost use Rattle.mc_account.specs.Orders.{Order};
ghost use Rattle.mc_history.specs.declared.entries.Entry.{Entry};
ghost use Rattle.mc_history.specs.Histories.{tag_in};
ghost use Rattle.mc_world.specs.Accounts.{Account, Accounts, NotAnswered, WasNeverSentOrLost, up_when_taken};
ghost use Rattle.mc_world.specs.Homes.{Homes};
ghost use Rattle.mc_world.specs.Logs.{Log, before, drops, number_of, puts, serves};
ghost use Rattle.mc_pool_laws.specs.Followed.{FollowsProxy};
ghost use Rattle.mc_pool_laws.specs.Sent.{IsSent};
ghost use Rattle.mc_pool_laws.specs.Outcomes.{HasEntry, HasOneEntry, LinkHeld, WasAnswered};

/// Each command of an answered request was executed by its server, or was lost. If it was lost, either its proxy's link to that server was down when
/// its request was taken, and it was never executed; or that link was lost between then and the answer.
pub fn answered_commands_are_executed_or_lost()
    ensures { (home : Homes) (losses : Losses) (ring : RingState) (opening : CacheState) (texts outs : ℕ → List ℕ) (histories : ℕ → List Entry) (log : Log)
        → Account home losses ring opening texts outs histories log → (tag : Tag) (command : Routed) → IsSent home ring texts log tag command → WasAnswered tag log
        → HasEntry (histories command.server) tag ⊎ WasNeverSentOrLost home command.server tag (histories command.server) log }
{}

/// If a proxy's link to a server is never down, each command of an answered request that goes to that server by that proxy was executed there,
/// exactly once, and nowhere else. Other links to the server play no part.
pub fn without_losses_each_command_is_executed_once()
    ensures { (home : Homes) (losses : Losses) (ring : RingState) (opening : CacheState) (texts outs : ℕ → List ℕ) (histories : ℕ → List Entry) (log : Log)
        → Account home losses ring opening texts outs histories log → (tag : Tag) (command : Routed) → IsSent home ring texts log tag command → WasAnswered tag log
        → number_of (drops (home tag.session) command.server) log ≡ 0 → HasOneEntry histories command.server tag }
{}

/// If the link of a command's proxy to its server was up when its request was taken, and held, that server executed the command, exactly once, and no
/// other did (`held`). So it did if the link was not down before the answer (`never_down`). The link may be lost later.
pub fn commands_whose_links_held_are_executed_once()
    ensures held { (home : Homes) (losses : Losses) (ring : RingState) (opening : CacheState) (texts outs : ℕ → List ℕ) (histories : ℕ → List Entry) (log : Log)
        → Account home losses ring opening texts outs histories log → (tag : Tag) (command : Routed) → IsSent home ring texts log tag command → WasAnswered tag log
        → up_when_taken (home tag.session) command.server tag log → LinkHeld home command.server tag log → HasOneEntry histories command.server tag }
    ensures never_down { (home : Homes) (losses : Losses) (ring : RingState) (opening : CacheState) (texts outs : ℕ → List ℕ) (histories : ℕ → List Entry) (log : Log)
        → Account home losses ring opening texts outs histories log → (tag : Tag) (command : Routed) → IsSent home ring texts log tag command → WasAnswered tag log
        → number_of (drops (home tag.session) command.server) (before (puts tag.session) tag.request log) ≡ 0 → HasOneEntry histories command.server tag }
{}

/// If a proxy's link to a server is never down, no command on it is lost, and each of an answered request has its reply. What the server's history has
/// of this proxy's clients is of the first of the commands that the proxy sent to it, in the order in which it took the requests.
pub fn without_losses_histories_follow_the_proxy()
    ensures never_lost { (home : Homes) (losses : Losses) (ring : RingState) (opening : CacheState) (order : Order) (texts outs : ℕ → List ℕ) (histories : ℕ → List Entry) (log : Log)
        → Accounts home losses ring opening order texts outs histories log → (tag : Tag) (command : Routed) → command_at order tag ≡ Some command
        → number_of (drops (home tag.session) command.server) log ≡ 0 → outcome_at order tag ≢ Some Lost }
    ensures replied { (home : Homes) (losses : Losses) (ring : RingState) (opening : CacheState) (order : Order) (texts outs : ℕ → List ℕ) (histories : ℕ → List Entry) (log : Log)
        → Accounts home losses ring opening order texts outs histories log → (tag : Tag) (command : Routed) → command_at order tag ≡ Some command
        → number_of (drops (home tag.session) command.server) log ≡ 0 → WasAnswered tag log → (reply : AReply (List ℕ)) × (outcome_at order tag ≡ Some (Reply reply)) }
    ensures follows { (home : Homes) (losses : Losses) (ring : RingState) (opening : CacheState) (texts outs : ℕ → List ℕ) (histories : ℕ → List Entry) (log : Log)
        → Account home losses ring opening texts outs histories log → (proxy place : ℕ) → number_of (drops proxy place) log ≡ 0
        → FollowsProxy home proxy ring texts log place (histories place) }
{}

/// A server executes the commands of one client in its order, as far as they are answered and their links held.
pub fn clients_keep_their_order()
    ensures { (home : Homes) (losses : Losses) (ring : RingState) (opening : CacheState) (texts outs : ℕ → List ℕ) (histories : ℕ → List Entry) (log : Log)
        → Account home losses ring opening texts outs histories log → (place j k : ℕ) (d e : Entry) → slice_get (histories place) j ≡ Some d
        → slice_get (histories place) k ≡ Some e → j < k → d.client ≡ e.client → WasAnswered (tag_in d) log → WasAnswered (tag_in e) log
        → LinkHeld home place (tag_in d) log → LinkHeld home place (tag_in e) log → IsBefore (tag_in d) (tag_in e) }
{}

/// A command whose link held is executed before its request is answered.
pub fn answers_come_after_their_turns()
    ensures { (home : Homes) (losses : Losses) (ring : RingState) (opening : CacheState) (texts outs : ℕ → List ℕ) (histories : ℕ → List Entry) (log : Log)
        → Account home losses ring opening texts outs histories log → (place k : ℕ) (e : Entry) → slice_get (histories place) k ≡ Some e
        → LinkHeld home place (tag_in e) log → NotAnswered (tag_in e) (before (serves place) k log) }
{}
