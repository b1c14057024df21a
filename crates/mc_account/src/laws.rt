//! How each call of a proxy keeps its account. The functions do nothing: their contracts are the laws.
ghost use Rattle.std.specs.Prelude.{◌≡◌, ◌≢◌, ◌+◌, ◌<◌, ◌≤◌, ℕ, Bool, true, List, [], ◌∷◌, ◌++◌, Some, None, All, length, map, drop, take, slice_get};
ghost use Rattle.std.specs.List.{list_all};
ghost use Rattle.mc_request.specs.declared.parts.Atom.{Atom};
ghost use Rattle.mc_ring.specs.Rings.{RingState};
ghost use Rattle.mc_route.specs.Routes.{route_of_taken, to_place};
ghost use Rattle.mc_route.specs.declared.losses.Losses.{Losses};
ghost use Rattle.mc_route.specs.declared.outcomes.Outcome.{Outcome};
ghost use Rattle.mc_route.specs.declared.outcomes.Outcome.TheVariants.{Awaited, Lost, Reply};
ghost use Rattle.mc_route.specs.declared.routes.Routed.{Routed};
ghost use Rattle.mc_link.specs.LinkState.{Waiting, can_come_back, up_link};
ghost use Rattle.mc_link.specs.declared.turns.Tag.{Tag};
ghost use Rattle.mc_proxy.specs.Emits.{IsEmit, is_noted};
ghost use Rattle.mc_proxy.specs.Sending.{at_once};
ghost use Rattle.mc_proxy.specs.SessionState.{answered, link_at, with_link};
ghost use Rattle.mc_proxy.specs.SessionTurns.{IsFed, IsTurn};
ghost use Rattle.mc_proxy.specs.declared.session_turns.Emit.TheVariants as emits;
ghost use Rattle.mc_proxy.specs.declared.session_turns.SessionTurn.{SessionTurn};
ghost use Rattle.mc_proxy.specs.declared.session_turns.SessionTurn.TheVariants.{Took};
ghost use Rattle.mc_proxy.specs.Joins.{JoinsServer};
ghost use Rattle.mc_proxy.specs.LinkTurns.{Answers, lost_at};
ghost use Rattle.mc_proxy.specs.ProxyState.{ProxyState, opened, output_of, sent_by, session_at, with_fresh, without};
ghost use Rattle.mc_proxy.specs.Turns.{Alone, Steps};
ghost use Rattle.mc_account.specs.Lanes.{Lane, fresh_lane};
ghost use Rattle.mc_account.specs.Lookups.{AreAwaited, IsAwaited, IsBefore, IsRoutedWithin, command_at, outcome_at};
ghost use Rattle.mc_account.specs.Orders.{AreInOrder, IsSized, Order, Tagged, TakenRequest, commands_to, entries_of, is_complete, note, note_all, outcomes_to};
ghost use Rattle.mc_account.specs.Answered.{AreAnswers, WasAnswered, answered_at};
ghost use Rattle.mc_account.specs.Holds.{ProxyHolds, changed, grown};

/// A proxy that was just made is in the state in which nothing was taken.
pub fn a_proxy_opens()
    ensures { (losses : Losses) (ring : RingState)
        → ProxyHolds (λ _. []) (λ _. []) [] (λ _. fresh_lane 0)
        (opened losses ring) }
{}

/// `admit` keeps the account.
pub fn admitted_sessions_hold()
    ensures { (texts sent : ℕ → List ℕ) (order : Order) (lanes : ℕ → Lane) (old : ProxyState)
        → ProxyHolds texts sent order lanes old → session_at old old.admitted ≡ None → ProxyHolds texts sent order lanes (with_fresh old) }
{}

/// `feed`: the session's text has the piece appended.
pub fn pieces_hold()
    ensures { (texts sent : ℕ → List ℕ) (order : Order) (lanes : ℕ → Lane) (number : ℕ) (piece : List ℕ) (old new : ProxyState)
        → ProxyHolds texts sent order lanes old → number < old.admitted → Steps number old new (Alone (IsFed piece))
        → ProxyHolds (grown number piece texts) sent order lanes new }
{}

/// `turn` that took a request: the order has one request more, which was routed by the ring of that moment; a command whose link
/// was down is lost.
pub fn taken_requests_hold()
    ensures { (texts sent : ℕ → List ℕ) (order : Order) (lanes : ℕ → Lane) (number : ℕ) (old new : ProxyState)
        → ProxyHolds texts sent order lanes old → (step : Steps number old new (IsTurn number Took old.ring old.losses))
        → ProxyHolds texts sent
        (order ++ (record {
          session = number;
          request = step.before.taken;
          what = step.step.0;
          ring = old.ring;
          losses = old.losses;
          outcomes = map (at_once old.links) (route_of_taken old.ring step.step.0);
        }) ∷ []) lanes new }
{}

/// A `turn` that took nothing keeps the account, and so does an `emit` that emitted nothing.
pub fn idle_calls_hold()
    ensures turn { (texts sent : ℕ → List ℕ) (order : Order) (lanes : ℕ → Lane) (number : ℕ) (turn : SessionTurn) (old new : ProxyState)
        → ProxyHolds texts sent order lanes old → turn ≢ Took → Steps number old new (IsTurn number turn old.ring old.losses)
        → ProxyHolds texts sent order lanes new }
    ensures emit { (texts sent : ℕ → List ℕ) (order : Order) (lanes : ℕ → Lane) (number : ℕ) (old new : ProxyState)
        → ProxyHolds texts sent order lanes old → Steps number old new (Alone (IsEmit emits.Idle))
        → ProxyHolds texts sent order lanes new }
{}

/// `emit` that answered keeps the account.
pub fn answers_put_out_hold()
    ensures { (texts sent : ℕ → List ℕ) (order : Order) (lanes : ℕ → Lane) (number : ℕ) (old new : ProxyState)
        → ProxyHolds texts sent order lanes old → Steps number old new (Alone (IsEmit emits.Done))
        → ProxyHolds texts sent order lanes new }
{}

/// `taken_out`: the first bytes of its session's output were sent to the client.
pub fn bytes_sent_to_clients_hold()
    ensures { (texts sent : ℕ → List ℕ) (order : Order) (lanes : ℕ → Lane) (number count : ℕ) (old : ProxyState)
        → ProxyHolds texts sent order lanes old → count ≤ length (output_of (session_at old number))
        → ProxyHolds texts (grown number (take count (output_of (session_at old number))) sent) order lanes
        (sent_by number count (session_at old number) old) }
{}

/// `gone` keeps the account: the session has left.
pub fn sessions_gone_hold()
    ensures { (texts sent : ℕ → List ℕ) (order : Order) (lanes : ℕ → Lane) (number : ℕ) (old : ProxyState)
        → ProxyHolds texts sent order lanes old
        → session_at (record old { sessions = without number old.sessions }) number ≡ None
        → ProxyHolds texts sent order lanes (record old { sessions = without number old.sessions }) }
{}

/// `link_taken_out`: the first bytes of the link's output were sent to the server.
pub fn bytes_sent_to_servers_hold()
    ensures { (texts sent : ℕ → List ℕ) (order : Order) (lanes : ℕ → Lane) (place count : ℕ) (old : ProxyState)
        → ProxyHolds texts sent order lanes old → count ≤ length (link_at old.links place).output
        → ProxyHolds texts sent order
        (changed place (record (lanes place) { out = (lanes place).out ++ take count (link_at old.links place).output }) lanes)
        (record old {
          links = with_link place
              (record (link_at old.links place) { output = drop count (link_at old.links place).output }) old.links;
        }) }
{}

/// `link_feed`: these bytes arrived from the server.
pub fn server_bytes_hold()
    ensures { (texts sent : ℕ → List ℕ) (order : Order) (lanes : ℕ → Lane) (place : ℕ) (piece : List ℕ) (old : ProxyState)
        → ProxyHolds texts sent order lanes old → (link_at old.links place).up ≡ true
        → ProxyHolds texts sent order (changed place (record (lanes place) { came = (lanes place).came ++ piece }) lanes)
        (record old {
          links = with_link place
              (record (link_at old.links place) { unread = (link_at old.links place).unread ++ piece }) old.links;
        }) }
{}

/// `link_turn` that took a reply: the reply is noted in the order, and appended to the replies of the link.
pub fn replies_hold()
    ensures { (texts sent : ℕ → List ℕ) (order : Order) (lanes : ℕ → Lane) (place : ℕ) (old new : ProxyState)
        → ProxyHolds texts sent order lanes old → (link_at old.links place).up ≡ true → (answers : Answers place old new)
        → ProxyHolds texts sent (note answers.tag (Reply answers.reply) order)
        (changed place (record (lanes place) { replies = (lanes place).replies ++ answers.reply ∷ [] }) lanes) new }
{}

/// `lost`, and a `link_turn` with a violation: the pending commands are lost, and nothing else.
pub fn lost_links_hold()
    ensures { (texts sent : ℕ → List ℕ) (order : Order) (lanes : ℕ → Lane) (place : ℕ) (old : ProxyState)
        → ProxyHolds texts sent order lanes old → (link_at old.links place).up ≡ true
        → ProxyHolds texts sent (note_all (map (λ waiting. waiting.1) (link_at old.links place).waiting) Lost order) lanes (lost_at place old) }
{}

/// `back`: requests that are taken from now on go over the link.
pub fn returned_links_hold()
    ensures { (texts sent : ℕ → List ℕ) (order : Order) (lanes : ℕ → Lane) (place : ℕ) (old : ProxyState)
        → ProxyHolds texts sent order lanes old → can_come_back (link_at old.links place) ≡ true → place < length old.links
        → ProxyHolds texts sent order (changed place (fresh_lane (length order)) lanes)
        (record old { links = with_link place (up_link ((link_at old.links place).generation + 1)) old.links }) }
{}

/// `join_server`: requests that were taken keep their owners. None was taken for the new place before.
pub fn joined_servers_hold()
    ensures { (texts sent : ℕ → List ℕ) (order : Order) (lanes : ℕ → Lane) (address : List ℕ) (up : Bool) (place : ℕ) (old new : ProxyState)
        → ProxyHolds texts sent order lanes old → length old.links ≡ length old.ring.servers → JoinsServer address up place old new
        → ProxyHolds texts sent order (changed place (fresh_lane (length order)) lanes) new }
{}

/// The bytes sent to each client are the answers to its first requests, in their order, each complete. For an open session these
/// are the answered requests, and its output is the part of their answers that was not consumed.
pub fn clients_are_answered()
    ensures { (texts sent : ℕ → List ℕ) (order : Order) (lanes : ℕ → Lane) (now : ProxyState)
        → ProxyHolds texts sent order lanes now → (number : ℕ) → WasAnswered number order (sent number) (session_at now number) }
{}

/// If no command is pending on any link, the outcome of each is known: so each session can be answered to its last request.
pub fn nothing_awaited_is_complete()
    ensures { (texts sent : ℕ → List ℕ) (order : Order) (lanes : ℕ → Lane) (now : ProxyState)
        → ProxyHolds texts sent order lanes now → ((place : ℕ) → (link_at now.links place).waiting ≡ [])
        → list_all is_complete order ≡ true }
{}

/// Only an `emit` that emits an answer answers a request, and it answers one. All other calls leave the number of answered
/// requests of each session.
pub fn answered_requests_are_counted()
    ensures emit { (texts sent : ℕ → List ℕ) (order : Order) (lanes : ℕ → Lane) (number : ℕ) (old new : ProxyState)
        → ProxyHolds texts sent order lanes old → (step : Steps number old new (Alone (IsEmit emits.Done)))
        → answered step.after ≡ answered step.before + 1 }
    ensures idle { (number : ℕ) (old new : ProxyState) → Steps number old new (Alone (IsEmit emits.Idle))
        → (other : ℕ) → answered_at new other ≡ answered_at old other }
    ensures turn { (number : ℕ) (turn : SessionTurn) (ring : RingState) (losses : Losses) (old new : ProxyState) → Steps number old new (IsTurn number turn ring losses)
        → (other : ℕ) → answered_at new other ≡ answered_at old other }
    ensures fed { (number : ℕ) (piece : List ℕ) (old new : ProxyState) → Steps number old new (Alone (IsFed piece))
        → (other : ℕ) → answered_at new other ≡ answered_at old other }
    ensures sent { (number count : ℕ) (old : ProxyState) (other : ℕ)
        → answered_at (sent_by number count (session_at old number) old) other ≡ answered_at old other }
    ensures replied { (place : ℕ) (old new : ProxyState) → Answers place old new
        → (other : ℕ) → answered_at new other ≡ answered_at old other }
    ensures lost { (place : ℕ) (old : ProxyState) (other : ℕ) → answered_at (lost_at place old) other ≡ answered_at old other }
{}

/// If a link is up, the order has each of its pending commands, with an outcome that is not known yet. This holds too while one
/// outcome is noted of all of them, in sequence, and for the command that gets its reply.
pub fn waiting_commands_are_awaited()
    ensures each { (texts sent : ℕ → List ℕ) (order : Order) (lanes : ℕ → Lane) (now : ProxyState)
        → ProxyHolds texts sent order lanes now → (place : ℕ) → (link_at now.links place).up ≡ true
        → (index : ℕ) (waiting : Waiting) → slice_get (link_at now.links place).waiting index ≡ Some waiting
        → IsAwaited place order waiting }
    ensures all { (texts sent : ℕ → List ℕ) (order : Order) (lanes : ℕ → Lane) (now : ProxyState)
        → ProxyHolds texts sent order lanes now → (place : ℕ) → (link_at now.links place).up ≡ true
        → (outcome : Outcome) → is_noted outcome ≡ true
        → AreAwaited (map (λ waiting. waiting.1) (link_at now.links place).waiting) outcome order }
    ensures replied { (texts sent : ℕ → List ℕ) (order : Order) (lanes : ℕ → Lane) (place : ℕ) (old new : ProxyState)
        → ProxyHolds texts sent order lanes old → (link_at old.links place).up ≡ true → (answers : Answers place old new)
        → outcome_at order answers.tag ≡ Some Awaited }
{}

/// A command whose reply is pending is of no answered request.
pub fn awaited_commands_are_not_answered()
    ensures { (number : ℕ) (order : Order) (count : ℕ) (sent unsent : List ℕ) (tag : Tag)
        → AreAnswers number order count sent unsent → outcome_at order tag ≡ Some Awaited → tag.session ≡ number
        → count ≤ tag.request }
{}

/// An answer that a client got stays its answer, whether its session is open or has left. It stays after a request is taken,
/// after an outcome is noted that was pending, and after bytes are consumed.
pub fn answers_stay()
    ensures taken { (number : ℕ) (order : Order) (e : TakenRequest) (count : ℕ) (sent unsent : List ℕ)
        → AreAnswers number order count sent unsent → AreAnswers number (order ++ e ∷ []) count sent unsent }
    ensures noted { (number : ℕ) (order : Order) (tag : Tag) (outcome : Outcome) (count : ℕ) (sent unsent : List ℕ)
        → AreInOrder (entries_of number order) → outcome_at order tag ≡ Some Awaited
        → AreAnswers number order count sent unsent → AreAnswers number (note tag outcome order) count sent unsent }
    ensures all_noted { (number : ℕ) (tags : List Tag) (outcome : Outcome) (order : Order) (count : ℕ) (sent unsent : List ℕ)
        → ((session : ℕ) → AreInOrder (entries_of session order)) → AreAwaited tags outcome order
        → AreAnswers number order count sent unsent → AreAnswers number (note_all tags outcome order) count sent unsent }
    ensures sent { (number : ℕ) (order : Order) (count : ℕ) (sent unsent : List ℕ) (bytes : ℕ)
        → AreAnswers number order count sent unsent → AreAnswers number order count (sent ++ take bytes unsent) (drop bytes unsent) }
{}

/// It stays too after a `link_turn` that took a reply, and after a link is lost.
pub fn answers_stay_at_links()
    ensures replied { (texts sent : ℕ → List ℕ) (order : Order) (lanes : ℕ → Lane) (place : ℕ) (old new : ProxyState)
        → ProxyHolds texts sent order lanes old → (link_at old.links place).up ≡ true → (answers : Answers place old new)
        → (number count : ℕ) (out unsent : List ℕ) → AreAnswers number order count out unsent
        → AreAnswers number (note answers.tag (Reply answers.reply) order) count out unsent }
    ensures lost { (texts sent : ℕ → List ℕ) (order : Order) (lanes : ℕ → Lane) (place : ℕ) (old : ProxyState)
        → ProxyHolds texts sent order lanes old → (link_at old.links place).up ≡ true
        → (number count : ℕ) (out unsent : List ℕ) → AreAnswers number order count out unsent
        → AreAnswers number (note_all (map (λ waiting. waiting.1) (link_at old.links place).waiting) Lost order) count out unsent }
{}

/// If each entry was routed by a ring of at most `places` servers, each command goes to one of that many places.
pub fn commands_stay_within()
    ensures { (places : ℕ) (order : Order) → All (IsRoutedWithin places) order
        → (tag : Tag) (routed : Routed) → command_at order tag ≡ Some routed → routed.server < places }
{}

/// For one session the commands to a place rise: by request, and then by their number in it.
pub fn commands_rise()
    ensures { (place : ℕ) (order : Order) → ((number : ℕ) → AreInOrder (entries_of number order))
        → (i j : ℕ) (first second : Tagged) → slice_get (commands_to place order) i ≡ Some first
        → slice_get (commands_to place order) j ≡ Some second → i < j → first.1.session ≡ second.1.session
        → IsBefore first.1 second.1 }
{}

/// A command that a look-up finds is among those to its place.
pub fn found_commands_are_there()
    ensures { (place : ℕ) (order : Order) → ((number : ℕ) → AreInOrder (entries_of number order)) → (tag : Tag) (atom : Atom (List ℕ))
        → command_at order tag ≡ Some (to_place place atom)
        → (i : ℕ) × (slice_get (commands_to place order) i ≡ Some (atom, tag)) }
{}

/// Each of those commands, with its outcome, is what look-ups by its tag find.
pub fn commands_are_found()
    ensures { (place : ℕ) (order : Order) → ((number : ℕ) → AreInOrder (entries_of number order)) → All IsSized order
        → (i : ℕ) (command : Tagged) (outcome : Outcome) → slice_get (commands_to place order) i ≡ Some command
        → slice_get (outcomes_to place order) i ≡ Some outcome
        → (command_at order command.1 ≡ Some (to_place place command.0)) × (outcome_at order command.1 ≡ Some outcome) }
{}

/// For one session, a command to a place with a known outcome was asked before all pending ones on its link. Those are pending
/// in the order in which they were asked.
pub fn known_commands_come_first()
    ensures known { (texts sent : ℕ → List ℕ) (order : Order) (lanes : ℕ → Lane) (now : ProxyState)
        → ProxyHolds texts sent order lanes now → (place : ℕ) → (link_at now.links place).up ≡ true
        → (i : ℕ) (command : Tagged) (outcome : Outcome) → slice_get (commands_to place order) i ≡ Some command
        → outcome_at order command.1 ≡ Some outcome → is_noted outcome ≡ true
        → (k : ℕ) (waiting : Waiting) → slice_get (link_at now.links place).waiting k ≡ Some waiting
        → command.1.session ≡ waiting.1.session → IsBefore command.1 waiting.1 }
    ensures named { (texts sent : ℕ → List ℕ) (order : Order) (lanes : ℕ → Lane) (now : ProxyState)
        → ProxyHolds texts sent order lanes now → (place : ℕ) → (link_at now.links place).up ≡ true
        → (tag : Tag) (atom : Atom (List ℕ)) (outcome : Outcome) → command_at order tag ≡ Some (to_place place atom)
        → outcome_at order tag ≡ Some outcome → is_noted outcome ≡ true
        → (k : ℕ) (waiting : Waiting) → slice_get (link_at now.links place).waiting k ≡ Some waiting
        → tag.session ≡ waiting.1.session → IsBefore tag waiting.1 }
    ensures waiting { (texts sent : ℕ → List ℕ) (order : Order) (lanes : ℕ → Lane) (now : ProxyState)
        → ProxyHolds texts sent order lanes now → (place : ℕ) → (link_at now.links place).up ≡ true
        → (k l : ℕ) (first second : Waiting) → slice_get (link_at now.links place).waiting k ≡ Some first
        → slice_get (link_at now.links place).waiting l ≡ Some second → k < l → first.1.session ≡ second.1.session
        → IsBefore first.1 second.1 }
{}
