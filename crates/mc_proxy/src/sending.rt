//! How the commands of a request get to their links.
ghost use Rattle.std.specs.Prelude.{◌≡◌, ◌+◌, ◌-◌, ◌<◌, ◌≤◌, ◌^◌, ◌&&◌, ◌||◌, ℕ, [], true, length, map, IfOk, IfSome, OnOk};
ghost use Rattle.std.specs.List.{list_any};
ghost use Rattle.std.specs.VecDeque.{deque_len, deque_capacity};
ghost use Rattle.mc_request.specs.LinesSeen.{asked_of};
ghost use Rattle.mc_request.specs.WellFormed.{is_well_formed};
ghost use Rattle.mc_route.specs.Looks.{goes_to};
ghost use Rattle.mc_route.specs.Routes.{route_of_taken};
ghost use Rattle.mc_codec.specs.Spellings.{spelling_of_atom};
ghost use Rattle.mc_proxy.specs.SessionState.{link_at, states, with_link};
ghost use Rattle.mc_proxy.specs.Sending.{at_once, handed, handed_to, is_link_marked, outcome_by, roomy_at, spelled, AreRoomy, IsRoomy};

use crate::session_errors::SessionError;
use crate::session_limits::LINK_MARK;
use crate::unanswered::Unanswered;
use mc_codec::spelled_len as spelled_len_of;
use mc_link::{Link, Tag};
use mc_request::RequestRef;
use mc_ring::Ring;
use mc_route::{Outcome, Routed, goes_to};
use std::alloc::Global;
use std::collections::VecDeque;
use std::mem;

/// Moves the start of an empty queue to the front of its memory. It takes no memory, and frees none.
///
/// A queue that is filled at its end and consumed from its start moves on through its memory. Commands that pass the memory's
/// end are then in two parts, and each of them would be moved to borrow them as one slice.
pub fn start_at_front(alloc: Global, queue: &mut VecDeque<Routed>)
    requires { queue.old.items ≡ [] }
    ensures { queue.new.items ≡ [] }
{
    let moved_on = mem::replace(queue, VecDeque::new(alloc));
    *queue = VecDeque::from_vec(moved_on.into_vec());
}

/// Returns whether a link that a request needs has reached its mark of unsent bytes. It takes no memory, and looks at no key
/// if no link has.
pub fn is_any_marked(links: &[Link], asked: &RequestRef<'_>, ring: &Ring) -> bool
    requires { is_well_formed (asked_of asked.now) ≡ true }
    ensures { result ≡ list_any (λ command. is_link_marked (link_at (states links.now) command.server)) (route_of_taken ring.now (asked_of asked.now)) }
{
    for place in 0..links.len() {
        if is_marked_for(links, asked, ring, place) {
            return true;
        }
    }
    false
}

/// Returns whether a request must wait: its session has reached a mark of its own, or a link that it needs has. It takes no
/// memory.
pub fn is_held_up(marked: bool, links: &[Link], asked: &RequestRef<'_>, ring: &Ring) -> bool
    requires { is_well_formed (asked_of asked.now) ≡ true }
    ensures { result ≡ (marked
        || list_any (λ command. is_link_marked (link_at (states links.now) command.server)) (route_of_taken ring.now (asked_of asked.now))) }
{
    marked || is_any_marked(links, asked, ring)
}

/// Returns whether the link at a place has reached its mark of unsent bytes, and the request needs it.
fn is_marked_for(links: &[Link], asked: &RequestRef<'_>, ring: &Ring, place: usize) -> bool
    requires { is_well_formed (asked_of asked.now) ≡ true }
    ensures { result
        ≡ (is_link_marked (link_at (states links.now) place) && goes_to place (route_of_taken ring.now (asked_of asked.now))) }
{
    is_marked(links, place) && goes_to(asked, ring, place)
}

/// Returns whether the link at a place is up, and has reached its mark of unsent bytes.
fn is_marked(links: &[Link], place: usize) -> bool
    ensures { result ≡ is_link_marked (link_at (states links.now) place) }
{
    match links.get(place) {
        Some(link) => link.is_up() && link.output().len() >= LINK_MARK,
        None => false,
    }
}

/// Takes all the memory that a request needs: for the immediate outcomes of its commands, for its place among the unanswered
/// requests, and for its commands on their links. It returns the outcomes.
pub fn prepare(
    alloc: Global,
    unanswered: &mut VecDeque<Unanswered>,
    links: &mut [Link],
    commands: &[Routed],
) -> Result<Vec<Outcome>, SessionError>
    ensures outcomes { IfOk result (λ outcomes. outcomes.items ≡ map (at_once (states links.old)) commands.now) }
    ensures place { OnOk result (deque_len unanswered.new < deque_capacity unanswered.new) }
    ensures roomy { OnOk result (AreRoomy links.new commands.now) }
    ensures unchanged { states links.new ≡ states links.old }
    ensures unanswered_kept { unanswered.new.items ≡ unanswered.old.items }
{
    let outcomes = at_once(alloc, links, commands)?;
    unanswered.reserve(1)?;
    make_room(links, commands)?;
    Ok(outcomes)
}

/// Returns the immediate outcome of each command.
fn at_once(alloc: Global, links: &[Link], commands: &[Routed]) -> Result<Vec<Outcome>, SessionError>
    ensures { IfOk result (λ outcomes. outcomes.items ≡ map (at_once (states links.now)) commands.now) }
{
    let mut outcomes = Vec::with_capacity(alloc, commands.len())?;
    for command in commands {
        outcomes.push(outcome_at_once(links, command.server))?;
    }
    Ok(outcomes)
}

/// Returns the immediate outcome of a command: it is lost if its link is down.
pub fn outcome_at_once(links: &[Link], place: usize) -> Outcome
    ensures { result ≡ outcome_by (link_at (states links.now) place) }
{
    if is_up_at(links, place) {
        Outcome::Awaited
    } else {
        Outcome::Lost
    }
}

/// Returns whether the link at a place is up. A missing link is not.
pub fn is_up_at(links: &[Link], place: usize) -> bool
    ensures up { result ≡ (link_at (states links.now) place).up }
    ensures inside { result ≡ true → place < length links.now }
{
    links.get(place).is_some_and(Link::is_up)
}

/// Reserves room on those links of the commands that are up, so that the commands can be sent without memory.
fn make_room(links: &mut [Link], commands: &[Routed]) -> Result<(), SessionError>
    ensures roomy { OnOk result (AreRoomy links.new commands.now) }
    ensures unchanged { states links.new ≡ states links.old }
{
    let Some(bytes) = spelled_len(commands) else {
        return Err(SessionError::Memory);
    };
    for command in commands {
        make_room_on(links, command.server, bytes, commands.len())?;
    }
    Ok(())
}

/// Returns how many bytes the commands' spellings have in all, if a number has room for it.
fn spelled_len(commands: &[Routed]) -> Option<usize>
    ensures { IfSome result (λ bytes. bytes ≡ spelled commands.now) }
{
    let mut bytes: usize = 0;
    for command in commands {
        bytes = bytes.checked_add(spelled_len_of(&command.atom))?;
    }
    Some(bytes)
}

/// Reserves room on the link at a place, if that is up.
pub fn make_room_on(
    links: &mut [Link],
    place: usize,
    bytes: usize,
    heads: usize,
) -> Result<(), SessionError>
    ensures roomy { OnOk result (IsRoomy bytes heads (roomy_at links.new place)) }
    ensures unchanged { states links.new ≡ states links.old }
    ensures kept { (at b h : ℕ) → IsRoomy b h (roomy_at links.old at) → IsRoomy b h (roomy_at links.new at) }
{
    if is_up_at(links, place) {
        links[place].make_room(bytes, heads)?;
    }
    Ok(())
}

/// Sends each command of a queue to the link at its place, in order: a link that is down drops it. Then the queue is empty. It
/// takes no memory.
pub fn send_all(links: &mut [Link], queue: &mut VecDeque<Routed>, session: u64, request: u64)
    requires { AreRoomy links.old queue.old.items }
    ensures handed { states links.new ≡ handed session request 0 queue.old.items (states links.old) }
    ensures emptied { queue.new.items ≡ [] }
{
    let mut at: usize = 0;
    while let Some(command) = queue.pop_front() {
        let tag = Tag {
            session,
            request,
            atom: at,
        };
        hand_over(links, command, tag);
        at += 1;
    }
}

/// Sends a command to the link at its place, if that is up.
fn hand_over(links: &mut [Link], command: Routed, tag: Tag)
    requires { IsRoomy (length (spelling_of_atom command.atom)) 1 (roomy_at links.old command.server) }
    ensures handed { states links.new ≡ with_link command.server (handed_to tag command.atom (link_at (states links.old) command.server)) (states links.old) }
    ensures room { (at bytes heads : ℕ) → IsRoomy (length (spelling_of_atom command.atom) + bytes) (1 + heads) (roomy_at links.old at)
        → IsRoomy bytes heads (roomy_at links.new at) }
{
    if is_up_at(links, command.server) {
        links[command.server].send(command.atom, tag).unwrap();
    }
}
