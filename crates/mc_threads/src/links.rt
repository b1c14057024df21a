//! The caller's thread: the proxy between the clients' pieces and the rings.
ghost use Rattle.std.specs.Prelude.{◌≡◌, IsOkUnless, MatchResult, OnOk};
ghost use Rattle.mc_threads.specs.Causes.{EndsCaller};
ghost use Rattle.mc_threads.specs.Links.{Carries, IsMoved, SameEnds};
ghost use Rattle.mc_threads.specs.Talks.{HasReplied, StillTalks};

use crate::errors::Ended;
use mc_proxy::{Emit, LinkStep, Proxy, SessionTurn};
use rtrb::{Consumer, Producer};

/// The most requests of a client, answers to it, or replies of a server that are taken in one round.
pub const AT_ONCE: usize = 256;

/// The caller's ends of the two rings of one server.
#[derive(Drop)]
pub struct Ends {
    pub to: Producer<u8>,
    pub from: Consumer<u8>,
}

/// Moves bytes over one link, both ways: those to its server that fit, and those that arrived from it.
pub fn exchange(
    proxy: &mut Proxy,
    ends: &mut Ends,
    place: usize,
    buffer: &mut Vec<u8>,
) -> Result<(), Ended>
    ensures rings { SameEnds ends.old ends.new }
    ensures carries { OnOk result (Carries place ends.old ends.new proxy.old proxy.new) }
    ensures err { IsOkUnless result Ended.Memory }
{
    let (pushed, _) = ends.to.push_partial_slice(proxy.link_output(place));
    let count = pushed.len();
    proxy.link_taken_out(place, count);
    let came = ends.from.pop_partial_slice(buffer.as_mut_slice());
    proxy.link_feed(place, &buffer[..came])?;
    Ok(())
}

/// Takes a reply of the server of a place, if a whole one has arrived, and returns whether it did.
fn take_reply(proxy: &mut Proxy, place: usize) -> Result<bool, Ended>
    ensures { MatchResult result (λ _. HasReplied place proxy.old proxy.new) (λ cause. EndsCaller cause) }
{
    match proxy.link_turn(place)? {
        LinkStep::Took => Ok(true),
        LinkStep::Idle => Ok(false),
        LinkStep::Strange => Err(Ended::Strange),
    }
}

/// Takes the replies of the server of a place that have arrived whole, at most [`AT_ONCE`].
pub fn take_replies(proxy: &mut Proxy, place: usize) -> Result<(), Ended>
    ensures { MatchResult result (λ _. HasReplied place proxy.old proxy.new) (λ cause. EndsCaller cause) }
{
    for _ in 0..AT_ONCE {
        if !take_reply(proxy, place)? {
            return Ok(());
        }
    }
    Ok(())
}

/// Takes the requests of a client that need not wait, at most [`AT_ONCE`].
pub fn ask_some(proxy: &mut Proxy, client: u64) -> Result<(), Ended>
    ensures { MatchResult result (λ _. StillTalks proxy.old proxy.new) (λ cause. cause ≡ Ended.Memory) }
{
    for _ in 0..AT_ONCE {
        let turn = proxy.turn(client)?;
        if turn != SessionTurn::Took {
            return Ok(());
        }
    }
    Ok(())
}

/// Emits the known answers to a client, at most [`AT_ONCE`].
pub fn answer_some(proxy: &mut Proxy, client: u64) -> Result<(), Ended>
    ensures { MatchResult result (λ _. StillTalks proxy.old proxy.new) (λ cause. cause ≡ Ended.Memory) }
{
    for _ in 0..AT_ONCE {
        let emit = proxy.emit(client)?;
        if emit != Emit::Done {
            return Ok(());
        }
    }
    Ok(())
}

/// Moves all bytes that were emitted to a client to its output.
pub fn move_out(proxy: &mut Proxy, output: &mut Vec<u8>, client: u64) -> Result<(), Ended>
    ensures { MatchResult result (λ _. IsMoved client proxy.old proxy.new output.old.items output.new.items) (λ cause. cause ≡ Ended.Memory) }
{
    let more = proxy.output(client);
    let count = more.len();
    output.extend_from_slice(more)?;
    proxy.taken_out(client, count);
    Ok(())
}
