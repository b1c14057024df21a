//! The rounds of the caller's thread over all clients and links.
ghost use Rattle.std.specs.Prelude.{◌≡◌, ℕ, ◌<◌, ◌++◌, vec_len, codes, IfErr, IsOkUnless, IsTrue, MatchResult, OnOk};
ghost use Rattle.rtrb.specs.Ring.{sent, received};
ghost use Rattle.mc_threads.specs.Causes.{EndsCaller};
ghost use Rattle.mc_threads.specs.Links.{SameEnds};
ghost use Rattle.mc_threads.specs.Starts.{Each2};
ghost use Rattle.mc_threads.specs.Talks.{HasAnswered, HasCarried, HasEnded, HasQuit, HasRound, IsAnswered, IsQuiet, IsSilent, StillTalks};

use crate::errors::Ended;
use crate::links::{Ends, answer_some, ask_some, exchange, move_out, take_replies};
use crate::worker::piece;
use mc_proxy::Proxy;
use std::alloc::Global;
use std::sync::Wait;
use std::sync::atomic::{AtomicBool, Ordering};
use std::thread;

/// Takes requests of each client that need not wait.
fn ask_all(proxy: &mut Proxy, clients: usize) -> Result<(), Ended>
    ensures { MatchResult result (λ _. StillTalks proxy.old proxy.new) (λ cause. cause ≡ Ended.Memory) }
{
    for client in 0..clients {
        ask_some(proxy, client as u64)?;
    }
    Ok(())
}

/// Moves bytes over each link, and takes the replies of each.
fn carry_all(proxy: &mut Proxy, ends: &mut Vec<Ends>, buffer: &mut Vec<u8>) -> Result<(), Ended>
    ensures len { vec_len ends.new ≡ vec_len ends.old }
    ensures rings { OnOk result (Each2 SameEnds (vec_len ends.old) ends.old.items ends.new.items) }
    ensures carried { OnOk result (HasCarried ends.old.items ends.new.items proxy.old proxy.new) }
    ensures cause { IfErr result (λ cause. EndsCaller cause) }
{
    for place in 0..ends.len() {
        exchange(proxy, &mut ends[place], place, buffer)?;
        take_replies(proxy, place)?;
    }
    Ok(())
}

/// Emits the known answers to each client, and moves them to its output.
fn answer_all(proxy: &mut Proxy, outputs: &mut Vec<Vec<u8>>) -> Result<(), Ended>
    ensures len { vec_len outputs.new ≡ vec_len outputs.old }
    ensures answered { OnOk result (HasAnswered outputs.old.items outputs.new.items proxy.old proxy.new) }
    ensures err { IsOkUnless result Ended.Memory }
{
    for client in 0..outputs.len() {
        answer_some(proxy, client as u64)?;
        move_out(proxy, &mut outputs[client], client as u64)?;
    }
    Ok(())
}

/// One round: takes requests of each client, moves bytes over each link, and answers each client.
fn round(
    proxy: &mut Proxy,
    ends: &mut Vec<Ends>,
    outputs: &mut Vec<Vec<u8>>,
    buffer: &mut Vec<u8>,
) -> Result<(), Ended>
    ensures lens { (vec_len ends.new ≡ vec_len ends.old) × (vec_len outputs.new ≡ vec_len outputs.old) }
    ensures rings { OnOk result (Each2 SameEnds (vec_len ends.old) ends.old.items ends.new.items) }
    ensures round { OnOk result (HasRound outputs.old.items outputs.new.items ends.old.items ends.new.items proxy.old proxy.new) }
    ensures cause { IfErr result (λ cause. EndsCaller cause) }
{
    ask_all(proxy, outputs.len())?;
    carry_all(proxy, ends, buffer)?;
    answer_all(proxy, outputs)
}

/// Whether all requests that arrived from a client are answered.
fn is_answered(proxy: &Proxy, client: u64) -> bool
    ensures { IsTrue result → IsAnswered proxy.now client }
{
    !proxy.ready(client) && proxy.unanswered(client) == 0 && proxy.output(client).is_empty()
}

/// Whether all requests that arrived from all clients are answered.
fn are_answered(proxy: &Proxy, clients: usize) -> bool
    ensures { IsTrue result → ((client : ℕ) → client < clients → IsAnswered proxy.now client) }
{
    for client in 0..clients {
        if !is_answered(proxy, client as u64) {
            return false;
        }
    }
    true
}

/// Whether no bytes are left to send to a server, and no reply is pending from it.
fn is_silent(proxy: &Proxy, place: usize) -> bool
    ensures { IsTrue result → IsSilent proxy.now place }
{
    proxy.waiting(place) == 0 && proxy.link_output(place).is_empty()
}

/// Whether no bytes are left to send to any server, and no reply is pending from any.
fn are_silent(proxy: &Proxy, servers: usize) -> bool
    ensures { IsTrue result → ((server : ℕ) → server < servers → IsSilent proxy.now server) }
{
    for place in 0..servers {
        if !is_silent(proxy, place) {
            return false;
        }
    }
    true
}

/// Whether all requests are answered, and no server has bytes or commands pending.
fn is_quiet(proxy: &Proxy, clients: usize, servers: usize) -> bool
    ensures { IsTrue result → IsQuiet clients servers proxy.now }
{
    are_answered(proxy, clients) && are_silent(proxy, servers)
}

/// Does rounds until all is answered, then sends `quit` to each server.
pub fn talk<R: Wait>(
    rt: &R,
    stop: &AtomicBool,
    alloc: Global,
    proxy: &mut Proxy,
    ends: &mut Vec<Ends>,
    outputs: &mut Vec<Vec<u8>>,
) -> Result<(), Ended>
    ensures lens { (vec_len ends.new ≡ vec_len ends.old) × (vec_len outputs.new ≡ vec_len outputs.old) }
    ensures rings { OnOk result (Each2 SameEnds (vec_len ends.old) ends.old.items ends.new.items) }
    ensures ended { OnOk result (HasEnded outputs.old.items outputs.new.items ends.old.items ends.new.items proxy.old proxy.new) }
    ensures cause { IfErr result (λ cause. EndsCaller cause) }
{
    let mut buffer = piece(alloc)?;
    'rounds: for _ in rt.forever() {
        if stop.load(Ordering::SeqCst) {
            return Err(Ended::Stopped);
        }
        round(proxy, ends, outputs, &mut buffer)?;
        if is_quiet(proxy, outputs.len(), ends.len()) {
            close_all(rt, stop, ends)?;
            return Ok(());
        }
        thread::yield_now();
    }
    unreachable!()
}

/// Sends `quit` to a server once its ring has room.
fn close_one<R: Wait>(rt: &R, stop: &AtomicBool, ends: &mut Ends) -> Result<(), Ended>
    ensures rings { OnOk result (SameEnds ends.old ends.new) }
    ensures quit { OnOk result (sent ends.new.to ≡ sent ends.old.to ++ codes "quit\r\n") }
    ensures came { OnOk result (received ends.new.from ≡ received ends.old.from) }
    ensures err { IsOkUnless result Ended.Stopped }
{
    'rounds: for _ in rt.forever() {
        if stop.load(Ordering::SeqCst) {
            return Err(Ended::Stopped);
        }
        if ends.to.push_entire_slice(b"quit\r\n".as_slice()).is_ok() {
            return Ok(());
        }
        thread::yield_now();
    }
    unreachable!()
}

/// Sends `quit` to each server.
fn close_all<R: Wait>(rt: &R, stop: &AtomicBool, ends: &mut Vec<Ends>) -> Result<(), Ended>
    ensures len { vec_len ends.new ≡ vec_len ends.old }
    ensures rings { OnOk result (Each2 SameEnds (vec_len ends.old) ends.old.items ends.new.items) }
    ensures quit { OnOk result (HasQuit (vec_len ends.old) ends.old.items ends.new.items) }
    ensures err { IsOkUnless result Ended.Stopped }
{
    for place in 0..ends.len() {
        close_one(rt, stop, &mut ends[place])?;
    }
    Ok(())
}
