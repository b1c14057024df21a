//! The pump of a link: commands out, replies in.
ghost use Rattle.std.specs.Prelude.{◌≡◌, ◌<◌, true, false, length, vec_len, vec_capacity};
ghost use Rattle.mc_proxy.specs.SessionState.{link_at};
ghost use Rattle.mc_proxy_pump.specs.LinkCalls.{with_woken};
ghost use Rattle.mc_proxy_pump.specs.Links.{PumpsLink};
ghost use Rattle.mc_proxy_pump.specs.LinkRounds.{ReceivesLink, SendsLink, TakesReplies, TakesReply};
ghost use Rattle.mc_stream.specs.Sides.{pump_of};

use mc_proxy::{LinkStep, Proxy};
use mc_stream::{IoStats, MAX_ROUNDS, Pumped, read_once, write_once};
use std::io::{Read, Write};

/// Carries a link's bytes between a proxy and the two sides of a nonblocking stream, and matches each reply to its command.
///
/// It does at most [`MAX_ROUNDS`] rounds. A round writes the unsent output in one call, reads once into `piece`, whose bytes before
/// and after mean nothing, and takes all whole replies. The sessions whose commands got replies are appended to `woken`; a session
/// that would follow itself is appended once. A link has no mark here: it is always read. The tally counts the bytes.
///
/// It returns [`Pumped::Done`] if the input has ended: then all whole replies are taken. It returns [`Pumped::Failed`] if the link
/// is down or missing, if the stream failed, if a call got no memory, and at a protocol violation, which has lost the link. In that
/// case each of its pending commands is lost, and any session may have an answer more. After `Done` and `Failed` the caller loses
/// the link if it is still up.
pub fn pump_link<R: Read, W: Write>(
    proxy: &mut Proxy,
    server: usize,
    reader: &mut R,
    writer: &mut W,
    piece: &mut [u8],
    woken: &mut Vec<u64>,
    tally: &mut IoStats,
) -> Pumped
    requires piece { 0 < length piece.old }
    ensures pumps { (link_at proxy.old.links server).up ≡ true → PumpsLink server result proxy.old proxy.new
        (R.remaining reader.old) (R.remaining reader.new) (W.contents writer.old) (W.contents writer.new) woken.old.items woken.new.items }
    ensures not_up { (link_at proxy.old.links server).up ≡ false
        → (result ≡ Pumped.Failed) × (proxy.new ≡ proxy.old) × (woken.new.items ≡ woken.old.items) }
{
    if !proxy.is_up(server) {
        return Pumped::Failed;
    }
    for _ in 0..MAX_ROUNDS {
        if let Err(pump) = round(proxy, server, reader, writer, piece, woken, tally) {
            return pump;
        }
    }
    Pumped::Again
}

/// Does one round: a write, a read, replies. The error is how the pump stops.
fn round<R: Read, W: Write>(
    proxy: &mut Proxy,
    server: usize,
    reader: &mut R,
    writer: &mut W,
    piece: &mut [u8],
    woken: &mut Vec<u64>,
    tally: &mut IoStats,
) -> Result<(), Pumped>
    requires is_up { (link_at proxy.old.links server).up ≡ true }
    requires piece { 0 < length piece.old }
    ensures { PumpsLink server (pump_of result) proxy.old proxy.new (R.remaining reader.old)
        (R.remaining reader.new) (W.contents writer.old) (W.contents writer.new) woken.old.items woken.new.items }
{
    let sent = send(proxy, server, writer, tally)?;
    let mut ended = false;
    let came = receive(proxy, server, &mut ended, reader, piece, tally)?;
    take_replies(proxy, server, woken)?;
    if ended {
        return Err(Pumped::Done);
    }
    if came || (sent && !proxy.link_output(server).is_empty()) {
        return Ok(());
    }
    Err(Pumped::Blocked)
}

/// Writes the unsent output in one call, drops what the writer took, and returns whether it took any.
fn send<W: Write>(
    proxy: &mut Proxy,
    server: usize,
    writer: &mut W,
    tally: &mut IoStats,
) -> Result<bool, Pumped>
    requires { (link_at proxy.old.links server).up ≡ true }
    ensures { SendsLink server result proxy.old proxy.new (W.contents writer.old) (W.contents writer.new) }
{
    let count = write_once(writer, proxy.link_output(server))?;
    if count == 0 {
        return Ok(false);
    }
    proxy.link_taken_out(server, count);
    tally.went(count);
    Ok(true)
}

/// Reads once, feeds the link with the bytes, and returns whether any arrived, or the end.
fn receive<R: Read>(
    proxy: &mut Proxy,
    server: usize,
    ended: &mut bool,
    reader: &mut R,
    piece: &mut [u8],
    tally: &mut IoStats,
) -> Result<bool, Pumped>
    requires is_up { (link_at proxy.old.links server).up ≡ true }
    requires goes_on { ended.old ≡ false }
    requires piece { 0 < length piece.old }
    ensures { ReceivesLink server result proxy.old proxy.new (R.remaining reader.old) (R.remaining reader.new) ended.new }
{
    let count = read_once(reader, piece, ended)?;
    if count == 0 {
        return Ok(*ended);
    }
    let (came, _) = piece.split_at(count);
    tally.came(count);
    match proxy.link_feed(server, came) {
        Ok(()) => Ok(true),
        Err(_) => Err(Pumped::Failed),
    }
}

/// Takes all replies that have arrived whole.
fn take_replies(proxy: &mut Proxy, server: usize, woken: &mut Vec<u64>) -> Result<(), Pumped>
    requires { (link_at proxy.old.links server).up ≡ true }
    ensures { TakesReplies server result proxy.old proxy.new woken.old.items woken.new.items }
{
    while take_reply(proxy, server, woken)? {}
    Ok(())
}

/// Takes one reply, if one has arrived whole, wakes the session of its command, and returns whether it took one.
///
/// The room for the session's number is reserved before the reply is taken, so that no session waits for a reply that has arrived.
fn take_reply(proxy: &mut Proxy, server: usize, woken: &mut Vec<u64>) -> Result<bool, Pumped>
    requires { (link_at proxy.old.links server).up ≡ true }
    ensures { TakesReply server result proxy.old proxy.new woken.old.items woken.new.items }
{
    let tag = proxy.tag(server, 0);
    if woken.reserve(1).is_err() {
        return Err(Pumped::Failed);
    }
    match proxy.link_turn(server) {
        Ok(LinkStep::Took) => {
            let Some(tag) = tag else {
                return Err(Pumped::Failed);
            };
            wake(woken, tag.session);
            Ok(true)
        }
        Ok(LinkStep::Idle) => Ok(false),
        Ok(LinkStep::Strange) => Err(Pumped::Failed),
        Err(_) => Err(Pumped::Failed),
    }
}

/// Appends a session to those that were woken, unless it is the last of them already.
fn wake(woken: &mut Vec<u64>, session: u64)
    requires { vec_len woken.old < vec_capacity woken.old }
    ensures { woken.new.items ≡ with_woken session woken.old.items }
{
    if woken.last().is_none_or(|last| *last != session) {
        woken.push_reserved(session);
    }
}
