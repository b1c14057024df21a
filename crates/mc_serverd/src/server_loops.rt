//! A server, its clients and its periodic tasks.
ghost use Rattle.std.specs.Prelude.{◌<◌, ◌^◌};

use crate::clocks::SystemSeconds;
use crate::figures::show;
use crate::handlers::ServerHandler;
use crate::items::advice_of;
use crate::options::PROGRAM;
use crate::settings::Settings;
use crate::store_stats::StoreStats;
use mc_net::{
    Awaits, Backlog, Clients, Handler, Listed, LoopHandler, Operators, Report, Room, poll_timeout,
};
use mc_program::{EprintSeldom, OWN_FILES, ServeError, Ticker, earlier};
use mc_server::{MAX_CONNECTIONS, Server};
use mc_store::Store;
use mio::Registry;
use mio::event::Event;
use mio::net::TcpStream;
use std::alloc::{AllocError, Global};
use std::fs::Files;
use std::rc::Rc;
use std::rt::Clock;
use std::time::Duration;

/// A server, its clients and its periodic tasks: once in a second or less often it sweeps idle clients, and reports what it has done.
#[derive(Drop)]
pub struct ServerLoop<'a, S: Store + Drop> {
    alloc: Global,
    /// The address on which it listens, as it reports it.
    listen: &'a str,
    handler: ServerHandler<S>,
    clients: Clients<()>,
    operators: Operators,
    /// What the server's store has done.
    counts: Rc<StoreStats>,
    settings: Settings,
    /// Whether it has reported that its items are at their limit while much of its budget is free.
    advised: bool,
    /// The number of refused calls that it has reported.
    reported: u64,
    /// Whether it ends, since it was refused memory for as long as the settings allow.
    ended: bool,
    start: u64,
    /// The moment of the round.
    moment: u64,
    /// The moment of the last sweep of idle clients.
    rested: u64,
    ticker: Ticker,
    /// How many clients its open files allow beside operators; any number if there are no operators.
    room: Option<Room>,
    ghost within: { moment < 2 ^ 63 },
}

/// The files that are kept free beside those of operators: with it a further operator is accepted, and the memory of the process is read.
const SPARE_FILES: u64 = 1;

/// Returns how many files a server has open at most beside its clients, if operators have `operators`: its own, these, and one to spare.
pub fn other_files(operators: u64) -> u64 {
    if operators == 0 {
        return OWN_FILES;
    }
    OWN_FILES
        .saturating_add(SPARE_FILES)
        .saturating_add(operators)
}

/// Returns how many clients are served, if operators have this many files; any number if there are no operators, or the system allows too
/// few files for a client beside them.
fn room_beside(operators: u64) -> Option<Room> {
    let room = Room::new(other_files(operators));
    (operators > 0 && !room.is_full(0)).then_some(room)
}

impl<'a, S: Store + Drop> ServerLoop<'a, S> {
    /// Makes the loop of a server whose store counts its operations, without a client, from a moment on. It says that it listens at `listen`.
    pub fn new(
        alloc: Global,
        listen: &'a str,
        server: Server<S>,
        counts: Rc<StoreStats>,
        settings: &Settings,
        operators: Operators,
        moment: u64,
    ) -> Result<Self, AllocError>
        requires { moment < 2 ^ 63 }
    {
        let service = settings.service;
        let room = room_beside(operators.files());
        let clients = Clients::new(alloc, MAX_CONNECTIONS, service.terms.idle, service.buffers)?;
        let other = counts.clone()?;
        Ok(ServerLoop {
            handler: ServerHandler::new(
                alloc,
                server,
                other,
                service.answer_limit(),
                service.reserve,
            )?,
            alloc,
            listen,
            clients,
            operators,
            counts,
            settings: *settings,
            advised: false,
            reported: 0,
            ended: false,
            start: moment,
            moment,
            rested: moment,
            ticker: Ticker::new(service.terms.report, moment),
            room,
        })
    }

    /// Returns what it has done for its clients, with the number of accepted connections.
    fn done(&self, accepted: u64) -> Report {
        let uptime = self.moment.saturating_sub(self.start);
        self.clients.report(uptime, accepted, self.handler.tally())
    }

    /// Returns the clients of an operator's list, if one has asked for it.
    fn listed(&mut self) -> Result<Option<Listed>, AllocError> {
        let Some(from) = self.operators.listing() else {
            return Ok(None);
        };
        let listed = self.clients.listed(
            &self.handler,
            self.alloc,
            from,
            self.moment,
            Awaits::Answers,
        )?;
        Ok(Some(listed))
    }

    /// Serves operators, with the number of accepted connections.
    fn show<R: Files>(&mut self, rt: &R, accepted: u64) {
        if !self.operators.is_stirred() {
            return;
        }
        let Ok(listed) = self.listed() else {
            self.operators.turn_away();
            return;
        };
        let done = self.done(accepted);
        let (counts, settings) = (&*self.counts, &self.settings);
        show(
            rt,
            self.alloc,
            &mut self.operators,
            &listed,
            &done,
            counts,
            settings,
            self.moment,
        );
    }

    /// Returns whether it serves as many clients as its open files allow.
    fn is_full(&self) -> bool {
        self.room
            .is_some_and(|room| room.is_full(self.clients.len()))
    }

    /// Reports on standard error, at most once in a minute, that it serves as many clients as its open files allow, if it does.
    fn tell_full<R: Eprint>(&mut self, rt: &R) {
        if self.is_full()
            && let Some(room) = &mut self.room
        {
            room.tell(rt, PROGRAM, self.moment);
        }
    }

    /// Reports on standard error what it and its store have done, with the number of accepted connections.
    fn report<R: Eprint>(&self, rt: &R, accepted: u64) {
        let clients = self.done(accepted);
        let counts = &*self.counts;
        // Best effort: a failed write to standard error must not stop serving.
        let _ = eprintln!(rt; "{PROGRAM}: {clients} {counts}");
    }

    /// Returns whether calls were refused memory that no line reports yet.
    fn has_refused(&self) -> bool {
        self.counts.refused() != self.reported
    }

    /// Reports on standard error how many calls were refused memory since its last report, and notes whether that ends the server.
    fn report_refused<R: Eprint>(&mut self, rt: &R) {
        let count = self.counts.refused();
        let refused = count.wrapping_sub(self.reported);
        if refused == 0 {
            return;
        }
        self.reported = count;
        self.ended = self.counts.is_over(self.settings.service.memory_exit);
        // Best effort: a failed write to standard error must not stop serving.
        let _ = eprintln!(rt; "{PROGRAM}: out of memory: {refused} refused");
    }

    /// Reports on standard error, once, that its items are at their limit while more than half of its budget is free, and what to change.
    fn advise<R: Eprint>(&mut self, rt: &R) {
        let (held, used) = self.counts.held();
        let Settings { budget, items, .. } = self.settings;
        if self.advised {
            return;
        }
        if let Some(advice) = advice_of(held, used, items, budget) {
            self.advised = true;
            // Best effort: a failed write to standard error must not stop serving.
            let _ = eprintln!(rt;
                "{PROGRAM}: full at {items} items, while more than half of --budget is free: {advice}"
            );
        }
    }
}

impl<'a, R, S: Store + Drop> LoopHandler<R, SystemSeconds<'a, R>> for ServerLoop<'_, S>
where
    R: Print + EprintSeldom + Files + Clock,
{
    fn ready(&mut self, rt: &R) {
        // Best effort: a failed write to standard output must not stop serving.
        let _ = println!(rt; "listening {}", self.listen);
    }

    fn before(&mut self, rt: &R, registry: &Registry, backlog: Backlog) -> Option<Duration> {
        self.operators.before(registry, self.moment);
        self.clients.tell_refused(rt, PROGRAM, backlog, self.moment);
        if backlog != Backlog::Nobody {
            self.tell_full(rt);
        }
        let goes_on = self.clients.goes_on()
            || self.operators.goes_on()
            || (backlog == Backlog::More && !self.is_full());
        let soon = self.clients.is_busy() || backlog.is_refused() || self.has_refused();
        let due = earlier(self.clients.due(), self.ticker.due());
        let due = earlier(due, self.operators.due());
        let left = due.map(|due| due.saturating_sub(self.moment).saturating_mul(1000));
        poll_timeout(goes_on, soon, left)
    }

    fn begin(&mut self, _rt: &R, clock: &mut SystemSeconds<'a, R>) {
        self.moment = clock.now();
        self.counts.come_to(self.moment);
    }

    fn wake(&mut self, event: &Event) {
        if self.operators.has(event.token()) {
            self.operators.note(event);
        } else {
            self.clients.wake(event, self.moment);
        }
    }

    fn carry_on(&mut self, _registry: &Registry) {
        self.clients.serve_ready(&mut self.handler, self.moment);
    }

    fn is_open(&self) -> bool {
        !self.is_full()
    }

    fn admit(&mut self, _rt: &R, registry: &Registry, stream: TcpStream, _accepted: u64) {
        self.clients
            .admit(&mut self.handler, stream, registry, self.moment);
    }

    fn finish(&mut self, rt: &R, accepted: u64) {
        self.show(rt, accepted);
        self.handler.tell(rt, self.moment);
        self.clients.tell(rt, PROGRAM, self.moment);
        if self.moment == self.rested {
            return;
        }
        self.rested = self.moment;
        self.clients.sweep(&mut self.handler, self.moment);
        self.handler.keep_reserve();
        self.advise(rt);
        self.report_refused(rt);
        if self.ticker.comes(self.moment) {
            self.report(rt, accepted);
        }
    }

    fn is_empty(&self) -> bool {
        self.clients.is_empty()
    }

    fn failed(&self) -> Option<ServeError> {
        let seconds = self.settings.service.memory_exit;
        self.ended.then_some(ServeError::MemoryFor(seconds))
    }
}
