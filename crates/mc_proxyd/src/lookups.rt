//! Look-ups of servers' hosts, beside the loop that serves clients.
ghost use Rattle.std.specs.Prelude.{◌≡◌};
ghost use Rattle.mc_proxyd.specs.Lookups.{after_a_try, known_by, late_answer, next_by};
ghost use Rattle.mc_proxyd.specs.declared.lookups.Standing.TheVariants.{Unwanted};

use crate::limits::LOOKED_UP;
use crate::notices::Cause;
use crate::questions::{Found, Question};
use mio::{Registry, Waker};
use rtrb::Producer;
use std::alloc::Global;
use std::net::SocketAddr;
use std::sync::Arc;
use std::thread::Parker;

/// What is known of a look-up that was begun.
#[derive(Clone, Copy, Debug, PartialEq, Eq)]
pub enum Known {
    /// It has not ended.
    Nothing,
    /// It has found this.
    Answer(Found),
    /// It has ended, and was begun for an address that is no longer the server's.
    Other,
}

/// The next step of a try that needs the address of a host.
#[derive(Clone, Copy, Debug, PartialEq, Eq)]
pub enum NextLookup {
    /// It has the host looked up.
    Ask,
    /// It waits for the pending look-up.
    Wait,
    /// It connects to this address.
    Connect(SocketAddr),
    /// It has failed for this cause.
    Fail(Cause),
}

/// Returns the next step of a try that needs the address of a host, given what is known of that host's look-up, if one was begun.
pub fn next_by(lookup: Option<Known>) -> NextLookup
    ensures { result ≡ next_by lookup }
{
    match lookup {
        None | Some(Known::Other) => NextLookup::Ask,
        Some(Known::Nothing) => NextLookup::Wait,
        Some(Known::Answer(Ok(address))) => NextLookup::Connect(address),
        Some(Known::Answer(Err(cause))) => NextLookup::Fail(cause),
    }
}

/// The state of a look-up.
#[derive(Clone, Copy, Debug, PartialEq, Eq)]
pub enum Standing {
    /// The try that began it waits for it.
    Wanted,
    /// That try was given up, and a later one waits for it.
    Late,
    /// It was begun for an address that is no longer the server's.
    Unwanted,
}

impl Standing {
    /// Returns its state once the try that waits for it is given up.
    pub fn after_a_try(self) -> Standing
        ensures { result ≡ after_a_try self }
    {
        match self {
            Standing::Wanted | Standing::Late => Standing::Late,
            Standing::Unwanted => Standing::Unwanted,
        }
    }
}

/// Returns what is known of a look-up, given its answer, if it has ended, and its state.
pub fn known_by(found: Option<Found>, standing: Standing) -> Known
    ensures { result ≡ known_by found standing }
{
    let Some(found) = found else {
        return Known::Nothing;
    };
    match standing {
        Standing::Wanted => Known::Answer(found),
        Standing::Late => Known::Answer(late_answer(found)),
        Standing::Unwanted => Known::Other,
    }
}

/// Returns the result of a look-up that took longer than a try. If it found no address it timed out: the system also calls a host unknown
/// if no name server answers.
fn late_answer(found: Found) -> Found
    ensures { result ≡ late_answer found }
{
    match found {
        Err(Cause::UnknownHost) => Err(Cause::LookUp),
        Ok(_) | Err(_) => found,
    }
}

/// A look-up that was begun. If it is dropped, it goes on, and its result is lost.
#[derive(Drop)]
pub struct Lookup {
    question: Arc<Question, Global>,
    standing: Standing,
}

impl Lookup {
    /// Returns its result, once it has ended. The thread that looks the host up writes it once; no clause sees what that wrote.
    pub fn found(&self) -> Option<Found> {
        self.question.found()
    }

    /// Returns what is known of it, given its result.
    pub fn known(&self, found: Option<Found>) -> Known
        ensures { result ≡ known_by found self.now.standing }
    {
        known_by(found, self.standing)
    }

    /// Records that the try that waits for it is given up.
    pub fn outlast(&mut self)
        ensures { self.new ≡ record self.old { standing = after_a_try self.old.standing } }
    {
        self.standing = self.standing.after_a_try();
    }

    /// Records that the server has another address than that for which it was begun.
    pub fn give_up(&mut self)
        ensures { self.new ≡ record self.old { standing = Unwanted } }
    {
        self.standing = Standing::Unwanted;
    }
}

/// The sender of look-ups to the thread that a [`Resolver`](crate::resolving::Resolver) joins. No call of it blocks.
#[derive(Drop)]
pub struct Lookups {
    alloc: Global,
    /// The queue from which the thread takes questions.
    questions: Producer<Arc<Question, Global>>,
    /// The parker that wakes the thread.
    bell: Arc<Parker, Global>,
    /// The waker of the poll: made for the first look-up.
    waker: Option<Arc<Waker, Global>>,
}

impl Lookups {
    /// Makes the state in which no look-up was begun.
    pub fn new(
        alloc: Global,
        questions: Producer<Arc<Question, Global>>,
        bell: Arc<Parker, Global>,
    ) -> Lookups {
        Lookups {
            alloc,
            questions,
            bell,
            waker: None,
        }
    }

    /// Begins to look up the host of `<host>:<port>`. A poll of this registry reports [`LOOKED_UP`] once that has ended. The error is
    /// lack of memory, or why the system gives no descriptor for the report.
    pub fn begin(&mut self, registry: &Registry, address: &str) -> Result<Lookup, Cause> {
        let waker = self.waker(registry)?;
        let address = address.to_string(self.alloc)?;
        let question = Arc::new(self.alloc, Question::new(address, waker))?;
        let asked = Arc::try_clone(&question)?;
        // There is a place for the question of each server, and each has at most one.
        if self.questions.push(asked).is_err() {
            return Err(Cause::Memory);
        }
        self.bell.unpark();
        Ok(Lookup {
            question,
            standing: Standing::Wanted,
        })
    }

    /// Returns the waker of a registry's poll.
    fn waker(&mut self, registry: &Registry) -> Result<Arc<Waker, Global>, Cause> {
        if let Some(waker) = &self.waker {
            return Ok(Arc::try_clone(waker)?);
        }
        let waker = Arc::new(self.alloc, Waker::new(registry, LOOKED_UP)?)?;
        let other = Arc::try_clone(&waker)?;
        self.waker = Some(waker);
        Ok(other)
    }
}
