//! The threads that look hosts up: one that begins the others, and one for each host while its look-up is pending.

use crate::lookups::Lookups;
use crate::notices::Cause;
use crate::questions::Question;
use mc_program::ServeError;
use mc_ring::SERVER_LIMIT;
use rtrb::{Consumer, RingBuffer};
use std::alloc::Global;
use std::net;
use std::net::Net;
use std::sync::{Arc, Wait};
use std::thread::{Builder, JoinHandle, Parker, Threads};

/// The thread that begins a thread for each look-up.
#[derive(Drop)]
pub struct Resolver {
    bell: Arc<Parker, Global>,
    thread: JoinHandle<()>,
}

impl Resolver {
    /// Ends the thread, whose [`Lookups`] are dropped, and waits for that. A pending look-up goes on, and nobody waits for it: it ends with
    /// the process at the latest.
    pub fn end<R: Threads>(self, rt: &R) {
        let Resolver { bell, thread } = self;
        bell.unpark();
        thread.join(rt);
    }
}

/// Begins the thread. The error is `Memory`, even if the system gives no thread.
pub fn begin_lookups<R>(rt: &R, alloc: Global) -> Result<(Lookups, Resolver), ServeError>
where
    R: Net<Listener = net::TcpListener, Stream = net::TcpStream>,
    R: Threads + Wait + Copy + Send + 'static,
{
    let name = "look-ups".to_string(alloc)?;
    let Ok(bell) = Arc::new(alloc, Parker::new()) else {
        return Err(ServeError::Memory);
    };
    let rung = Arc::try_clone(&bell)?;
    let own = Arc::try_clone(&bell)?;
    let (questions, asked) = RingBuffer::new(alloc, SERVER_LIMIT)?;
    let lookups = Lookups::new(alloc, questions, own);
    let system = *rt;
    let begun = Builder::new()
        .name(name)
        .spawn(rt, move || take_questions(&system, alloc, asked, &rung));
    match begun {
        Ok(thread) => Ok((lookups, Resolver { bell, thread })),
        Err(_) => Err(ServeError::Memory),
    }
}

/// Begins a look-up for each question, until the sender is dropped.
fn take_questions<R>(
    rt: &R,
    alloc: Global,
    mut asked: Consumer<Arc<Question, Global>>,
    bell: &Parker,
)
where
    R: Net<Listener = net::TcpListener, Stream = net::TcpStream>,
    R: Threads + Wait + Copy + Send + 'static,
{
    for _ in rt.forever() {
        match asked.pop() {
            Ok(question) => {
                if let Err(cause) = look_up_beside(rt, alloc, &question) {
                    question.answer(Err(cause));
                }
            }
            Err(_) if asked.is_abandoned() => return,
            Err(_) => bell.park(rt),
        }
    }
}

/// Begins a thread that answers a question and ends. The error is that there is no memory, or that the system gives no thread.
fn look_up_beside<R>(rt: &R, alloc: Global, question: &Arc<Question, Global>) -> Result<(), Cause>
where
    R: Net<Listener = net::TcpListener, Stream = net::TcpStream>,
    R: Threads + Copy + Send + 'static,
{
    let question = Arc::try_clone(question)?;
    let name = "look-up".to_string(alloc)?;
    let system = *rt;
    let begun = Builder::new()
        .name(name)
        .spawn(rt, move || question.look_up(&system));
    match begun {
        Ok(thread) => {
            // Nobody joins it: it ends with its answer, and one that hangs must block nobody.
            drop(thread);
            Ok(())
        }
        Err(_) => Err(Cause::NoThread),
    }
}
