//! A request that was taken and is not answered.
ghost use Rattle.std.specs.Prelude.{◌≡◌, ◌++◌, ◌-◌, ◌^◌, length, min, OnOk, OnErr};
ghost use Rattle.mc_proxy.specs.Emits.{awaited_in, count_awaited};

use crate::held::{COMMAND_ROOM, REQUEST_ROOM, kept_by, kept_by_all, kept_once_set, keys_len_of};
use crate::session_errors::SessionError;
use mc_reply::write_fault;
use mc_request::Parsed;
use mc_route::{Losses, Outcome, hides_loss, join_with};
use std::marker::Model;

/// A request or fault that was taken, and the outcomes of its commands so far.
#[derive(Drop)]
pub struct Unanswered {
    what: Parsed,
    /// The choice for its lost commands.
    losses: Losses,
    outcomes: Vec<Outcome>,
    /// How many of the replies are pending.
    awaited: usize,
    /// How many bytes the keys of a retrieval command have, as far as 64 bits count.
    keys: u64,
    /// How many bytes the outcomes keep of values, as far as 64 bits count.
    kept: u64,
}

impl Model for Unanswered {
    ghost use Rattle.mc_proxy.specs.SessionState.{Unanswered};
    ghost use Rattle.mc_proxy.specs.UnansweredFields.{IsCounted};

    ghost Value = { Unanswered };

    ghost view = { λ u. record { what = u.what; losses = u.losses; outcomes = u.outcomes.items } };

    ghost invariant = { IsCounted };
}

impl Unanswered {
    ghost use Rattle.mc_proxy.specs.Emits.{answer_of_one, hides_loss_of, is_known};
    ghost use Rattle.mc_proxy.specs.Held.{held_by_one};
    ghost use Rattle.mc_proxy.specs.SessionNoting.{set_outcome};

    /// Makes the entry of a request or fault that was just taken: the choice for its lost commands, and the immediate
    /// outcomes of its commands.
    pub fn new(what: Parsed, losses: Losses, outcomes: Vec<Outcome>) -> Unanswered
        ensures { result ≡ record { what = what; losses = losses; outcomes = outcomes.items } }
    {
        let awaited = awaited_in(outcomes.as_slice());
        let keys = keys_len_of(&what);
        let kept = kept_by_all(outcomes.as_slice());
        Unanswered {
            what,
            losses,
            outcomes,
            awaited,
            keys,
            kept,
        }
    }

    /// Returns how many commands it has.
    pub fn commands(&self) -> usize
        ensures { result ≡ length self.now.outcomes }
    {
        self.outcomes.len()
    }

    /// Returns how many bytes are kept for it until it is answered, as far as 64 bits count. It takes no memory.
    pub fn held(&self) -> u64
        ensures { result ≡ min (held_by_one self.now) (2 ^ 64 - 1) }
    {
        let commands = self.outcomes.len() as u64;
        REQUEST_ROOM
            .saturating_add(commands.saturating_mul(COMMAND_ROOM))
            .saturating_add(self.keys)
            .saturating_add(self.kept)
    }

    /// Returns whether the outcome of each command is known.
    #[tactic(auto, using(crate::proofs::AwaitedLemmas::none_awaited))]
    pub fn is_known(&self) -> bool
        ensures { result ≡ is_known self.now }
    {
        self.awaited == 0
    }

    /// Returns whether a command of it was lost, and its answer does not say so. It takes no memory.
    pub fn hides_loss(&self) -> bool
        ensures { result ≡ hides_loss_of self.now }
    {
        match &self.what {
            Parsed::Whole(request) => hides_loss(self.losses, request, self.outcomes.as_slice()),
            Parsed::Faulty(_) => false,
        }
    }

    /// Records the outcome of a command, by its number. If there is no command of this number, the outcome is dropped.
    pub fn note(&mut self, at: usize, outcome: Outcome)
        ensures { self.new ≡ record self.old { outcomes = set_outcome at outcome self.old.outcomes } }
    {
        if at >= self.outcomes.len() {
            return;
        }
        let before = count_awaited(&self.outcomes[at]);
        self.awaited = self.awaited - before + count_awaited(&outcome);
        let kept_before = kept_by(&self.outcomes[at]);
        let kept = kept_by(&outcome) as u64;
        self.outcomes[at] = outcome;
        let outcomes = self.outcomes.as_slice();
        let kept_by_all = kept_once_set(outcomes, self.kept, kept_before, kept);
        self.kept = kept_by_all;
    }

    /// Appends the answer, or nothing if there is no memory.
    pub fn answer(&self, out: &mut Vec<u8>) -> Result<(), SessionError>
        ensures ok { OnOk result (out.new.items ≡ out.old.items ++ answer_of_one self.now) }
        ensures err { OnErr result (out.new.items ≡ out.old.items) }
    {
        match &self.what {
            Parsed::Whole(request) => {
                join_with(self.losses, request, self.outcomes.as_slice(), out)?;
            },
            Parsed::Faulty(fault) => write_fault(*fault, out)?,
        }
        Ok(())
    }
}

/// Returns how many replies are pending.
fn awaited_in(outcomes: &[Outcome]) -> usize
    ensures { result ≡ awaited_in outcomes.now }
{
    let mut awaited = 0;
    for outcome in outcomes {
        awaited += count_awaited(outcome);
    }
    awaited
}

/// Returns 1 if the reply is pending, else 0.
fn count_awaited(outcome: &Outcome) -> usize
    ensures { result ≡ count_awaited outcome.now }
{
    match outcome {
        Outcome::Awaited => 1,
        Outcome::Reply(_) | Outcome::Lost => 0,
    }
}
