//! Why the program ends with a status other than 0.
ghost use Rattle.std.specs.Prelude.{◌≡◌, MatchResult};
ghost use Rattle.mc_program.specs.Statuses.{failure_by};
ghost use Rattle.mc_script.specs.declared.errors.SimError.TheVariants.{Memory};
ghost use Rattle.mc_sim.specs.Endings.{status_of};
ghost use Rattle.mc_sim.specs.declared.endings.Ending.TheVariants.{Script, Words};

use mc_program::Failure;
use mc_script::SimError;
use std::alloc::AllocError;

/// Why the program ends with a status other than 0.
#[derive(Debug, Drop)]
pub enum Ending {
    /// The words are refused, or ask for help; or memory to read them is missing.
    Words(Failure),
    /// The script was not played to its end.
    Script(SimError),
}

impl Ending {
    /// The exit status.
    pub fn status(&self) -> u8
        ensures { result ≡ status_of self.now }
    {
        match self {
            Ending::Words(failure) => failure.status(),
            Ending::Script(error) => error.status(),
        }
    }

    /// Prints it on standard error; a text of help goes to standard output.
    pub fn tell<R: Print + Eprint>(&self, rt: &R) {
        match self {
            Ending::Words(failure) => failure.tell(rt, "mc_sim"),
            Ending::Script(error) => {
                // If standard error is closed too, only the status reports it.
                let _ = eprintln!(rt; "mc_sim: {error}");
            }
        }
    }
}

/// The exit status of a run: 0 if it ended well, and otherwise that of its ending.
pub fn exit_status(ended: &Result<(), Ending>) -> u8
    ensures { MatchResult ended.now (λ _. result ≡ 0) (λ ending. result ≡ status_of ending) }
{
    match ended {
        Ok(()) => 0,
        Err(ending) => ending.status(),
    }
}

impl From<Failure> for Ending {
    ghost from_gives = { λ failure ending. ending ≡ Words failure };

    fn from(failure: Failure) -> Ending {
        Ending::Words(failure)
    }
}

impl From<clap::Error> for Ending {
    ghost from_gives = { λ error ending. ending ≡ Words (failure_by error) };

    fn from(error: clap::Error) -> Ending {
        Ending::Words(Failure::from(error))
    }
}

impl From<AllocError> for Ending {
    ghost from_gives = { λ _ ending. ending ≡ Script Memory };

    fn from(_e: AllocError) -> Ending {
        Ending::Script(SimError::Memory)
    }
}

impl From<SimError> for Ending {
    ghost from_gives = { λ error ending. ending ≡ Script error };

    fn from(error: SimError) -> Ending {
        Ending::Script(error)
    }
}
