//! What a request hides of its answer.
ghost use Rattle.std.specs.Prelude.{◌≡◌};
ghost use Rattle.mc_request.specs.Hides.{hides_of, hidden_by};

use crate::meta::MetaCommand;
use crate::parts::{Request, Update};

/// What a request hides of its answer. It is known before the request is split into commands, and before there is a reply.
#[derive(Clone, Copy, Debug, PartialEq, Eq)]
pub enum Hides {
    /// Nothing: each reply is shown.
    Nothing,
    /// The line of a reply, as `noreply` asks. An error line is shown.
    ReplyLine,
    /// A miss, as `q` asks of `mg`.
    Misses,
    /// Success, as `q` asks of `ms`.
    Success,
    /// Success and a miss, as `q` asks of `md` and `ma`.
    SuccessAndMisses,
}

impl Request {
    /// Returns what the request hides of its answer.
    pub fn hides(&self) -> Hides
        ensures { result ≡ hides_of self.now }
    {
        match self {
            Request::Update { noreply: true, .. } => Hides::ReplyLine,
            Request::Meta { command, form } => quiet_hides(command, form.quiet),
            _ => Hides::Nothing,
        }
    }
}

/// Returns what a meta command hides of its answer if `quiet` is true. An error line is shown.
pub fn quiet_hides<K: Drop, B: Drop>(command: &MetaCommand<K, B>, quiet: bool) -> Hides
    ensures { result ≡ hidden_by command.now quiet }
{
    if !quiet {
        return Hides::Nothing;
    }
    match command {
        MetaCommand::Get { .. } => Hides::Misses,
        MetaCommand::Update { update, .. } => match update {
            Update::Store { .. } => Hides::Success,
            Update::Delete { .. } | Update::Count { .. } => Hides::SuccessAndMisses,
            Update::Touch { .. } | Update::FlushAll { .. } => Hides::Nothing,
        },
    }
}
