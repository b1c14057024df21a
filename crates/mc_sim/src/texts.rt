//! The text that is printed for a script of either kind.
ghost use Rattle.std.specs.Prelude.{IfErr, IfOk};
ghost use Rattle.mc_pool_script.specs.Kinds.{is_of_pool};
ghost use Rattle.mc_sim.specs.Printed.{ExplainsFor, IsTextFor};

use crate::kinds::StoreKind;
use mc_pool_script::{account_of_pool_script, is_of_pool, text_of_pool_script};
use mc_script::{ScriptStore, SimError, text_of_script};
use mc_store::{FixedHasher, ListStore, LruStore, TableStore};
use std::alloc::Global;

/// What to print.
#[derive(Clone, Copy, Debug, PartialEq, Eq)]
pub enum Printed {
    /// A line for each client.
    Outputs,
    /// The account too, for a script of a pool.
    Account,
}

/// The text that is printed for a script of a server or of a pool, which is played over stores of a kind. It does not depend on the
/// kind.
pub fn text_of_input(
    alloc: Global,
    kind: StoreKind,
    printed: Printed,
    input: &[u8],
) -> Result<Vec<u8>, SimError>
    ensures text { IfOk result (λ text. IsTextFor (is_of_pool input.now) printed input.now text.items) }
    ensures error { IfErr result (λ error. ExplainsFor (is_of_pool input.now) error input.now) }
{
    match kind {
        StoreKind::List => text_over::<ListStore>(alloc, printed, input),
        StoreKind::Lru => text_over::<LruStore<FixedHasher>>(alloc, printed, input),
        StoreKind::Table => text_over::<TableStore<FixedHasher>>(alloc, printed, input),
    }
}

/// The text of [`text_of_input`], over such stores.
fn text_over<S: ScriptStore>(
    alloc: Global,
    printed: Printed,
    input: &[u8],
) -> Result<Vec<u8>, SimError>
    ensures text { IfOk result (λ text. IsTextFor (is_of_pool input.now) printed input.now text.items) }
    ensures error { IfErr result (λ error. ExplainsFor (is_of_pool input.now) error input.now) }
{
    if !is_of_pool(input) {
        return text_of_script::<S>(alloc, input);
    }
    match printed {
        Printed::Outputs => text_of_pool_script::<S>(alloc, input),
        Printed::Account => account_of_pool_script::<S>(alloc, input),
    }
}
