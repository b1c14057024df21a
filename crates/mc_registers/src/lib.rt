//! One key of a cache as a register that may forget: what an application may rely on.
//!
//! No program uses this crate. Its functions do nothing: their contracts are the laws, and the examples that are computed when the crate is
//! proved. Read `specs/Registers.antt` for the register, `specs/Guarantees.antt` for what an application may rely on, and
//! `specs/Examples.antt` for the short forms of the commands in the examples.
#![tactic(auto)]

mod examples;
mod guarantees;
mod laws;
mod needs;
mod wrong_examples;

pub use examples::{
    counters_are_counted, items_are_forgotten, limits_are_counted, marks_are_won,
    numbers_are_compared, refused_stores_change_nothing, shown_counts_are_counted,
    stored_values_are_shown,
};
pub use guarantees::{
    adds_exclude, cas_loses_nothing, cas_loses_nothing_across_lives, counters_count,
    counters_count_while_held, old_numbers_do_not_fit, reads_see_own_writes,
    recache_has_one_winner,
};
pub use laws::{cas_loses_nothing_across_restarts, histories_are_registers, keys_are_registers};
pub use needs::{
    another_number_is_compared, another_number_is_counted, another_value_is_read,
    counters_are_made_anew, forgotten_counters_begin_anew, forgotten_locks_are_taken,
    limits_begin_anew, marks_are_won_again, numbers_fit_another_life,
    old_numbers_fit_another_cache, other_values_are_read,
};
pub use wrong_examples::{
    dead_items_are_not_shown, deleted_items_are_not_shown, marks_are_not_won_twice,
    numbers_are_not_given_twice, old_values_are_not_shown,
};
