//! Laws of the step that `mc_cache` defines, and sequences of commands worked out by hand.
//!
//! No program uses this crate. Its functions do nothing: their contracts are the laws, and the examples that are computed
//! when the crate is proved. So if a definition of `mc_cache` says something else, this crate's proof refuses it.
//!
//! Read `specs/Laws.antt`, `specs/GoodCaches.antt`, `specs/MapLaws.antt` and `specs/Pools.antt` for the statements of the
//! laws, and `specs/OneMap.antt` for the map that caches are compared with. `specs/Examples.antt` and
//! `specs/MapExamples.antt` have the short forms of the commands in the examples.
#![tactic(auto)]

mod examples;
mod good_caches;
mod good_examples;
mod laws;
mod map_examples;
mod meta_examples;
mod one_map;

pub use examples::{
    cas_compares_the_number, evicts_by_last_use, faults_come_in_order, flags_and_expiry_stay,
    flushes_come, items_are_deleted_and_touched, items_expire, modes_of_storing,
    named_items_are_first, numbers_are_counted, set_then_get,
};
pub use good_caches::{good_caches_stay_good, replies_are_ones_that_commands_can_have};
pub use good_examples::{a_cache_of_no_items_shows_no_number, a_late_expiry_is_not_shown};
pub use laws::{
    commands_join, meta_updates_are_updates, other_keys_stay, stored_is_shown,
    stored_is_shown_by_meta,
};
pub use map_examples::{
    evicted_items_are_missed, one_client_fills_the_map, two_servers_answer_as_the_map,
};
pub use meta_examples::{
    nothing_becomes_stale_without_a_number, numbers_are_compared, numbers_are_made,
    one_client_is_sent, the_expiry_is_set_last,
};
pub use one_map::{
    caches_step_as_maps, pools_act_as_one_map, servers_replay_their_own_commands,
    wide_caches_evict_nothing,
};
