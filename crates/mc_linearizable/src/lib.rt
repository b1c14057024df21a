//! A pool is linearizable, each key by itself, though links are lost and servers die: what an application may rely on.
//!
//! No program uses this crate. Its functions do nothing: their contracts are the laws. Read `specs/Linearizable.antt` for what linearizable
//! means here, and for where it is more, and less, than Herlihy and Wing's. `specs/Clients.antt` has what the clients of such a pool may rely
//! on. The register of a key is that of `mc_registers`, whose laws hold in each life of a server.
#![tactic(auto)]

mod clients;
mod examples;
mod laws;
mod losses;
mod needs;
mod worlds;

pub use clients::{
    a_hit_has_a_writer, a_hit_shows_the_last_store, an_add_excludes, clients_count,
    clients_lose_no_cas, clients_read_own_writes, commands_are_in_their_run, one_client_fills,
    one_client_wins,
};
pub use examples::{a_restart_and_a_join_are_linearizable, two_rings_show_older_values};
pub use laws::{
    every_run_is_linearizable, keys_that_stay_keep_to_real_time,
    pipelined_commands_keep_their_order, pools_are_linearizable, rings_that_grow_route_no_key_back,
    unjoined_pools_keep_to_real_time,
};
pub use losses::{
    lost_commands_happen_at_most_once, lost_commands_may_come_late, lost_commands_may_never_happen,
};
pub use needs::{
    early_gets_show_older_values, lost_commands_may_come_early, numbers_fit_another_server,
};
pub use worlds::worlds_are_linearizable;
