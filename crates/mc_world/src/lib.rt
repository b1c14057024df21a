//! A pool and its account: proxies, their servers, the ways between them, their clients, and all that can happen to them.
//!
//! A [`World`] is a pool with a log. It executes events, one by one ([`World::step`], [`World::run`]). Servers can join ([`World::join_server`]), or
//! die and begin anew with nothing ([`World::restart_server`]). A pool has 1 to 64 proxies ([`World::with_proxies`]), each with clients of its own,
//! and a proxy can die ([`World::restart_proxy`]). An [`Event`] is what can happen to a pool in one step: a line of a script. Whatever it executed, a
//! world gives account ([`World::gives_account`]): that is its invariant, and in the contract of each of these calls.
//!
//! [`every_run_gives_account`] is the theorem of the pool. It holds for every list of events, whichever servers join or restart, if each event does what the
//! contracts of the proxy's and the servers' own calls say. Each client's bytes are its requests' answers in order, without gap. Each server's executed
//! commands are one history, which the abstract cache replays life by life. Each answered command is once in its owner's history, and each lost one at most
//! once.
//!
//! The statement is the record `Accounts` of `specs/Accounts.antt`, over places in the log (`specs/Logs.antt`) and histories (`mc_history`).
//! `specs/Courses.antt` defines what each event does, with one record for each in `specs/Pools.antt`.
//!
//! A link is lost and comes up again in generations. Bytes of a lost generation may still arrive, and its server may still take the requests in them, until
//! it sees the end. [`courses_go_on`] says that each event keeps the invariant of a pool with its log (`CourseHolds`).
//!
//! [`Pool`] has a call for each event, and one more if it is of a lost generation, over its proxies ([`Proxies`]) and its servers with their ways
//! ([`Site`]). The call does what the event's record says if and only if the event applies ([`Pool::applies`], `specs/Applies.antt`), and changes
//! nothing else. The premises of these calls ([`courses_serve`]) follow from that invariant. [`Pool::join`] adds a server, or returns it with the
//! cause; by [`Pool::learn`] a proxy learns one; [`Pool::restart`] replaces one by a fresh one. The public calls of [`Proxies`] and [`Site`] do a part
//! of an event each, and have premises of their own. No call waits.
#![tactic(auto)]

mod acts;
mod applying;
mod clients;
mod courses;
mod drains;
mod errors;
mod events;
mod joins;
mod late;
mod laws;
mod living;
mod logs;
mod lost_ways;
mod openings;
mod pools;
mod proxies;
mod proxy_restarts;
mod restarts;
mod sites;
mod stale_connections;
mod turning;
mod ways;
mod world_laws;
mod worlds;

pub use errors::{Step, WorldError};
pub use events::Event;
pub use laws::{
    clients_keep_pools, living_ways_keep_pools, logs_go_on, lost_ways_keep_pools,
    nothing_gives_account, pools_account_for_commands,
};
pub use logs::Logged;
pub use mc_history::Entry;
pub use mc_route::Losses;
pub use pools::Pool;
pub use proxies::Proxies;
pub use sites::Site;
pub use stale_connections::StaleConnection;
pub use ways::Way;
pub use world_laws::{
    courses_go_on, courses_serve, every_run_gives_account, every_world_gives_account,
    nothing_is_stuck, opening_pools_hold,
};
pub use worlds::{MAX_CLIENTS, MAX_PROXIES, World};
