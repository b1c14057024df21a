//! Routes: from a request to its servers, and from the outcomes of its commands to its answer.
//!
//! [`route`] takes a request that a reader lends, and a ring. It appends the request's commands, each with its server ([`Routed`]), to a queue of
//! the caller, and returns what is kept for the answer. It computes each key's digest once. Two calls take an owned request: [`atoms`] returns
//! its commands, and copies keys and blocks. [`without_block`] copies what is kept for the answer. When each command has its [`Outcome`], its reply
//! or that it was lost, [`join`] appends the answer to the output, for which [`join_room`] is room enough.
//!
//! A key's command goes to the owner of the key, a flush to each server; `mn`, `version` and `quit` have no command. The answer is the one that a
//! single server would give or, if any command was lost, the line of a lost link alone. [`join_with`] takes the site's choice for lost commands,
//! [`Losses`]: with [`Losses::Missed`] a retrieval counts them as misses.
//!
//! `specs/Routes.antt` says which server gets which command (`route_of`), `specs/Joins.antt` what the client is answered (`joined_answer`), and
//! `specs/Losses.antt` what it is answered by the site's choice (`joined_with`). The laws say that nothing else depends on the number of servers
//! ([`one_server_answers_alike`], [`commands_are_those_of_one_server`], [`answers_are_those_of_one_server`]), and what each choice promises
//! ([`choices_differ_in_losses_alone`], [`shown_values_are_replies`], [`losses_look_like_misses`], [`lost_requests_are_not_confirmed`]).
//!
//! [`goes_to`] returns whether a server gets any command of a borrowed request.
//!
//! `route`, `atoms` and `without_block` take memory, and so do `join` and `join_with` if there is not room enough. A call that fails
//! has changed nothing. `join_room` and `goes_to` take none.
#![tactic(auto)]

mod errors;
mod examples;
mod joins;
mod kept;
mod laws;
mod lent;
mod looks;
mod losses;
mod outcomes;
mod routes;

pub use errors::RouteError;
pub use examples::{
    flush_over_three_servers, get_of_four_keys_with_a_dead_server, get_over_two_servers,
    items_of_two_servers, meta_get_that_is_lost, one_lost_of_three, quiet_request_that_is_lost,
    requests_without_commands, update_that_is_lost,
};
pub use joins::{hides_loss, join, join_room, join_with};
pub use kept::without_block;
pub use laws::{
    answers_are_those_of_one_server, blocks_play_no_part, choices_differ_in_losses_alone,
    commands_are_those_of_one_server, losses_look_like_misses, lost_requests_are_not_confirmed,
    one_server_answers_alike, routes_stay_inside, shown_values_are_replies,
};
pub use lent::route;
pub use looks::goes_to;
pub use losses::Losses;
pub use outcomes::Outcome;
pub use routes::{Routed, atoms};
