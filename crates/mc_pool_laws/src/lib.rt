//! What an account of a pool promises to an observer who sees only texts, emitted bytes, histories and the log.
//!
//! No program uses this crate. Its functions do nothing: their contracts are the laws. Each is proved from `Account` of `mc_world` alone, whatever
//! order it has, except those of a drain and of one map. Each clause of the record `Accounts` has a law here that needs it: `docs/LAWS.md` has the
//! table. To read on: `specs/Sent.antt` defines what a client's text shows of a command, `specs/Followed.antt` what the proxy sent to a server, and
//! `specs/Outcomes.antt` what the histories and the log show of a command. `specs/Choices.antt` defines what an answer shows by the choice for lost
//! commands, `specs/Wanted.antt` which commands memory may be refused to, and `specs/Drained.antt` what a drain adds to a log.
//!
//! # One map
//!
//! A pool is one map: the commands of all servers, in the order of their turns, are answered as by one map. `specs/Executions.antt` defines the
//! order in which all servers executed their commands, and `specs/OneMaps.antt` what a plain run is, and what one map says of it.
#![tactic(auto)]

mod answers;
mod choices;
mod drains;
mod histories;
mod losses;
mod needs;
mod one_map;
mod one_map_examples;
mod one_map_needs;
mod one_map_texts;
mod one_map_worlds;
mod refusals;
mod requests;

pub use answers::{
    answers_are_those_of_the_histories, answers_follow_requests, nothing_is_put_out_unasked,
};
pub use choices::{a_miss_says_nothing_of_its_server, done_is_executed, shown_values_are_replies};
pub use drains::{drains_add_what_is_left, quiet_worlds_have_answered};
pub use histories::{
    commands_are_executed_once, commands_are_executed_when_taken, histories_are_replayed,
    histories_have_their_turns, lives_are_registers, only_stores_are_refused,
    restarted_servers_keep_nothing,
};
pub use losses::{
    answered_commands_are_executed_or_lost, answers_come_after_their_turns,
    clients_keep_their_order, commands_whose_links_held_are_executed_once,
    without_losses_each_command_is_executed_once, without_losses_histories_follow_the_proxy,
};
pub use needs::{
    answers_need_their_clauses, clauses_are_those_of_the_account, histories_need_their_clauses,
    requests_need_their_clauses, the_order_needs_its_clause,
};
pub use one_map::accounts_are_of_one_map;
pub use one_map_examples::{a_set_and_a_get_are_plain, commands_are_merged_by_turns};
pub use one_map_needs::restarted_servers_are_not_one_map;
pub use one_map_texts::commands_are_looked_up_in_texts;
pub use one_map_worlds::worlds_act_as_one_map;
pub use refusals::{
    no_answer_without_a_request, no_command_in_two_histories, no_entry_without_a_turn,
    no_reply_of_another_cache,
};
pub use requests::{requests_are_taken_as_sent, rings_are_one, sent_commands_are_one};
