//! The account of a proxy: what was sent on its links, what arrived and what its clients were answered, as one relation.
//!
//! `specs/Orders.antt` has all requests that were taken, as one order, each with the outcomes of its commands. `specs/Lanes.antt`
//! says what passed over a link since it came up. `specs/Holds.antt` relates all of it to the state of a proxy (`ProxyHolds`). The
//! bytes sent on each link are the joined spellings of that order's commands to its server. The bytes that arrived are the joined
//! spellings of the replies taken, and the unread bytes. Each client's output is the answers to its first requests. The account
//! has no server and no socket. `specs/Lookups.antt` finds a command and its outcome by its tag, and `specs/Answered.antt` says
//! which bytes are answers.
//!
//! Each function is a law; all of them do nothing. Most say how a call of [`mc_proxy::Proxy`] keeps the account, by the call's
//! contract. [`clients_are_answered`] and [`nothing_awaited_is_complete`] say what follows from the account.
#![tactic(auto)]

mod laws;

pub use laws::{
    a_proxy_opens, admitted_sessions_hold, answered_requests_are_counted, answers_put_out_hold,
    answers_stay, answers_stay_at_links, awaited_commands_are_not_answered,
    bytes_sent_to_clients_hold, bytes_sent_to_servers_hold, clients_are_answered,
    commands_are_found, commands_rise, commands_stay_within, found_commands_are_there,
    idle_calls_hold, joined_servers_hold, known_commands_come_first, lost_links_hold,
    nothing_awaited_is_complete, pieces_hold, replies_hold, returned_links_hold, server_bytes_hold,
    sessions_gone_hold, taken_requests_hold, waiting_commands_are_awaited,
};
