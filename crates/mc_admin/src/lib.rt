//! The answers of a program to its operators, without sockets: what a line or a request of HTTP asks for, and the text of
//! the answer. A [`Talk`] is one operator's connection, and a [`Sheet`] what the program reports of itself.
#![tactic(auto)]

mod admin_requests;
mod answers;
mod conns;
mod errors;
mod figures;
mod heads;
mod hosts;
mod inboxes;
mod laws;
mod lines;
mod lists;
mod names;
mod overview;
mod pages;
mod talks;

pub use admin_requests::{AdminRequest, Page, Refusal};
pub use answers::{answer_to, ends, is_listed_on};
pub use conns::{Conn, Part};
pub use errors::AdminError;
pub use figures::{Figure, Setting, Sheet, Value};
pub use hosts::{Hosts, host_of};
pub use inboxes::{Inbox, Phase, REQUEST_LIMIT};
pub use laws::{cuts_say_nothing, requests_end};
pub use lines::asked_of;
pub use lists::{
    ClientFigures, LinkFigures, StoreFigures, push_client_figures, push_link_figures, push_missed,
    push_store_figures,
};
pub use names::Name;
pub use talks::Talk;
