//! What a request asks for, once it has ended.
ghost use Rattle.std.specs.Prelude.{◌≡◌};
ghost use Rattle.mc_admin.specs.AdminRequests.{Asks, ReadsPage, shown, named, content_of, without_blanks};

use crate::admin_requests::{AdminRequest, Page, Refusal};
use crate::heads::page_of;
use crate::hosts::Hosts;
use crate::inboxes::{Inbox, Phase, without_carriage_return};
use httparse::is_space_or_tab;

/// Returns what a request asks for, given the program's own hosts; none until it has ended.
pub fn asked_of(inbox: &Inbox, hosts: &Hosts<'_>) -> Option<AdminRequest>
    ensures { Asks hosts.now inbox.now result }
{
    match inbox.phase() {
        Phase::LineEnded => Some(named(content_of(inbox.text()))),
        Phase::HeadEnded => Some(shown(page_of(inbox.text(), hosts))),
        Phase::LineTooLong => Some(AdminRequest::TooLong),
        Phase::HeadTooLarge => Some(AdminRequest::Refused(Refusal::TooLarge)),
        _ => None,
    }
}

/// Returns a page, or its refusal.
fn shown(page: Result<Page, Refusal>) -> AdminRequest
    ensures { result ≡ shown page }
{
    match page {
        Ok(page) => AdminRequest::Shown(page),
        Err(refusal) => AdminRequest::Refused(refusal),
    }
}

/// Returns a whole line without its line feed, without one carriage return in front of that, and without the blanks in
/// front of it.
fn content_of(line: &[u8]) -> &[u8]
    ensures { result.now ≡ content_of line.now }
{
    let (content, _) = line.split_at(line.len().saturating_sub(1));
    without_blanks(without_carriage_return(content))
}

/// Returns a text without the spaces and tabs at its end.
fn without_blanks(text: &[u8]) -> &[u8]
    ensures { result.now ≡ without_blanks text.now }
{
    let mut rest = text;
    while let [front @ .., last] = rest
        && is_space_or_tab(*last)
    {
        rest = front;
    }
    rest
}

/// Returns what a line asks for.
fn named(word: &[u8]) -> AdminRequest
    ensures { result ≡ named word.now }
{
    if word == b"stats".as_slice() {
        AdminRequest::Stats
    } else if word == b"stats settings".as_slice() {
        AdminRequest::Settings
    } else if word == b"stats conns".as_slice() {
        AdminRequest::Conns
    } else if word == b"stats items".as_slice() || word == b"stats slabs".as_slice() {
        AdminRequest::Nothing
    } else if word == b"version".as_slice() {
        AdminRequest::Version
    } else if word == b"quit".as_slice() {
        AdminRequest::Quit
    } else {
        AdminRequest::Unknown
    }
}
