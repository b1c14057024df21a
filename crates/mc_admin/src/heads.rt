//! What a head of HTTP asks for.
ghost use Rattle.std.specs.Prelude.{◌≡◌, ℕ, ◌++◌, ◌∷◌, ◌==◌, List, [], length, map, codes, All, IfOk};
ghost use Rattle.httparse.specs.Spans.{IsHeaderWithin, header_bytes};
ghost use Rattle.http1.specs.Fields.{values_named};
ghost use Rattle.mc_admin.specs.AdminRequests.{ReadsPage, asked_by, page_for, page_of_target, page_at, IsFound};

use crate::admin_requests::{Page, Refusal};
use crate::hosts::{Hosts, before, host_of};
use http1::text::eq_ignore_case;
use httparse::Status;
use httparse::spans::{EMPTY_HEADER_SPAN, HeaderSpan, parse_request};

/// The most fields of a head.
pub const FIELD_LIMIT: usize = 64;

/// The values that a head has for a field.
#[derive(Clone, Copy, Debug)]
pub enum Found<'a> {
    /// There is none.
    Absent,
    /// There is one, of this value.
    One(&'a [u8]),
    /// There are several.
    Several,
}

/// Returns what a head asks for; a head ends with its empty line.
pub fn page_of(head: &[u8], hosts: &Hosts<'_>) -> Result<Page, Refusal>
    ensures { ReadsPage hosts.now head.now result }
{
    let mut fields = [EMPTY_HEADER_SPAN; FIELD_LIMIT];
    match parse_request(head, &mut fields) {
        Ok(Status::Complete(spans)) => {
            let (found, _) = fields.split_at(spans.headers);
            let host = host_among(head, found);
            let (method, target) = (spans.method.of(head), spans.path.of(head));
            asked_by(hosts, method, target, spans.version, host)
        }
        _ => Err(Refusal::BadRequest),
    }
}

/// Returns the field `Host` among fields.
fn host_among<'a>(head: &'a [u8], fields: &[HeaderSpan]) -> Found<'a>
    requires { All (IsHeaderWithin (length head.now)) fields.now }
    ensures { IsFound (values_named (codes "host") (map (header_bytes head.now) fields.now)) result }
{
    let mut found = Found::Absent;
    for field in fields {
        if eq_ignore_case(field.name.of(head), b"host") {
            found = with(found, field.value.of(head));
        }
    }
    found
}

/// Returns what is found with one more value.
fn with<'a>(found: Found<'a>, value: &'a [u8]) -> Found<'a>
    ensures { (values : List (List ℕ)) → IsFound values found.entry → IsFound (values ++ value.now ∷ []) result }
{
    match found {
        Found::Absent => Found::One(value),
        _ => Found::Several,
    }
}

/// Returns what a method, a target, the minor version and the field `Host` ask for.
fn asked_by(
    hosts: &Hosts<'_>,
    method: &[u8],
    target: &[u8],
    minor: u8,
    host: Found<'_>,
) -> Result<Page, Refusal>
    ensures { (values : List (List ℕ)) → IsFound values host.entry
        → result ≡ asked_by hosts.now method.now target.now minor values }
{
    if method == b"GET".as_slice() {
        page_for(hosts, target, minor, host)
    } else if method == b"HEAD".as_slice() {
        Err(Refusal::NoBody)
    } else {
        Err(Refusal::NotAllowed)
    }
}

/// Returns the page that `GET` asks for.
fn page_for(hosts: &Hosts<'_>, target: &[u8], minor: u8, host: Found<'_>) -> Result<Page, Refusal>
    ensures { (values : List (List ℕ)) → IsFound values host.entry
        → result ≡ page_for hosts.now target.now minor values }
{
    match host {
        Found::Absent if minor == 0 => page_of_target(target),
        Found::One(value) => {
            if hosts.is_known(host_of(value)) {
                page_of_target(target)
            } else {
                Err(Refusal::Misdirected)
            }
        }
        _ => Err(Refusal::BadRequest),
    }
}

/// Returns the page of a target.
fn page_of_target(target: &[u8]) -> Result<Page, Refusal>
    ensures { result ≡ page_of_target target.now }
{
    page_at(before(b'?', target))
}

/// Returns the page at a path.
fn page_at(path: &[u8]) -> Result<Page, Refusal>
    ensures { result ≡ page_at path.now }
{
    if path == b"/".as_slice() {
        Ok(Page::Overview)
    } else if path == b"/metrics".as_slice() {
        Ok(Page::Metrics)
    } else if path == b"/healthz".as_slice() {
        Ok(Page::Health)
    } else {
        Err(Refusal::NotFound)
    }
}
