//! The answers to operators.
ghost use Rattle.std.specs.Prelude.{◌≡◌, ◌++◌, [], IfOk, OnOk, codes};
ghost use Rattle.http1.specs.Head.{pairs, header_parts};
ghost use Rattle.mc_admin.specs.Answers.{answer_to, is_listed_on, response, fields_of, overview_fields, metrics_type, plain_type, status_of, reason_of, words_of};
ghost use Rattle.mc_admin.specs.AdminRequests.{ends};

use crate::admin_requests::{AdminRequest, Page, Refusal};
use crate::conns::push_part;
use crate::errors::AdminError;
use crate::figures::Sheet;
use crate::overview::{overview, policy};
use crate::pages::{push_metrics, push_settings, push_stats};
use http1::Header;
use http1::head::write_response;
use itoa::Buffer;
use std::alloc::Global;

/// The media type of metrics, as Prometheus's text format 0.0.4 has it.
const METRICS_TYPE: &[u8] = b"text/plain; version=0.0.4; charset=utf-8";

/// The media type of all other texts.
const PLAIN_TYPE: &[u8] = b"text/plain; charset=utf-8";

/// The media type of the page for people.
const HTML_TYPE: &[u8] = b"text/html; charset=utf-8";

/// Returns the answer to what is asked, given the program's report.
#[tactic(auto, unfolding(crate::specs::Answers::answer_to))]
pub fn answer_to(
    alloc: Global,
    asked: AdminRequest,
    sheet: &Sheet<'_>,
) -> Result<Vec<u8>, AdminError>
    ensures { IfOk result (λ answer. answer.items ≡ answer_to asked sheet.now) }
{
    let mut answer = Vec::new(alloc);
    match asked {
        AdminRequest::Stats => push_stats(sheet.figures, &mut answer)?,
        AdminRequest::Settings => push_settings(sheet.settings, &mut answer)?,
        AdminRequest::Conns => push_part(sheet.part, &mut answer)?,
        AdminRequest::Nothing => answer.extend_from_slice(b"END\r\n")?,
        AdminRequest::Version => answer.extend_from_slice(b"VERSION 1.6.0\r\n")?,
        AdminRequest::Quit => {}
        AdminRequest::Unknown => answer.extend_from_slice(b"ERROR\r\n")?,
        AdminRequest::TooLong => answer.extend_from_slice(b"CLIENT_ERROR line too long\r\n")?,
        AdminRequest::Shown(page) => push_page(alloc, page, sheet, &mut answer)?,
        AdminRequest::Refused(refusal) => push_refusal(refusal, &mut answer)?,
    }
    Ok(answer)
}

/// Appends a page to an answer.
#[tactic(auto, unfolding(crate::specs::Answers::answer_to))]
fn push_page(
    alloc: Global,
    page: Page,
    sheet: &Sheet<'_>,
    answer: &mut Vec<u8>,
) -> Result<(), AdminError>
    ensures { OnOk result (answer.new.items ≡ answer.old.items ++ answer_to (AdminRequest.Shown page) sheet.now) }
{
    match page {
        Page::Overview => push_response(
            200,
            b"OK",
            HTML_TYPE,
            &overview_fields(),
            overview(),
            answer,
        ),
        Page::Health => push_response(200, b"OK", PLAIN_TYPE, &[], b"ok\n", answer),
        Page::Metrics => {
            let mut metrics = Vec::new(alloc);
            push_metrics(sheet.figures, &mut metrics)?;
            push_response(200, b"OK", METRICS_TYPE, &[], metrics.as_slice(), answer)
        }
    }
}

/// Appends a response with further fields to an answer.
#[tactic(auto, unfolding(crate::specs::Answers::response))]
fn push_response(
    status: u16,
    reason: &[u8],
    media_type: &[u8],
    further: &[Header<'_>],
    body: &[u8],
    answer: &mut Vec<u8>,
) -> Result<(), AdminError>
    ensures { OnOk result (answer.new.items
        ≡ answer.old.items ++ response status reason.now media_type.now (pairs further.now) body.now) }
{
    let mut digits = Buffer::new();
    let len = digits.format(body.len() as u64).as_bytes();
    let fields = fields_of(media_type, len);
    write_response(answer, 1, status, reason, &fields, further)?;
    answer.extend_from_slice(body)?;
    Ok(())
}

/// Returns the fields of a response with a body of this type and this length, in digits.
fn fields_of<'a>(media_type: &'a [u8], len: &'a [u8]) -> [Header<'a>; 4]
    ensures { pairs result ≡ fields_of media_type.entry.now len.entry.now }
{
    [
        field(b"content-type", media_type),
        field(b"content-length", len),
        field(b"connection", b"close"),
        field(b"allow", b"GET"),
    ]
}

/// Returns the fields that the page for people has beside those of any response.
fn overview_fields() -> [Header<'static>; 2]
    ensures { pairs result ≡ overview_fields }
{
    [
        field(b"content-security-policy", policy()),
        field(b"x-content-type-options", b"nosniff"),
    ]
}

/// Makes a field of a response.
fn field<'a>(name: &'a [u8], value: &'a [u8]) -> Header<'a>
    ensures { header_parts result ≡ (name.entry.now, value.entry.now) }
{
    Header { name, value }
}

/// Appends the response of a refusal to an answer.
fn push_refusal(refusal: Refusal, answer: &mut Vec<u8>) -> Result<(), AdminError>
    ensures { OnOk result (answer.new.items
        ≡ answer.old.items ++ response (status_of refusal) (reason_of refusal) plain_type [] (words_of refusal)) }
{
    push_response(
        status_of(refusal),
        reason_of(refusal),
        PLAIN_TYPE,
        &[],
        words_of(refusal),
        answer,
    )
}

/// Returns the status of a refusal.
fn status_of(refusal: Refusal) -> u16
    ensures { result ≡ status_of refusal }
{
    match refusal {
        Refusal::BadRequest => 400,
        Refusal::NotFound => 404,
        Refusal::NotAllowed | Refusal::NoBody => 405,
        Refusal::Misdirected => 421,
        Refusal::TooLarge => 431,
    }
}

/// Returns the reason of a refusal.
fn reason_of(refusal: Refusal) -> &'static [u8]
    ensures { result.now ≡ reason_of refusal }
{
    match refusal {
        Refusal::BadRequest => b"Bad Request",
        Refusal::NotFound => b"Not Found",
        Refusal::NotAllowed | Refusal::NoBody => b"Method Not Allowed",
        Refusal::Misdirected => b"Misdirected Request",
        Refusal::TooLarge => b"Request Header Fields Too Large",
    }
}

/// Returns the words of a refusal.
fn words_of(refusal: Refusal) -> &'static [u8]
    ensures { result.now ≡ words_of refusal }
{
    match refusal {
        Refusal::BadRequest => b"400: not a request of HTTP/1.0 or 1.1 with one Host\n",
        Refusal::NotFound => b"404: there are /, /metrics and /healthz\n",
        Refusal::NotAllowed => b"405: only GET is answered\n",
        Refusal::NoBody => b"",
        Refusal::Misdirected => b"421: the Host is none of this listener's: see --admin-name\n",
        Refusal::TooLarge => b"431: a request has at most 4096 bytes\n",
    }
}

/// Returns whether the connection is closed after what is asked was answered.
pub fn ends(asked: AdminRequest) -> bool
    ensures { result ≡ ends asked }
{
    match asked {
        AdminRequest::Stats | AdminRequest::Settings | AdminRequest::Conns => false,
        AdminRequest::Nothing | AdminRequest::Version | AdminRequest::Unknown => false,
        _ => true,
    }
}

/// Returns whether the next turn answers the same request further: a list of clients is sent in parts.
pub fn is_listed_on(asked: AdminRequest, sheet: &Sheet<'_>) -> bool
    ensures { result ≡ is_listed_on asked sheet.now }
{
    match (asked, sheet.part) {
        (AdminRequest::Conns, Some(part)) => part.next.is_some(),
        (AdminRequest::Conns, None) => true,
        _ => false,
    }
}
