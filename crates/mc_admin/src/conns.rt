//! The connected clients, in parts.
ghost use Rattle.std.specs.Prelude.{◌≡◌, ◌++◌, codes, decimal, OnOk};
ghost use Rattle.std.specs.List.{flat_map};
ghost use Rattle.mc_admin.specs.Conns.{conn_line, address_line, conn_lines, part_text};

use itoa::Buffer;
use std::alloc::AllocError;

/// A client that is connected.
#[derive(Debug, Drop)]
pub struct Conn {
    /// The number of its place.
    pub place: u64,
    /// Its address.
    pub peer: String,
    /// The address at which it connected.
    pub own: String,
    /// What it waits for, in memcached's words.
    pub state: &'static [u8],
    /// Seconds since its socket was ready, or since it had pending answers.
    pub quiet: u64,
    /// Seconds since it connected.
    pub age: u64,
    /// Bytes that were read from it.
    pub read: u64,
    /// Bytes that were written to it.
    pub written: u64,
}

/// Some of the clients that are connected, in the order of their places.
#[derive(Clone, Copy, Debug)]
pub struct Part<'a> {
    /// The clients.
    pub conns: &'a [Conn],
    /// The place at which the next part begins; none after the last part.
    pub next: Option<usize>,
}

/// Appends the lines of some clients to a text, and after the last of all the end of the list.
pub fn push_part(part: Option<Part<'_>>, out: &mut Vec<u8>) -> Result<(), AllocError>
    ensures { OnOk result (out.new.items ≡ out.old.items ++ part_text part.entry) }
{
    let Some(part) = part else {
        return Ok(());
    };
    push_conns(part.conns, out)?;
    match part.next {
        Some(_) => Ok(()),
        None => out.extend_from_slice(b"END\r\n"),
    }
}

/// Appends the lines of some clients to a text.
#[tactic(auto, using(crate::proofs::PageLemmas::lines_more))]
fn push_conns(conns: &[Conn], out: &mut Vec<u8>) -> Result<(), AllocError>
    ensures { OnOk result (out.new.items ≡ out.old.items ++ flat_map conn_lines conns.now) }
{
    for conn in conns {
        push_conn(conn, out)?;
    }
    Ok(())
}

/// Appends the lines of a client to a text.
#[tactic(auto, unfolding(crate::specs::Conns::conn_lines))]
fn push_conn(conn: &Conn, out: &mut Vec<u8>) -> Result<(), AllocError>
    ensures { OnOk result (out.new.items ≡ out.old.items ++ conn_lines conn.now) }
{
    push_address(conn.place, b"addr", conn.peer.as_bytes(), out)?;
    push_address(conn.place, b"listen_addr", conn.own.as_bytes(), out)?;
    push_line(conn.place, b"state", conn.state, out)?;
    push_number(conn.place, b"secs_since_last_cmd", conn.quiet, out)?;
    push_number(conn.place, b"age", conn.age, out)?;
    push_number(conn.place, b"bytes_read", conn.read, out)?;
    push_number(conn.place, b"bytes_written", conn.written, out)
}

/// Appends a line of a client with an address to a text.
fn push_address(
    place: u64,
    name: &[u8],
    address: &[u8],
    out: &mut Vec<u8>,
) -> Result<(), AllocError>
    ensures { OnOk result (out.new.items ≡ out.old.items ++ address_line place name.now address.now) }
{
    push_name(place, name, out)?;
    out.extend_from_slice(b"tcp:")?;
    out.extend_from_slice(address)?;
    out.extend_from_slice(b"\r\n")
}

/// Appends a line of a client with a number to a text.
fn push_number(place: u64, name: &[u8], number: u64, out: &mut Vec<u8>) -> Result<(), AllocError>
    ensures { OnOk result (out.new.items ≡ out.old.items ++ conn_line place name.now (decimal number)) }
{
    let mut digits = Buffer::new();
    push_line(place, name, digits.format(number).as_bytes(), out)
}

/// Appends a line of a client to a text.
fn push_line(place: u64, name: &[u8], value: &[u8], out: &mut Vec<u8>) -> Result<(), AllocError>
    ensures { OnOk result (out.new.items ≡ out.old.items ++ conn_line place name.now value.now) }
{
    push_name(place, name, out)?;
    out.extend_from_slice(value)?;
    out.extend_from_slice(b"\r\n")
}

/// Appends the front of a line of a client to a text, up to its value.
fn push_name(place: u64, name: &[u8], out: &mut Vec<u8>) -> Result<(), AllocError>
    ensures { OnOk result (out.new.items
        ≡ out.old.items ++ (codes "STAT " ++ decimal place ++ codes ":" ++ name.now ++ codes " ")) }
{
    let mut digits = Buffer::new();
    out.extend_from_slice(b"STAT ")?;
    out.extend_from_slice(digits.format(place).as_bytes())?;
    out.extend_from_slice(b":")?;
    out.extend_from_slice(name)?;
    out.extend_from_slice(b" ")
}
