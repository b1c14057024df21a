//! A buffer for bytes that arrive: they are read straight behind those that have arrived.
ghost use Rattle.std.specs.Prelude.{◌≡◌, ◌<◌, ◌≤◌, ◌+◌, ◌-◌, ◌++◌, true, length, take, drop, vec_len, IfNone, IfOk, IfSome, OnErr, OnOk};
ghost use Rattle.std.specs.Io.{ReadsAtMost};
ghost use Rattle.std.specs.Io.KnownBytes.{ReadConsumes};
ghost use Rattle.mc_request_reader.specs.Reads.{ReadsBy};

use std::alloc::{AllocError, Global};
use std::io::Read;
use std::marker::Model;
use std::{io, mem};

/// Memory is reserved for this many times the bytes that have arrived, and for no more than are wanted. So it stays in proportion to
/// what was sent, whatever a line announces, and the arrived bytes are moved seldom.
const ROOM_FOR: usize = 8;

/// Room to read into is made up to this many times the bytes that have arrived. It is filled with zeros, once.
const ROOM_TO_READ: usize = 2;

/// The fewest bytes that a read asks for: to copy fewer costs less than a read of their own.
const LEAST_READ: usize = 16_384;

/// Bytes that have arrived, and room behind them to read more into. Contracts see the bytes that have arrived.
#[derive(Drop)]
pub struct Incoming {
    /// The bytes that have arrived, and behind them zeros or leftovers of a read that failed.
    bytes: Vec<u8>,
    /// The number of bytes that have arrived.
    come: usize,
}

impl Model for Incoming {
    ghost use Rattle.std.specs.Prelude.{◌≤◌, ℕ, List, take, vec_len};

    ghost Value = { List ℕ };

    ghost view = { λ i. take i.come i.bytes.items };

    ghost invariant = { λ i. i.come ≤ vec_len i.bytes };
}

impl Incoming {
    /// Makes a buffer with the first of `wanted` bytes. It returns none if there is no memory.
    pub fn begin(alloc: Global, first: &[u8], wanted: usize) -> Option<Incoming>
        ensures { IfSome result (λ incoming. incoming ≡ first.now) }
    {
        let Ok(mut bytes) = Vec::with_capacity(alloc, room_for(first.len(), wanted, ROOM_FOR))
        else {
            return None;
        };
        bytes.extend_from_slice(first).unwrap();
        Some(Incoming {
            come: bytes.len(),
            bytes,
        })
    }

    /// Returns the number of bytes that have arrived.
    pub fn len(&self) -> usize
        ensures { result ≡ length self.now }
    {
        self.come
    }

    /// Returns how many bytes are reserved for those that have arrived and for more.
    pub fn reserved(&self) -> usize
        ensures { length self.now ≤ result }
    {
        self.bytes.capacity()
    }

    /// Returns how many bytes more are reserved once it has read or appended `more` further bytes.
    pub fn growth(&self, more: usize, wanted: usize) -> usize {
        let next = next_read(self.come, self.spare(), wanted);
        let capacity = self.bytes.capacity();
        growth_of(capacity, self.come, more.max(next), wanted, ROOM_FOR)
    }

    /// Returns how many further bytes can arrive within what is reserved.
    pub fn spare(&self) -> usize {
        self.bytes.capacity().saturating_sub(self.come)
    }

    /// Returns the bytes that have arrived.
    pub fn as_slice(&self) -> &[u8]
        ensures { result.now ≡ self.now }
    {
        let (come, _) = self.bytes.split_at(self.come);
        come
    }

    /// Appends a piece. At an error nothing has changed.
    pub fn append(&mut self, piece: &[u8], wanted: usize) -> Result<(), AllocError>
        ensures ok { OnOk result (self.new ≡ self.old ++ piece.now) }
        ensures some { OnErr result (0 < length piece.now) }
        ensures err { OnErr result (self.new ≡ self.old) }
    {
        self.bytes.truncate(self.come);
        make_room(&mut self.bytes, piece.len(), wanted, ROOM_FOR);
        self.bytes.extend_from_slice(piece)?;
        self.come = self.bytes.len();
        Ok(())
    }

    /// Reads once, straight behind them, if many of the wanted bytes are missing. It returns none if few are, or if there is no memory for
    /// them: then nothing was read.
    pub fn read_from<R: Read>(&mut self, reader: &mut R, wanted: usize) -> Option<io::Result<usize>>
        ensures read { IfSome result (λ read. ReadsBy read (R.remaining reader.old) (R.remaining reader.new)
            (λ came. self.new ≡ self.old ++ came) (self.new ≡ self.old)) }
        ensures none { IfNone result (self.new ≡ self.old) }
        ensures unread { IfNone result (reader.new ≡ reader.old) }
    {
        let room = next_read(self.come, self.spare(), wanted);
        if room == 0 {
            return None;
        }
        if !widen(&mut self.bytes, self.come, room, wanted) {
            return None;
        }
        let read = read_behind(reader, self.bytes.as_mut_slice(), self.come, room);
        self.come += count_of(&read);
        Some(read)
    }

    /// Returns the bytes, and keeps none.
    pub fn take(&mut self, alloc: Global) -> Vec<u8>
        ensures { result.items ≡ self.old }
    {
        let mut bytes = mem::replace(&mut self.bytes, Vec::new(alloc));
        bytes.truncate(self.come);
        self.come = 0;
        bytes
    }
}

/// Returns the number of bytes to reserve memory for, if `come` have arrived and `wanted` are wanted: `times` those that have arrived, and no
/// more than are wanted.
fn room_for(come: usize, wanted: usize, times: usize) -> usize
    ensures { come ≤ result }
{
    wanted.min(come.saturating_mul(times)).max(come)
}

/// Makes room for `more` further bytes, if with them there are no more than `wanted`: for `times` as many as there are then, and for no more
/// than are wanted. If there is too little memory, the room stays as it was.
pub fn make_room(bytes: &mut Vec<u8>, more: usize, wanted: usize, times: usize)
    ensures { bytes.new.items ≡ bytes.old.items }
{
    let come = bytes.len().saturating_add(more);
    if come > bytes.capacity() && come <= wanted {
        let _ = bytes.reserve_exact(room_for(come, wanted, times).saturating_sub(bytes.len()));
    }
}

/// Returns how many bytes a read asks for, if `come` have arrived and `wanted` are wanted.
fn room_to_read(come: usize, wanted: usize) -> usize
    ensures { result ≤ wanted - come }
{
    wanted
        .min(come.saturating_mul(ROOM_TO_READ))
        .saturating_sub(come)
}

/// Returns how many bytes are read next, straight behind `come` bytes, if `spare` further ones fit into what is reserved: none if only few of the
/// wanted bytes are missing. More are reserved only once little is left.
fn next_read(come: usize, spare: usize, wanted: usize) -> usize
    ensures { result ≤ wanted - come }
{
    let room = room_to_read(come, wanted);
    if room < LEAST_READ {
        0
    } else if spare >= LEAST_READ {
        room.min(spare)
    } else {
        room
    }
}

/// Returns how many bytes more are reserved for a buffer of this capacity once `more` bytes have arrived behind `come`, if `wanted` are wanted
/// and memory is reserved for `times` those that have arrived. Behind the wanted ones, a buffer doubles.
pub fn growth_of(capacity: usize, come: usize, more: usize, wanted: usize, times: usize) -> usize {
    let come = come.saturating_add(more);
    if come <= capacity {
        return 0;
    }
    let room = if come <= wanted {
        room_for(come, wanted, times)
    } else {
        come.max(capacity.saturating_mul(2))
    };
    room.saturating_sub(capacity)
}

/// Fills with zeros, so that there are `room` bytes behind the first `come`, and returns whether there are. False says that there is no
/// memory for them.
fn widen(bytes: &mut Vec<u8>, come: usize, room: usize, wanted: usize) -> bool
    requires { come ≤ vec_len bytes.old }
    ensures kept { take come bytes.new.items ≡ take come bytes.old.items }
    ensures longer { vec_len bytes.old ≤ vec_len bytes.new }
    ensures enough { result ≡ true → come + room ≤ vec_len bytes.new }
{
    let Some(end) = come.checked_add(room) else {
        return false;
    };
    if end <= bytes.len() {
        return true;
    }
    make_room(bytes, end - bytes.len(), wanted, ROOM_FOR);
    bytes.resize(end, 0).is_ok()
}

/// Reads once, behind the first `at` bytes, at most `room` bytes.
fn read_behind<R: Read>(
    reader: &mut R,
    bytes: &mut [u8],
    at: usize,
    room: usize,
) -> io::Result<usize>
    requires some { 0 < room }
    requires inside { at + room ≤ length bytes.old }
    ensures front { take at bytes.new ≡ take at bytes.old }
    ensures same { length bytes.new ≡ length bytes.old }
    ensures within { ReadsAtMost result (take room (drop at bytes.new)) }
    ensures given { ReadConsumes (R.remaining reader.old) (R.remaining reader.new) result (take room (drop at bytes.new)) }
{
    reader.read(&mut bytes[at..at + room])
}

/// Returns how many bytes a read returned: none at an error.
fn count_of(read: &io::Result<usize>) -> usize
    ensures some { IfOk read.now (λ count. result ≡ count) }
    ensures none { OnErr read.now (result ≡ 0) }
{
    match read {
        Ok(count) => *count,
        Err(_) => 0,
    }
}
