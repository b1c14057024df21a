//! What no clause of a writer of replies says: that it finds memory if there is some.

use mc_reply::{
    Marks, Reply, ReplyError, Shown, write_end, write_fault, write_key, write_line, write_meta,
    write_noop, write_part, write_version,
};
use mc_request::{Fault, Keys, MetaForm, Request};
use mc_text::{Key, words};
use std::test::Fail;

/// A call that appends to bytes that have no room yet.
#[derive(Clone, Copy)]
enum Writer {
    Hit,
    End,
    Version,
    Line,
    Fault,
    Meta,
    Noop,
    LastKey,
    Alone,
}

/// Each writer, and the bytes that it appends.
const WRITERS: [(Writer, &'static [u8]); 9] = [
    (Writer::Hit, b"VALUE a 5 3 18446744073709551615\r\nxyz\r\n"),
    (Writer::End, b"END\r\n"),
    (Writer::Version, b"VERSION 1.6.0\r\n"),
    (Writer::Line, b"18446744073709551615\r\n"),
    (Writer::Fault, b"CLIENT_ERROR bad data chunk\r\n"),
    (
        Writer::Meta,
        b"VA 3 c18446744073709551615 f5 s3 t60 W X\r\nxyz\r\n",
    ),
    (Writer::Noop, b"MN\r\n"),
    (
        Writer::LastKey,
        b"VALUE a 5 3 18446744073709551615\r\nxyz\r\nEND\r\n",
    ),
    (Writer::Alone, b"VERSION 1.6.0\r\n"),
];

/// What a meta command shows of an item that its client must fill anew.
const SHOWN: Shown = Shown {
    cas: Some(u64::MAX),
    flags: Some(5),
    size: Some(3),
    left: Some(Some(60)),
    marks: Marks::WonStale,
};

/// Appends the answer to a meta command that asks for all of it.
#[tactic(auto, unfolding(mc_text::specs::Words::words))]
fn write_meta_with_all(out: &mut Vec<u8>) -> Result<(), ReplyError> {
    let form = MetaForm {
        coded: false,
        quiet: false,
        flags: words(b"c f s t"),
    };
    let reply = Reply::Meta {
        shown: SHOWN,
        value: Some(b"xyz".as_slice()),
    };
    write_meta(b"a", &form, &reply, out)
}

/// Appends by a writer, and returns whether it succeeded.
fn has_written(writer: Writer, out: &mut Vec<u8>) -> bool {
    let hit = Reply::Hit {
        flags: 5,
        cas: Some(u64::MAX),
        value: b"xyz".as_slice(),
    };
    let written = match writer {
        Writer::Hit => write_key(b"a", &hit, out),
        Writer::End => write_end(out),
        Writer::Version => write_version(out),
        Writer::Line => write_line(&Reply::Number(u64::MAX), out),
        Writer::Fault => write_fault(Fault::BadDataChunk, out),
        Writer::Meta => write_meta_with_all(out),
        Writer::Noop => write_noop(out),
        Writer::LastKey => match Key::plain(*out.allocator(), b"a") {
            Ok(key) => {
                let request = Request::Get {
                    keys: Keys::one(*out.allocator(), key),
                    exptime: None,
                    with_cas: true,
                };
                write_part(&request, 0, Some(&hit), out)
            }
            Err(_) => return false,
        },
        Writer::Alone => write_part(&Request::Version, 0, None, out),
    };
    written.is_ok()
}

#[test]
fn each_writer_finds_memory(rt: HostRuntime) -> Result<(), Fail> {
    for (writer, written) in &WRITERS {
        let mut out = Vec::new(rt.alloc());
        assert!(rt; has_written(*writer, &mut out) && out.as_slice() == *written);
    }
    Ok(())
}
