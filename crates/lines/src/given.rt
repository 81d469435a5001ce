// What a program is given: its arguments, and the files that they name. What is not to be had is said on standard error.
ghost use Rattle.std.specs.Prelude.{◌≡◌, ◌-◌, ◌<◌, ◌≤◌, length, take};
ghost use Rattle.io.specs.Counts.{IsPrefixLen};

use std::fs;
use std::io::{Cursor, Error, Write};
use std::rt::{Env, Files};
use std::str::from_utf8;

// An argument at the start of a buffer; its length, or 0 where it is missing or longer than the buffer.
pub fn argument<R: Env>(rt: &R, i: usize, buffer: &mut [u8]) -> usize
    ensures { IsPrefixLen result buffer.new }
{
    rt.arg(i, buffer).unwrap_or(0)
}

// A line on standard error: what failed, and why.
pub fn complain(what: &[u8], why: &[u8]) {
    io::write_all(2, what);
    io::write_all(2, b": ");
    io::write_all(2, why);
    io::write_all(2, b"\n");
}

// Of an error's text, all but the system's number: what comes before the last `(` and the blank there.
fn message(text: &[u8]) -> &[u8]
    ensures len { length result.now ≤ length text.now }
    ensures value { result.now ≡ take (length result.now) text.now }
{
    match text.iter().rposition(|b| *b == b'(') {
        Some(i) if 0 < i => &text[..i - 1],
        _ => text,
    }
}

// The same of an error of the system.
fn fail(what: &[u8], error: &Error) {
    let mut text = Cursor::new([0u8; 256]);
    let _ = write!(text, "{error}");
    let end = text.position().min(256) as usize;
    let room = text.into_inner();
    complain(what, message(&room[..end]));
}

// The file that a path names, open to be read; none where it cannot be opened, after a line that says why.
pub fn file<R: Files>(rt: &R, path: &[u8]) -> Option<R::File> {
    let Ok(name) = from_utf8(path) else {
        complain(path, b"Invalid or incomplete multibyte or wide character");
        return None;
    };
    fs::open(rt, name)
        .inspect_err(|error| fail(path, error))
        .ok()
}
