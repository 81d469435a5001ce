// The text or the key that an argument names.
ghost use Rattle.std.specs.Prelude.{◌≤◌, ℕ, length, take, IfSome};
ghost use Rattle.io.specs.Counts.{IsPrefixLen};
ghost use Rattle.std.specs.Io.KnownBytes.{Consumes};

use lines::given::{argument, file};
use lines::record::filled;
use speech::ask::Place;
use std::io::{Input, Read};
use std::rt::{Env, Files};

// A text's length without the line break that ends it.
fn trimmed(text: &[u8]) -> usize
    ensures { IsPrefixLen result text.now }
{
    match text {
        [line @ .., b'\r', b'\n'] | [line @ .., b'\n'] => line.len(),
        _ => text.len(),
    }
}

// What a reader has left, as far as there is room; its length, which is no more than was read.
fn read_all<R: Read>(from: &mut R, text: &mut [u8]) -> usize
    ensures in_bounds { IsPrefixLen result text.new }
    ensures read { (n : ℕ) × (result ≤ n) × IsPrefixLen n text.new × Consumes (R.remaining from.old) (R.remaining from.new) (take n text.new) }
{
    let n = filled(from, text);
    trimmed(&text[..n])
}

// The file that an argument names.
fn read_file<R: Env + Files>(rt: &R, i: usize, text: &mut [u8]) -> Option<usize>
    ensures { IfSome result (λ n. IsPrefixLen n text.new) }
{
    let n = argument(rt, i, text);
    let mut from = file(rt, &text[..n])?;
    Some(read_all(&mut from, text))
}

// The length of the text or key that is to be read, at the start of a buffer; none where a file cannot be opened.
pub fn sought<R: Env + Files + Input>(rt: &R, place: Place, text: &mut [u8]) -> Option<usize>
    ensures { IfSome result (λ n. IsPrefixLen n text.new) }
{
    match place {
        Place::Argument(i) => Some(argument(rt, i, text)),
        Place::File(i) => read_file(rt, i, text),
        Place::Input => Some(read_all(&mut rt.reader(), text)),
    }
}
