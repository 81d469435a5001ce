// Lines of a reader, and what is said around each.
ghost use Rattle.std.specs.Prelude.{◌≡◌, ◌≤◌, ⊤, length, IfSome};
ghost use Rattle.io.specs.Counts.{IsPrefixLen};

use lines::line::Out;
use speech::ask::{Form, Job};
use speech::put::{Shape, copy, numbered};
use std::alloc::AllocError;
use std::io::Read;

// A reader, and its input that is at hand: the next byte and the end of it.
#[derive(Drop)]
pub struct Feed<R> {
    from: R,
    input: [u8; 65536],
    at: usize,
    end: usize,
    ghost in_order: { at ≤ end },
    ghost in_bounds: { end ≤ 65536 },
}

// Where its reader may be copied, it may be.
impl<R: Copy> Clone for Feed<R> {
    ghost is_clone = { λ feed copy. copy ≡ feed };

    ghost is_infallible = { λ _. ⊤ };

    fn clone(&self) -> Result<Feed<R>, AllocError> {
        Ok(*self)
    }
}

impl<R: Copy> Copy for Feed<R> {}

// Bytes behind those that a text has already, as far as there is room; how many it has then.
fn kept(text: &mut [u8], size: usize, bytes: &[u8]) -> usize
    requires { size ≤ length text.old }
    ensures { IsPrefixLen result text.new }
{
    let n = bytes.len().min(text.len() - size);
    text[size..size + n].copy_from_slice(&bytes[..n]);
    size + n
}

impl<R: Read> Feed<R> {
    // Nothing is at hand yet.
    pub fn new(from: R) -> Feed<R> {
        Feed {
            from,
            input: [0; 65536],
            at: 0,
            end: 0,
        }
    }

    // More input, once what was printed is out; whether there is any.
    fn refill(&mut self, out: &mut Out) -> bool {
        out.flush();
        self.at = 0;
        self.end = self.from.read(&mut self.input).unwrap_or(0);
        self.end != 0
    }

    // The length of the next line, which the end of the input ends too, at the start of a text, as far as there is room.
    pub fn line(&mut self, out: &mut Out, text: &mut [u8]) -> Option<usize>
        ensures { IfSome result (λ n. IsPrefixLen n text.new) }
    {
        let mut size: usize = 0;
        for _ in 0..1_000_000_000 {
            let rest = &self.input[self.at..self.end];
            if let Some(n) = rest.iter().position(|&b| b == b'\n') {
                size = kept(text, size, &rest[..n]);
                self.at += n + 1;
                return Some(size);
            }
            size = kept(text, size, rest);
            if !self.refill(out) {
                return (0 < size).then_some(size);
            }
        }
        None
    }
}

// Before all that is said of a type: the type, or how it begins.
pub fn headed(out: &mut Out, text: &[u8], job: Job) {
    if job.form != Form::All {
        return;
    }
    numbered(out, b"line ", job.line);
    out.bytes(b": ");
    copy(out, text, 0, text.len().min(100), Shape::Source);
    if 100 < text.len() {
        out.bytes(b"...");
    }
    out.byte(b'\n');
}

// Behind all that is said of a type: an empty line.
pub fn footed(out: &mut Out, job: Job) {
    if job.form == Form::All {
        out.byte(b'\n');
    }
}

// How far a long run is.
pub fn progress(line: usize) {
    if line % 10_000 == 0 {
        io::write_all(2, b"typekey: ");
        io::print_decimal(2, line as u64);
        io::write_all(2, b" lines\n");
    }
}

// A line without a carriage return that ends it.
pub fn trimmed(line: &[u8]) -> &[u8] {
    line.strip_suffix(b"\r").unwrap_or(line)
}
