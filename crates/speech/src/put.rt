// Bytes of a text on their way to the output, in one of several shapes; entries of lists; runs and counts of bytes.
ghost use Rattle.std.specs.Prelude.{◌<◌, ◌≤◌};

use lines::line::Out;

// The shapes of a byte.
#[derive(Clone, Copy, Debug, PartialEq, Eq)]
pub enum Shape {
    // As it is.
    Plain,
    // For a terminal: a control byte as \x and two digits.
    Shown,
    // Inside a string of JSON.
    Json,
    // Of a source line: a control byte as a blank.
    Source,
    // What stands under it before a caret.
    Before,
    // A caret under it.
    Caret,
    // Two digits.
    Hex,
    // A blank for it.
    Blank,
}

// The byte at an index, 0 past the end.
fn byte_at(text: &[u8], i: usize) -> u8 {
    text.get(i).copied().unwrap_or(0)
}

// A hexadecimal digit.
fn digit(n: u8) -> u8
    requires { n < 16 }
{
    if n < 10 { b'0' + n } else { b'a' - 10 + n }
}

// A byte as two digits.
fn two(out: &mut Out, b: u8) {
    out.byte(digit(b / 16));
    out.byte(digit(b % 16));
}

// Whether a byte goes on with a character of several bytes.
pub fn goes_on(b: u8) -> bool {
    (128..192).contains(&b)
}

// For a terminal, to which a control byte might be a command.
fn terminal(out: &mut Out, b: u8) {
    if b.is_ascii_control() {
        out.bytes(b"\\x");
        two(out, b);
    } else {
        out.byte(b);
    }
}

fn json(out: &mut Out, b: u8) {
    match b {
        b'"' => out.bytes(b"\\\""),
        b'\\' => out.bytes(b"\\\\"),
        0..=31 | 127 => {
            out.bytes(b"\\u00");
            two(out, b);
        }
        _ => out.byte(b),
    }
}

// A byte of a source line; a tab stays one.
fn source(out: &mut Out, b: u8) {
    let control = b != b'\t' && b.is_ascii_control();
    out.byte(if control { b' ' } else { b });
}

// What stands under a byte: one mark for each character, a tab under a tab.
fn under(out: &mut Out, b: u8, mark: u8) {
    if !goes_on(b) {
        out.byte(if b == b'\t' { b } else { mark });
    }
}

// A byte in a shape.
fn shaped(out: &mut Out, b: u8, shape: Shape) {
    match shape {
        Shape::Plain => out.byte(b),
        Shape::Shown => terminal(out, b),
        Shape::Json => json(out, b),
        Shape::Source => source(out, b),
        Shape::Before => under(out, b, b' '),
        Shape::Caret => under(out, b, b'^'),
        Shape::Hex => two(out, b),
        Shape::Blank => out.byte(b' '),
    }
}

// The bytes of a text from one index up to another, each in a shape; by index, since past the end of the text stands 0.
pub fn copy(out: &mut Out, text: &[u8], from: usize, to: usize, shape: Shape) {
    for i in from..to {
        shaped(out, byte_at(text, i), shape);
    }
}

// So many blanks.
pub fn blanks(out: &mut Out, n: usize) {
    times(out, b" ", n);
}

// A text so many times.
pub fn times(out: &mut Out, text: &[u8], n: usize) {
    for _ in 0..n {
        out.bytes(text);
    }
}

// A text and a number.
pub fn numbered(out: &mut Out, text: &[u8], n: usize) {
    out.bytes(text);
    out.number(n as u64);
}

// How many of the bytes from one index up to another are a given one, or with the byte 0 how many characters begin there.
pub fn count(text: &[u8], from: usize, to: usize, what: u8) -> usize {
    (from..to)
        .filter(|&i| counted(byte_at(text, i), what))
        .count()
}

fn counted(b: u8, what: u8) -> bool {
    if what == 0 { !goes_on(b) } else { b == what }
}

// The first index from a given one on where a byte stands, or the end.
pub fn until(text: &[u8], from: usize, b: u8) -> usize {
    (from..text.len())
        .find(|&i| text[i] == b)
        .unwrap_or(from.max(text.len()))
}

// The last index up to a given one that has a byte before it, or 0.
pub fn since(text: &[u8], from: usize, b: u8) -> usize
    ensures { result ≤ from }
{
    (0..from)
        .rev()
        .find(|&i| byte_at(text, i) == b)
        .map_or(0, |i| i + 1)
}

// An entry of a list, by its number from 0 on.
pub fn pick(out: &mut Out, list: &[&str], n: usize) {
    if let Some(entry) = list.get(n) {
        out.bytes(entry.as_bytes());
    }
}
