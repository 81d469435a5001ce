// Places of a text: line and column, and the source line with carets under some of its bytes.
use lines::line::Out;
use speech::put::{Shape, copy, count, goes_on, numbered, since, until};

// How many bytes of a line are shown on either side of a byte.
const AROUND: usize = 60;

// A line and a column, both from 1 on; columns count characters.
#[derive(Clone, Copy)]
pub struct Place {
    pub line: usize,
    pub column: usize,
}

impl Place {
    // The place of a byte, where the text's first line has a number.
    pub fn of(text: &[u8], at: usize, first_line: usize) -> Place {
        let start = since(text, at, b'\n');
        Place {
            line: first_line.saturating_add(count(text, 0, at, b'\n')),
            column: count(text, start, at, 0).saturating_add(1),
        }
    }

    // ` at line 1, column 15`
    pub fn told(self, out: &mut Out) {
        numbered(out, b" at line ", self.line);
        numbered(out, b", column ", self.column);
    }

    // ` at 1:15`
    pub fn short(self, out: &mut Out) {
        numbered(out, b" at ", self.line);
        numbered(out, b":", self.column);
    }

    // `"line":1,"column":15`
    pub fn json(self, out: &mut Out) {
        numbered(out, b"\"line\":", self.line);
        numbered(out, b",\"column\":", self.column);
    }
}

// The next index where a character begins.
fn aligned(text: &[u8], at: usize) -> usize {
    let inside = text.iter().skip(at).take(3).take_while(|&&b| goes_on(b));
    at.saturating_add(inside.count())
}

// The part of a source line that is shown, and the line itself: the first byte and the end of each.
#[derive(Clone, Copy)]
struct Part<'a> {
    text: &'a [u8],
    first: usize,
    end: usize,
    start: usize,
    stop: usize,
}

impl<'a> Part<'a> {
    // The part around a byte.
    fn of(text: &'a [u8], at: usize) -> Part<'a> {
        let start = since(text, at, b'\n');
        let stop = until(text, at, b'\n');
        Part {
            text,
            first: aligned(text, start.max(at.saturating_sub(AROUND))),
            end: aligned(text, stop.min(at.saturating_add(AROUND))),
            start,
            stop,
        }
    }

    // The part itself; dots stand where the line is cut.
    fn show(self, out: &mut Out) {
        out.bytes(b"  ");
        if self.first != self.start {
            out.bytes(b"...");
        }
        copy(out, self.text, self.first, self.end, Shape::Source);
        if self.end != self.stop {
            out.bytes(b"...");
        }
        out.byte(b'\n');
    }

    // The line under it: carets from a byte up to another, one at least, and words.
    fn point(self, out: &mut Out, first: usize, end: usize, words: &[u8]) {
        let end = end.min(self.end);
        out.bytes(b"  ");
        if self.first != self.start {
            out.bytes(b"   ");
        }
        copy(out, self.text, self.first, first, Shape::Before);
        copy(out, self.text, first, end, Shape::Caret);
        if end <= first {
            out.byte(b'^');
        }
        out.bytes(words);
        out.byte(b'\n');
    }
}

// The source line of a byte, with carets from it up to another byte of the line.
pub fn source(out: &mut Out, text: &[u8], first: usize, end: usize) {
    let part = Part::of(text, first);
    part.show(out);
    part.point(out, first, end, b"");
}

// Carets and words for a second place, under the source line that was shown of a first one, or under its own.
pub fn second(out: &mut Out, text: &[u8], before: usize, first: usize, end: usize, words: &[u8]) {
    let old = Part::of(text, before);
    let part = Part::of(text, first);
    if old.first != part.first || old.end != part.end {
        part.show(out);
    }
    part.point(out, first, end, words);
}
