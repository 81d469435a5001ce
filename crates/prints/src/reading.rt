// What a reading came to, in the form that is asked for.
ghost use Rattle.std.specs.Prelude.{◌≤◌};

use crate::place::{Place, second, source};
use crate::seen::{Seen, Whole};
use crate::tagged::walk;
use crate::{json, say, tree};
use answers::reading::{Counts, Refused};
use lines::line::Out;
use lines::sum::root;
use noted::{Note, notes_of};
use speech::ask::{Form, Job};
use speech::put::{Shape, copy, numbered};
use words::cursor::{whole_kind, word_at};
use words::kind::Kind;
use words::limits::{Notes, Tree};
use words::refusal::Refusal;
use words::token;

// The most words of visits that are gone through.
const ROOM: usize = 393216;

// A text with its tokens, and the number of its first line.
#[derive(Clone, Copy)]
struct Source<'a> {
    text: &'a [u8],
    tokens: &'a [u64],
    line: usize,
}

// Whether nothing is left.
pub fn is_whole(tokens: &[u64], at: usize) -> bool {
    whole_kind(tokens, at) == Kind::EOF
}

impl<'a> Source<'a> {
    // A text with its tokens, for a job.
    fn of(text: &'a [u8], tokens: &'a [u64], job: Job) -> Source<'a> {
        Source {
            text,
            tokens,
            line: job.line,
        }
    }

    // The place of a byte.
    fn place(self, byte: usize) -> Place {
        Place::of(self.text, byte, self.line)
    }

    // The first byte of a token.
    fn start(self, token: usize) -> usize {
        token::start(word_at(self.tokens, token))
    }

    // The first byte that the end cursor has not used.
    fn end_byte(self, c: Counts) -> usize {
        self.start(c.at).saturating_add(c.half)
    }

    // Whether nothing is left behind a token.
    fn ends(self, token: usize) -> bool {
        is_whole(self.tokens, token)
    }

    // The source line of a byte, with carets up to the end of a token.
    fn point(self, out: &mut Out, first: usize, token: usize) {
        let end = token::end(word_at(self.tokens, token));
        source(out, self.text, first, end);
    }

    // The second place of a diagnostic, if it has one.
    fn other(self, out: &mut Out, n: Note) {
        if n.other_end != 0 {
            second(
                out,
                self.text,
                n.first,
                n.other_first,
                n.other_end,
                b" the optional one is here",
            );
        }
    }

    // A diagnostic with its source line, and that of its second place.
    fn note(self, out: &mut Out, n: Note) {
        out.bytes(b"diagnostic: ");
        say::word(out, say::diagnostic(n.number));
        self.place(n.first).told(out);
        say::hint(out, self.text, n);
        out.byte(b'\n');
        source(out, self.text, n.first, n.end);
        self.other(out, n);
    }

    // A line on what was not read.
    fn rest(self, out: &mut Out, c: Counts) {
        if self.ends(c.at) {
            return;
        }
        let first = self.end_byte(c);
        out.bytes(b"rest");
        self.place(first).told(out);
        numbered(out, b" (token ", c.at);
        out.bytes(b"): the type ends before this\n");
        self.point(out, first, c.at);
    }
}

// ---- A type that was read

// What was read: from what, its tree, diagnostics and key, and how much there is of each.
#[derive(Clone, Copy)]
struct Reading<'a> {
    source: Source<'a>,
    tree: Whole<'a>,
    notes: &'a [Note],
    key: &'a [u8],
    counts: Counts,
}

// `ok` and the key.
pub fn ok_key(out: &mut Out, key: &[u8]) {
    out.bytes(b"ok ");
    copy(out, key, 0, key.len(), Shape::Hex);
}

// The line of a key: diagnostics and a rest are said behind it.
fn key_line(out: &mut Out, source: Source, key: &[u8], c: Counts) {
    ok_key(out, key);
    if c.notes != 0 {
        numbered(out, b" diagnostics ", c.notes);
    }
    if !source.ends(c.at) {
        out.bytes(b" rest");
        source.place(source.end_byte(c)).short(out);
    }
    out.byte(b'\n');
}

impl<'a> Reading<'a> {
    // All of it: the key, the tree, diagnostics, and what was not read.
    fn all(self, out: &mut Out) {
        let c = self.counts;
        key_line(out, self.source, self.key, c);
        tree::tree(out, self.tree);
        for n in self.notes {
            self.source.note(out, *n);
        }
        self.source.rest(out, c);
    }

    fn json(self, out: &mut Out) {
        let c = self.counts;
        let from = self.source;
        json::key(out, self.key);
        json::end(
            out,
            c.at,
            c.half,
            from.place(from.end_byte(c)),
            from.ends(c.at),
        );
        numbered(out, b",\"entered\":", c.entered);
        json::diagnostics(out, self.notes, from.text, from.line);
        json::tree(out, self.tree);
        out.bytes(b"}\n");
    }

    // A form that shows the tree.
    fn formed(self, out: &mut Out, form: Form) {
        match form {
            Form::Tree => tree::tree(out, self.tree),
            Form::Json => self.json(out),
            Form::Key | Form::All => self.all(out),
        }
    }
}

// How many words the visits of so many nodes and names have at most: ten visits a node, which a method has, one a name; and no more
// than there is room for.
pub fn visit_words(nodes: usize, names: usize) -> usize
    ensures { result ≤ 393216 }
{
    let words = 30 * nodes.min(1_000_000) + 3 * names.min(1_000_000);
    words.min(ROOM)
}

// What was read, in the form that is asked for.
pub fn granted(
    out: &mut Out,
    text: &[u8],
    tokens: &[u64],
    nodes: &[u64],
    names: &[u64],
    visits: &mut [u64],
    notes: &[u64],
    key: &[u8],
    c: Counts,
    job: Job,
) {
    let source = Source::of(text, tokens, job);
    let key = &key[..c.key.min(key.len())];
    if job.form == Form::Key {
        key_line(out, source, key, c);
        return;
    }
    let n = visit_words(c.nodes, c.names).min(visits.len());
    let visits = &mut visits[..n];
    let size = walk(nodes, names, root(c.nodes), Tree::TALLEST, visits);
    let tree = Whole {
        seen: Seen::of(visits, names, text),
        nodes: Some(nodes),
        size,
    };
    let list = notes_of(notes, c.notes);
    let all = Reading {
        source,
        tree,
        notes: &list[..c.notes.min(Notes::MOST)],
        key,
        counts: c,
    };
    all.formed(out, job.form);
}

// ---- A refusal

// The byte that a refusal is at: a bad token's first byte, which the call leaves out.
fn refused_at(source: Source, x: Refused) -> usize {
    if x.why == Refusal::BadToken {
        source.start(x.token)
    } else {
        x.byte
    }
}

// Whether a refusal has a place.
fn is_placed(x: Refused) -> bool {
    !matches!(x.why, Refusal::BadList | Refusal::NoSpace)
}

// A refusal with its place, ` at line 1, column 15 (token 4)`, if it has one, what it means, and its source line.
fn refused_all(out: &mut Out, source: Source, x: Refused) {
    let first = refused_at(source, x);
    out.bytes(b"refused: ");
    say::refusal(out, x.why);
    if is_placed(x) {
        source.place(first).told(out);
        numbered(out, b" (token ", x.token);
        out.byte(b')');
    }
    out.bytes(b": ");
    say::why(out, x.why, source.ends(x.token));
    out.byte(b'\n');
    if is_placed(x) {
        source.point(out, first, x.token);
    }
}

fn refused_line(out: &mut Out, source: Source, x: Refused) {
    out.bytes(b"refused ");
    say::refusal(out, x.why);
    source.place(refused_at(source, x)).short(out);
    out.byte(b'\n');
}

fn refused_json(out: &mut Out, source: Source, x: Refused, job: Job) {
    let first = refused_at(source, x);
    json::refusal(out, job.side, x.why, source.ends(x.token));
    numbered(out, b",\"token\":", x.token);
    numbered(out, b",\"half\":", x.half);
    numbered(out, b",\"byte\":", first);
    out.byte(b',');
    source.place(first).json(out);
    out.bytes(b"}}\n");
}

// A refusal, in the form that is asked for, with its side if there are two.
pub fn refused(out: &mut Out, text: &[u8], tokens: &[u64], x: Refused, job: Job) {
    let source = Source::of(text, tokens, job);
    match job.form {
        Form::Json => refused_json(out, source, x, job),
        Form::Key => {
            say::side(out, job.side);
            refused_line(out, source, x);
        }
        Form::Tree | Form::All => {
            say::side(out, job.side);
            refused_all(out, source, x);
        }
    }
}

// ---- A type that is compared

fn unread_json(out: &mut Out, source: Source, c: Counts, job: Job) {
    json::failed(out, job.side);
    numbered(out, b"\"rest\":{\"token\":", c.at);
    numbered(out, b",\"half\":", c.half);
    out.byte(b',');
    source.place(source.end_byte(c)).json(out);
    out.bytes(b"}}\n");
}

// What stands behind a type that is to be compared whole.
pub fn unread(out: &mut Out, text: &[u8], tokens: &[u64], c: Counts, job: Job) {
    let source = Source::of(text, tokens, job);
    if job.form == Form::Json {
        unread_json(out, source, c, job);
    } else {
        say::side(out, job.side);
        source.rest(out, c);
    }
}
