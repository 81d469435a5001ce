// Where a reading stands, what a rule answers, and what stands at the cursor.
ghost use Rattle.std.specs.Prelude.{◌≡◌, false, ◌+◌, ◌-◌, ◌*◌, ◌≤◌, ◌<◌, ◌^◌, eqb, length};
ghost use Rattle.words.specs.Cursor.{kind_at, whole_kind, same_line, first_byte, end_byte};
ghost use Rattle.words.specs.Limits.{most_text};
ghost use Rattle.marks.specs.State.{Sound, Inside, Moved, next_mark, past_mark};

use words::cursor::{Cursor, whole_kind, word_at};
use words::refusal::Refusal;
use words::token;

// What every rule is given beside tokens and slices: room for nodes, records for diagnostics, preserve_parens, and how many
// type rules may still open below.
#[derive(Clone, Copy)]
pub struct Given {
    pub room: usize,
    pub records: usize,
    pub parens: bool,
    pub left: usize,
}

// Where a reading stands: the cursor, and how much of each slice is used. All this a trial puts back.
#[derive(Clone, Copy)]
pub struct Mark {
    pub at: usize,
    pub half: usize,
    pub used: usize,
    pub named: usize,
    pub noted: usize,
}

impl Mark {
    // Its cursor alone.
    pub fn cursor(self) -> Cursor
        ensures { result ≡ record { at = self.at; half = self.half } }
    {
        Cursor {
            at: self.at,
            half: self.half,
        }
    }
}

// Where a node begins: its first byte, and the number of its first name.
#[derive(Clone, Copy)]
pub struct Begin {
    pub first: usize,
    pub name: usize,
}

impl Begin {
    pub fn at(words: &[u64], m: Mark) -> Begin
        requires { Sound words.now × (m.half ≤ 1) }
        ensures first_value { (result.first ≡ first_byte words.now m.at m.half) × (result.name ≡ m.named) }
        ensures first_bound { result.first < 2 ^ 32 }
    {
        Begin {
            first: first_byte(words, m),
            name: m.named,
        }
    }
}

// A tree that was read: its height, and where reading stands then. Its root is the last node used.
#[derive(Clone, Copy)]
pub struct Read {
    pub high: usize,
    pub m: Mark,
}

// A refusal, and where reading stood.
#[derive(Clone, Copy)]
pub struct Stop {
    pub why: Refusal,
    pub m: Mark,
}

// The children of a node so far: the first one's number, how many, the greatest height among them.
#[derive(Clone, Copy)]
pub struct Kids {
    pub first: usize,
    pub count: usize,
    pub high: usize,
}

impl Kids {
    pub fn none() -> Kids
        ensures { result ≡ record { first = 0; count = 0; high = 0 } }
    {
        Kids {
            first: 0,
            count: 0,
            high: 0,
        }
    }

    // The one whose root is the last node before `used`.
    pub fn one(used: usize, high: usize) -> Kids
        requires { 1 ≤ used }
        ensures { result ≡ record { first = used - 1; count = 1; high = high } }
    {
        Kids {
            first: used - 1,
            count: 1,
            high,
        }
    }
}

// What a list comes to: whether it was there, its entries, and where reading stands then.
#[derive(Clone, Copy)]
pub struct Entries {
    // no Option of the entries: the children so far stand beside it either way
    pub there: bool,
    pub kids: Kids,
    pub m: Mark,
}

impl Entries {
    pub fn absent(m: Mark) -> Entries
        ensures { result ≡ record { there = false; kids = record { first = 0; count = 0; high = 0 }; m = m } }
    {
        Entries {
            there: false,
            kids: Kids::none(),
            m,
        }
    }
}

// What a node's rule finds before its first type: choices of the node, and where that type begins.
#[derive(Clone, Copy)]
pub struct Head {
    pub choices: usize,
    pub m: Mark,
}

// ---- The cursor

// The kind at the cursor.
pub fn kind_at(words: &[u64], m: Mark) -> usize
    ensures value { result ≡ kind_at words.now m.at m.half }
    ensures upper_bound { result ≤ 255 * (length words.now - m.at) }
{
    m.cursor().kind(words)
}

// The kind of the whole token n further on.
pub fn kind_after(words: &[u64], m: Mark, n: usize) -> usize
    requires { (m.at < 2 ^ 63) × (n ≤ 2) }
    ensures value { result ≡ whole_kind words.now (m.at + n) }
    ensures upper_bound { result ≤ 255 * (length words.now - (m.at + n)) }
{
    whole_kind(words, m.at + n)
}

// Whether no line break stands before what is at the cursor.
pub fn on_line(words: &[u64], m: Mark) -> bool
    ensures { result ≡ same_line words.now m.at m.half }
{
    m.cursor().same_line(words)
}

// Whether no line break stands before the token after the cursor's.
pub fn next_on_line(words: &[u64], m: Mark) -> bool
    requires { m.at < 2 ^ 63 }
    ensures { result ≡ same_line words.now (m.at + 1) 0 }
{
    token::newline(word_at(words, m.at + 1)) == 0
}

// The first byte of what stands at the cursor.
pub fn first_byte(words: &[u64], m: Mark) -> usize
    requires { Sound words.now × (m.half ≤ 1) }
    ensures value { result ≡ first_byte words.now m.at m.half }
    ensures upper_bound { result < 2 ^ 32 }
{
    m.cursor().first_byte(words)
}

// The end byte of what was taken last.
pub fn end_byte(words: &[u64], m: Mark) -> usize
    requires { Sound words.now × (m.half ≤ 1) }
    ensures value { result ≡ end_byte words.now m.at m.half }
    ensures upper_bound { result ≤ most_text + 1 }
{
    m.cursor().end_byte(words)
}

// ---- Taking a token

// Past the token, or past what is left of it.
pub fn next(m: Mark) -> Mark
    requires { m.at < 2 ^ 63 }
    ensures { result ≡ next_mark m }
{
    Mark {
        at: m.at + 1,
        half: 0,
        ..m
    }
}

// Past a mark, if it stands here.
pub fn past(words: &[u64], kind: usize, m: Mark) -> Mark
    requires { Sound words.now × Inside (length words.now) m × (0 < kind) }
    ensures value { result ≡ past_mark words.now kind m }
    ensures moved { Moved (length words.now) m result }
{
    if kind_at(words, m) == kind {
        next(m)
    } else {
        m
    }
}
