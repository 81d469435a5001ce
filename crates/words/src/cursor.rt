// The cursor: a token's index, and 1 where the first half of a split token is used up.
ghost use Rattle.std.specs.Prelude.{◌≡◌, ◌+◌, ◌-◌, ◌*◌, ◌^◌, ◌<◌, ◌≤◌, length};
ghost use Rattle.words.specs.Cursor as cursor;

use crate::kind::Kind;
use crate::token;

#[derive(Clone, Copy)]
pub struct Cursor {
    pub at: usize,
    pub half: usize,
}

impl Cursor {
    // The first cursor of a reading.
    pub fn start(at: usize) -> Cursor
        ensures { (result.at ≡ at) × (result.half ≡ 0) }
    {
        Cursor { at, half: 0 }
    }

    // Past the token, or what is left of it.
    pub fn step(self) -> Cursor
        requires { self.at < 2 ^ 63 }
        ensures { (result.at ≡ self.at + 1) × (result.half ≡ 0) }
    {
        Cursor::start(self.at + 1)
    }

    // The kind at the cursor; past the list nothing stands but an end.
    pub fn kind(self, words: &[u64]) -> usize
        ensures value { result ≡ cursor.kind_at words.now self.at self.half }
        ensures upper_bound { result ≤ 255 * (length words.now - self.at) }
    {
        let whole = whole_kind(words, self.at);
        if self.half == 0 {
            whole
        } else {
            second_half(whole)
        }
    }

    // Whether no line break stands before what is left here.
    pub fn same_line(self, words: &[u64]) -> bool
        ensures { result ≡ cursor.same_line words.now self.at self.half }
    {
        self.half != 0 || token::newline(word_at(words, self.at)) == 0
    }

    // The first byte of what is left here.
    pub fn first_byte(self, words: &[u64]) -> usize
        requires { self.half ≤ 1 }
        ensures { result ≡ cursor.first_byte words.now self.at self.half }
    {
        token::start(word_at(words, self.at)) + self.half
    }

    // The end byte of what was taken last.
    pub fn end_byte(self, words: &[u64]) -> usize
        requires { self.half ≤ 1 }
        ensures { result ≡ cursor.end_byte words.now self.at self.half }
    {
        if self.half != 0 {
            self.first_byte(words)
        } else if self.at == 0 {
            0
        } else {
            token::end(word_at(words, self.at - 1))
        }
    }
}

// The word at an index, 0 past the list.
pub fn word_at(words: &[u64], i: usize) -> u64
    ensures { result ≡ cursor.word_at words.now i }
{
    words.get(i).copied().unwrap_or(0)
}

// The kind of the whole token at an index.
pub fn whole_kind(words: &[u64], i: usize) -> usize
    ensures value { result ≡ cursor.whole_kind words.now i }
    ensures upper_bound { result ≤ 255 * (length words.now - i) }
{
    words.get(i).map_or(Kind::EOF, |&word| token::kind(word))
}

// What is left of a token whose first half is used up.
fn second_half(kind: usize) -> usize
    ensures { (result ≡ cursor.second_half kind) × (result ≤ 255) × (result ≤ 255 * kind) }
{
    match kind {
        Kind::SHIFT_LEFT => Kind::L_ANGLE,
        Kind::LT_EQ => Kind::EQ,
        Kind::SHIFT_LEFT_EQ => Kind::LT_EQ,
        _ => Kind::EOF,
    }
}
