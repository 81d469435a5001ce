// The check of a token list: refusals 1 and 2 of document 01.
ghost use Rattle.std.specs.Prelude.{◌≡◌, Bool, ◌^◌, ◌<◌, length};
ghost use Rattle.words.specs.Check as check;
ghost use Rattle.checks.specs.Verdict.{verdict};

use crate::spelling::spelled_right;
use words::kind::{Class, Kind, in_class};
use words::limits::{Text, Tokens};
use words::token;

// What is wrong with a list.
#[derive(Clone, Copy, Debug, PartialEq, Eq)]
pub enum Fault {
    // refusal 1, at 0
    List,
    // refusal 2, at the lowest bad word
    Token(usize),
}

// Whether the Eof stands last and nowhere else, and alone has no bytes.
fn ends_well(kind: usize, length: usize, last: bool) -> bool
    ensures { result ≡ check.ends_well kind length last }
{
    if kind == Kind::EOF {
        length == 0 && last
    } else {
        length != 0 && !last
    }
}

// Whether n bytes start no earlier than the token before ends, and end inside the text.
fn placed(long: usize, before: usize, from: usize, n: usize) -> bool
    requires { (from < 2 ^ 32) × (n < 2 ^ 32) }
    ensures { result ≡ check.placed long before from n }
{
    n <= Text::MOST && before <= from && from + n <= long
}

// A word of the list: `before` is where the one before ends, `last` says that none follows.
fn good_word(text: &[u8], word: u64, before: usize, last: bool) -> bool
    ensures { result ≡ check.good_word text.now before last word }
{
    let kind = token::kind(word);
    let n = token::length(word);
    let from = token::start(word);
    if in_class(kind, Class::Good)
        && token::zeros(word) == 0
        && placed(text.len(), before, from, n)
        && ends_well(kind, n, last)
    {
        kind == Kind::EOF || spelled_right(&text[from..from + n], kind)
    } else {
        false
    }
}

// The lowest bad word.
fn words_from(text: &[u8], words: &[u64]) -> Result<(), Fault>
    ensures { verdict result ≡ check.words_from text.now 0 0 words.now }
{
    let mut before = 0;
    for (i, &word) in words.iter().enumerate() {
        if !good_word(text, word, before, i + 1 == words.len()) {
            return Err(Fault::Token(i));
        }
        before = token::end(word);
    }
    Ok(())
}

// Any text, any list, any start.
pub fn check(text: &[u8], words: &[u64], start: usize) -> Result<(), Fault>
    ensures { verdict result ≡ check.check text.now words.now start }
{
    if text.len() > Text::MOST || words.len() > Tokens::MOST || start >= words.len() {
        return Err(Fault::List);
    }
    words_from(text, words)
}
