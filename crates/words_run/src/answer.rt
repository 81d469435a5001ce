// What each op prints.
ghost use Rattle.std.specs.Prelude.{◌≡◌, ◌<◌, ◌≤◌, ◌^◌};

use crate::head::Head;
use checks::check::{Fault, check};
use lines::line::Out;
use words::ahead::{FunctionStart, function_start, mapped_start, starter};
use words::cursor::Cursor;
use words::kind::{Class, in_class};
use words::token;

// 1 for yes, and 0 for no.
fn bit(out: &mut Out, b: bool) {
    out.number(u64::from(b));
}

// Two numbers.
fn pair(out: &mut Out, first: u64, second: usize) {
    out.number(first);
    out.next(second as u64);
}

// `sound`, or the refusal's number and place.
fn checked(out: &mut Out, c: Result<(), Fault>) {
    match c {
        Ok(()) => out.bytes(b"sound"),
        Err(Fault::List) => pair(out, 1, 0),
        Err(Fault::Token(i)) => pair(out, 2, i),
    }
}

// The seven classes of a kind, in the order of their bits.
fn classes_of(out: &mut Out, kind: u8) {
    let classes = [
        Class::BindingWord,
        Class::Name,
        Class::Starter,
        Class::Modifier,
        Class::Good,
        Class::Fixed,
        Class::Other,
    ];
    for class in classes {
        if class != Class::BindingWord {
            out.byte(b' ');
        }
        bit(out, in_class(usize::from(kind), class));
    }
}

// The number of the case, by its place in the enum from 1 and 0 for none, and the index that it holds or 0.
fn function_case(out: &mut Out, start: FunctionStart) {
    match start {
        FunctionStart::TypeParameters => pair(out, 1, 0),
        FunctionStart::New => pair(out, 2, 0),
        FunctionStart::AbstractNew => pair(out, 3, 0),
        FunctionStart::Empty => pair(out, 4, 0),
        FunctionStart::Rest => pair(out, 5, 0),
        FunctionStart::Parameter(j) => pair(out, 6, j),
        FunctionStart::LoneParameter(j) => pair(out, 7, j),
        FunctionStart::Nothing => pair(out, 0, 0),
    }
}

// Kind, same line, first byte and end byte at a cursor, and the cursor one step further.
fn cursor_facts(out: &mut Out, words: &[u64], c: Cursor)
    requires { (c.half ≤ 1) × (c.at < 2 ^ 32) }
{
    out.number(c.kind(words) as u64);
    out.next(u64::from(c.same_line(words)));
    out.next(c.first_byte(words) as u64);
    out.next(c.end_byte(words) as u64);
    let after = c.step();
    out.next(after.at as u64);
    out.next(after.half as u64);
}

// The five fields of a word, and the word made of them again.
fn fields(out: &mut Out, word: u64) {
    let kind = token::kind(word) as u64;
    let newline = token::newline(word) as u64;
    let zeros = token::zeros(word) as u64;
    let length = token::length(word) as u64;
    let start = token::start(word) as u64;
    out.three(kind, newline, zeros);
    let again = token::word(kind, newline, zeros, length, start);
    out.three(length, start, again);
}

// How many words there are, and each word's fields.
fn all_fields(out: &mut Out, words: &[u64]) {
    out.number(words.len() as u64);
    for word in words {
        fields(out, *word);
    }
}

// A record's answer, without the line's end.
pub fn answer(out: &mut Out, head: &Head, text: &[u8], words: &[u64]) {
    let at = head.a as usize;
    match head.op {
        0 => checked(out, check(text, words, at)),
        1 => classes_of(out, (head.a % 256) as u8),
        2 => bit(out, starter(words, at)),
        3 => function_case(out, function_start(words, head.cursor())),
        4 => bit(out, mapped_start(words, at)),
        5 => cursor_facts(out, words, head.cursor()),
        _ => all_fields(out, words),
    }
}
