// Looking ahead: tests that use nothing up.
ghost use Rattle.std.specs.Prelude.{◌≡◌, ◌+◌, ◌<◌, ◌^◌, drop, length};
ghost use Rattle.words.specs.Word.{size};
ghost use Rattle.words.specs.Check.{spelled};
ghost use Rattle.words.specs.Ahead as ahead;
ghost use Rattle.words.specs.Cursor.{word_at};

use crate::cursor::{Cursor, whole_kind, word_at};
use crate::kind::{Class, Kind, in_class};
use crate::token;

// Whether the token at i can begin a type. A run of `(` is a loop.
pub fn starter(words: &[u64], i: usize) -> bool
    requires { i < 2 ^ 63 }
    ensures { result ≡ ahead.starter words.now i }
{
    for j in i..words.len() {
        let kind = whole_kind(words, j);
        let next = whole_kind(words, j + 1);
        if kind != Kind::L_PAREN {
            return lone_starter(kind, next);
        }
        if next == Kind::R_PAREN {
            return true;
        }
    }
    false
}

// A starter that is no `(`, by its kind and the next one's.
fn lone_starter(kind: usize, next: usize) -> bool
    requires { kind < 256 }
    ensures { result ≡ ahead.lone_starter kind next }
{
    if kind == Kind::MINUS {
        matches!(next, Kind::NUMBER_LITERAL | Kind::BIG_INT_LITERAL)
    } else {
        in_class(kind, Class::Starter)
    }
}

// How a function type can begin, and that none does. The last two name the token that the parameter start ends with.
#[derive(Clone, Copy)]
pub enum FunctionStart {
    // `<`
    TypeParameters,
    New,
    AbstractNew,
    // `()`
    Empty,
    // `(...`
    Rest,
    // a parameter start and then `:`, `,`, `?` or `=`
    Parameter(usize),
    // a parameter start and then `) =>`
    LoneParameter(usize),
    Nothing,
}

// A binding word or this.
pub fn parameter_name(kind: usize) -> bool
    requires { kind < 256 }
    ensures { result ≡ ahead.parameter_name kind }
{
    in_class(kind, Class::BindingWord) || kind == Kind::THIS
}

// Whether the token at j is a modifier word before a parameter's name on its line.
pub fn modifies(words: &[u64], j: usize) -> bool
    requires { j < 2 ^ 63 }
    ensures { result ≡ ahead.modifies (word_at words.now j) (word_at words.now (j + 1)) }
{
    let next = word_at(words, j + 1);
    in_class(whole_kind(words, j), Class::Modifier)
        && parameter_name(token::kind(next))
        && token::newline(next) == 0
}

// Past any modifier words.
fn past_modifiers(words: &[u64], at: usize) -> usize
    requires { at < 2 ^ 62 }
    ensures { (result ≡ ahead.past_modifiers at (drop at words.now)) × (result < 2 ^ 63) }
{
    for j in at..words.len() {
        if !modifies(words, j) {
            return j;
        }
    }
    at.max(words.len())
}

// Whether a kind may follow a parameter's name.
fn after_parameter(kind: usize) -> bool
    ensures { result ≡ ahead.after_parameter kind }
{
    matches!(kind, Kind::COLON | Kind::COMMA | Kind::QUESTION | Kind::EQ)
}

// A parameter start that ends at j, and what follows it.
fn parameter_start(words: &[u64], j: usize) -> FunctionStart
    requires { j < 2 ^ 63 }
    ensures { result ≡ ahead.parameter_start words.now j }
{
    if parameter_name(whole_kind(words, j)) {
        followed(words, j, whole_kind(words, j + 1))
    } else {
        FunctionStart::Nothing
    }
}

// A parameter's name at j, by the kind that follows it.
fn followed(words: &[u64], j: usize, next: usize) -> FunctionStart
    requires { j < 2 ^ 63 }
    ensures { result ≡ ahead.followed words.now j next }
{
    if after_parameter(next) {
        FunctionStart::Parameter(j)
    } else if next == Kind::R_PAREN {
        lone_parameter(words, j)
    } else {
        FunctionStart::Nothing
    }
}

// The same where a `)` follows.
fn lone_parameter(words: &[u64], j: usize) -> FunctionStart
    requires { j < 2 ^ 63 }
    ensures { result ≡ ahead.before_arrow words.now j }
{
    if whole_kind(words, j + 2) == Kind::ARROW {
        FunctionStart::LoneParameter(j)
    } else {
        FunctionStart::Nothing
    }
}

// After a `(`, at j.
fn in_brackets(words: &[u64], j: usize) -> FunctionStart
    requires { j < 2 ^ 62 }
    ensures { result ≡ ahead.in_brackets words.now j }
{
    match whole_kind(words, j) {
        Kind::R_PAREN => FunctionStart::Empty,
        Kind::DOT3 => FunctionStart::Rest,
        _ => parameter_start(words, past_modifiers(words, j)),
    }
}

// Whether a function type begins at a cursor, and by which case.
pub fn function_start(words: &[u64], c: Cursor) -> FunctionStart
    requires { c.at < 2 ^ 61 }
    ensures { result ≡ ahead.function_start words.now c.at c.half }
{
    let at = c.at;
    match c.kind(words) {
        Kind::L_ANGLE => FunctionStart::TypeParameters,
        Kind::NEW => FunctionStart::New,
        Kind::ABSTRACT => abstract_start(words, at),
        Kind::L_PAREN => in_brackets(words, at + 1),
        _ => FunctionStart::Nothing,
    }
}

// After an `abstract`, at `at`.
fn abstract_start(words: &[u64], at: usize) -> FunctionStart
    requires { at < 2 ^ 61 }
    ensures { result ≡ ahead.abstract_start words.now at }
{
    if whole_kind(words, at + 1) == Kind::NEW {
        FunctionStart::AbstractNew
    } else {
        FunctionStart::Nothing
    }
}

// One token further, but not past the end.
fn skip(words: &[u64], j: usize) -> usize
    ensures { result ≡ ahead.skip words.now j }
{
    if whole_kind(words, j) == Kind::EOF {
        j
    } else {
        j + 1
    }
}

// Whether a token of a kind stands after the one at j.
fn then_is(words: &[u64], j: usize, kind: usize) -> bool
    ensures { result ≡ ahead.then_is words.now j kind }
{
    whole_kind(words, skip(words, j)) == kind
}

// Whether a key and `in` stand at j.
fn key_in(words: &[u64], j: usize) -> bool
    ensures { result ≡ ahead.key_in words.now j }
{
    let kind = whole_kind(words, j);
    if kind == Kind::L_BRACK {
        then_is(words, skip(words, j), Kind::IN)
    } else {
        !in_class(kind, Class::Name) && then_is(words, j, Kind::IN)
    }
}

// Whether the `{` at i opens a mapped type, by the look-ahead of types.rs.
pub fn mapped_start(words: &[u64], i: usize) -> bool
    ensures { result ≡ ahead.mapped_start words.now i }
{
    let j = skip(words, i);
    match whole_kind(words, j) {
        Kind::PLUS | Kind::MINUS => then_is(words, j, Kind::READONLY),
        Kind::READONLY => key_in(words, skip(words, j)),
        _ => key_in(words, j),
    }
}

// ---- Members of an object type

// Whether a kind can be the key of a member: a name, a string, a number.
pub fn property_key(kind: usize) -> bool
    requires { kind < 256 }
    ensures { result ≡ ahead.property_key kind }
{
    in_class(kind, Class::Name) || matches!(kind, Kind::STR | Kind::NUMBER_LITERAL)
}

// Whether a key or a `[` stands behind the token at an index.
pub fn key_follows(words: &[u64], at: usize) -> bool
    requires { at < 2 ^ 63 }
    ensures { result ≡ ahead.key_follows words.now at }
{
    let kind = whole_kind(words, at + 1);
    property_key(kind) || kind == Kind::L_BRACK
}

// Whether readonly stands at a cursor, with a key or a `[` behind it on its line.
pub fn readonly_start(words: &[u64], c: Cursor) -> bool
    requires { c.at < 2 ^ 63 }
    ensures { result ≡ ahead.readonly_start words.now c.at c.half }
{
    c.kind(words) == Kind::READONLY
        && key_follows(words, c.at)
        && token::newline(word_at(words, c.at + 1)) == 0
}

// Whether another modifier word stands at a cursor, with a key or a `[` behind it.
pub fn modifier_start(words: &[u64], c: Cursor) -> bool
    requires { c.at < 2 ^ 63 }
    ensures { result ≡ ahead.modifier_start words.now c.at c.half }
{
    let kind = c.kind(words);
    in_class(kind, Class::Modifier) && kind != Kind::READONLY && key_follows(words, c.at)
}

// Whether get or set stands at a cursor, a word by its kind, with a key or a `[` behind it.
pub fn accessor_start(text: &[u8], words: &[u64], c: Cursor) -> bool
    requires { (c.at < 2 ^ 63) × (length (spelled text.now (word_at words.now c.at)) ≡ size (word_at words.now c.at)) }
    ensures { result ≡ ahead.accessor_start text.now words.now c.at c.half }
{
    c.kind(words) == Kind::WORD
        && key_follows(words, c.at)
        && accessor_word(text, word_at(words, c.at))
}

// Whether the bytes of a token are those of get or set.
#[tactic(auto, using(crate::proofs::Bytes::same_long))]
fn accessor_word(text: &[u8], word: u64) -> bool
    requires { length (spelled text.now word) ≡ size word }
    ensures { result ≡ ahead.accessor_word (spelled text.now word) }
{
    let Some(bytes) = text.get(token::start(word)..token::end(word)) else {
        return false;
    };
    matches!(bytes, b"get" | b"set")
}

// Whether what stands from j on may follow the name of an index parameter: `:` or `,`, or a `?` before `:`, `,` or `]`.
fn after_index_name(words: &[u64], j: usize) -> bool
    requires { j < 2 ^ 63 }
    ensures { result ≡ ahead.after_index_name words.now j }
{
    match whole_kind(words, j) {
        Kind::COLON | Kind::COMMA => true,
        Kind::QUESTION => matches!(
            whole_kind(words, j + 1),
            Kind::COLON | Kind::COMMA | Kind::R_BRACK
        ),
        _ => false,
    }
}

// Whether a kind is a modifier word's for an index parameter: in and const are among them.
fn index_modifier(kind: usize) -> bool
    requires { kind < 256 }
    ensures { result ≡ ahead.index_modifier kind }
{
    in_class(kind, Class::Modifier) || matches!(kind, Kind::IN | Kind::CONST)
}

// Whether the `[` at i opens an index signature.
pub fn index_start(words: &[u64], i: usize) -> bool
    requires { i < 2 ^ 62 }
    ensures { result ≡ ahead.index_start words.now i }
{
    let j = i + 1;
    let kind = whole_kind(words, j);
    if matches!(kind, Kind::DOT3 | Kind::R_BRACK) {
        true
    } else if index_modifier(kind) {
        in_class(whole_kind(words, j + 1), Class::BindingWord) || after_index_name(words, j + 1)
    } else {
        in_class(kind, Class::BindingWord) && after_index_name(words, j + 1)
    }
}
