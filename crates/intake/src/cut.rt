// Cuts a text into token words. This is no part of the key library: no statement of it speaks of this file, and a caller
// of the library brings tokens of its own. It knows names, numbers, strings, templates, marks, blanks and comments, and
// does not look into the escapes of a template.
ghost use Rattle.std.specs.Prelude.{◌<◌, ◌≤◌, length, IfSome};
ghost use Rattle.io.specs.Counts.{IsPrefixLen};

use words::kind::Kind;
use words::token::word;

// How many words a text may have, the end among them.
const MOST: usize = 16_385;

// A token at the start of a text: its kind, and how many bytes it has.
#[derive(Clone, Copy)]
struct Piece {
    kind: usize,
    len: usize,
}

// ---- Bytes

// Whether a byte begins a word; an escape counts as one, and so does each byte that is not ASCII.
fn begins_word(b: u8) -> bool {
    b.is_ascii_alphabetic() || 128 <= b || matches!(b, b'_' | b'$' | b'#' | b'\\')
}

fn in_word(b: u8) -> bool {
    b != b'#' && (b.is_ascii_digit() || begins_word(b))
}

// How many bytes a blank that is not ASCII has at the start of a text: a byte order mark, a line or paragraph separator, a blank
// that does not break.
fn wide_blank(text: &[u8]) -> usize
    ensures { result ≤ length text.now }
{
    match text {
        [0xEF, 0xBB, 0xBF, ..] | [0xE2, 0x80, 0xA8 | 0xA9, ..] => 3,
        [0xC2, 0xA0, ..] => 2,
        _ => 0,
    }
}

// How many bytes at the start of a text belong to a run.
fn run<F: Fn(u8) -> bool>(text: &[u8], belongs: F) -> usize
    requires { F.IsAlwaysCallable belongs }
    ensures { IsPrefixLen result text.now }
{
    text.iter().position(|&b| !belongs(b)).unwrap_or(text.len())
}

// Where the quote stands that ends a string, if one does; a backslash escapes the byte behind it.
fn string_end(text: &[u8], quote: u8) -> Option<usize>
    ensures { IfSome result (λ i. i < length text.now) }
{
    let mut escaped = false;
    for (i, &b) in text.iter().enumerate() {
        if escaped {
            escaped = false;
        } else if b == quote {
            return Some(i);
        } else {
            escaped = b == b'\\';
        }
    }
    None
}

// How many bytes the blank or the comment has that begins a text, 0 where none does.
fn blank_len(text: &[u8]) -> usize
    ensures { IsPrefixLen result text.now }
{
    match text {
        [b' ' | 9..=13, ..] => 1,
        [b'/', b'/', ..] => run(text, |b| b != b'\n'),
        [b'/', b'*', inside @ ..] => (0..inside.len())
            .find(|&i| inside[i..].starts_with(b"*/"))
            .map_or(text.len(), |i| i + 4),
        _ => wide_blank(text),
    }
}

// ---- Tokens

// The kind of a word.
fn word_kind(word: &[u8]) -> usize {
    match word {
        b"any" => Kind::ANY,
        b"bigint" => Kind::BIG_INT,
        b"boolean" => Kind::BOOLEAN,
        b"never" => Kind::NEVER,
        b"number" => Kind::NUMBER,
        b"object" => Kind::OBJECT,
        b"string" => Kind::STRING,
        b"symbol" => Kind::SYMBOL,
        b"undefined" => Kind::UNDEFINED,
        b"unknown" => Kind::UNKNOWN,
        b"abstract" => Kind::ABSTRACT,
        b"as" => Kind::AS,
        b"asserts" => Kind::ASSERTS,
        b"infer" => Kind::INFER,
        b"is" => Kind::IS,
        b"keyof" => Kind::KEY_OF,
        b"out" => Kind::OUT,
        b"readonly" => Kind::READONLY,
        b"unique" => Kind::UNIQUE,
        b"extends" => Kind::EXTENDS,
        b"false" => Kind::FALSE,
        b"import" => Kind::IMPORT,
        b"in" => Kind::IN,
        b"new" => Kind::NEW,
        b"null" => Kind::NULL,
        b"this" => Kind::THIS,
        b"true" => Kind::TRUE,
        b"typeof" => Kind::TYPEOF,
        b"void" => Kind::VOID,
        b"const" => Kind::CONST,
        b"accessor"
        | b"async"
        | b"declare"
        | b"override"
        | b"private"
        | b"protected"
        | b"public"
        | b"static" => Kind::OTHER_MODIFIER,
        b"break"
        | b"case"
        | b"catch"
        | b"class"
        | b"continue"
        | b"debugger"
        | b"default"
        | b"delete"
        | b"do"
        | b"else"
        | b"enum"
        | b"export"
        | b"finally"
        | b"for"
        | b"function"
        | b"if"
        | b"instanceof"
        | b"return"
        | b"super"
        | b"switch"
        | b"throw"
        | b"try"
        | b"var"
        | b"while"
        | b"with" => Kind::OTHER_RESERVED,
        _ => Kind::WORD,
    }
}

// The kind of a mark of one byte.
fn mark_kind(b: u8) -> usize {
    match b {
        b'{' => Kind::L_CURLY,
        b'}' => Kind::R_CURLY,
        b'[' => Kind::L_BRACK,
        b']' => Kind::R_BRACK,
        b'(' => Kind::L_PAREN,
        b')' => Kind::R_PAREN,
        b'<' => Kind::L_ANGLE,
        b'>' => Kind::R_ANGLE,
        b'|' => Kind::PIPE,
        b'&' => Kind::AMP,
        b'?' => Kind::QUESTION,
        b':' => Kind::COLON,
        b',' => Kind::COMMA,
        b';' => Kind::SEMICOLON,
        b'.' => Kind::DOT,
        b'=' => Kind::EQ,
        b'!' => Kind::BANG,
        b'-' => Kind::MINUS,
        b'+' => Kind::PLUS,
        b'*' => Kind::STAR,
        _ => Kind::OTHER_MARK,
    }
}

// The longest mark at the start of a text, any other byte by itself, or the end.
fn mark(text: &[u8]) -> Piece
    ensures { result.len ≤ length text.now }
{
    let (kind, len) = match text {
        [b'<', b'<', b'=', ..] => (Kind::SHIFT_LEFT_EQ, 3),
        [b'.', b'.', b'.', ..] => (Kind::DOT3, 3),
        [b'<', b'<', ..] => (Kind::SHIFT_LEFT, 2),
        [b'<', b'=', ..] => (Kind::LT_EQ, 2),
        [b'=', b'>', ..] => (Kind::ARROW, 2),
        [b, ..] => (mark_kind(*b), 1),
        [] => (Kind::EOF, 0),
    };
    Piece { kind, len }
}

// How many bytes the word has that begins a text.
fn name_len(text: &[u8]) -> usize
    ensures { IsPrefixLen result text.now }
{
    (1..text.len())
        .find(|&i| !in_word(text[i]) || wide_blank(&text[i..]) != 0)
        .unwrap_or(text.len())
}

fn name(text: &[u8]) -> Piece
    ensures { result.len ≤ length text.now }
{
    let len = name_len(text);
    Piece {
        kind: word_kind(&text[..len]),
        len,
    }
}

fn number(text: &[u8]) -> Piece
    ensures { result.len ≤ length text.now }
{
    let digits = run(text, |b| b.is_ascii_digit());
    if text[digits..].starts_with(b"n") {
        return Piece {
            kind: Kind::BIG_INT_LITERAL,
            len: digits + 1,
        };
    }
    Piece {
        kind: Kind::NUMBER_LITERAL,
        len: run(text, |b| b == b'.' || b.is_ascii_digit()),
    }
}

// A string; a quote that nothing closes is a mark.
fn string(text: &[u8], quote: u8) -> Piece
    requires { 0 < length text.now }
    ensures { result.len ≤ length text.now }
{
    match string_end(&text[1..], quote) {
        Some(end) => Piece {
            kind: Kind::STR,
            len: end + 2,
        },
        None => mark(text),
    }
}

// A piece of a template, of one kind if a type follows and of another if none does; if nothing ends it, a mark.
fn template(text: &[u8], goes_on: usize, ends: usize) -> Piece
    ensures { result.len ≤ length text.now }
{
    for i in 1..text.len() {
        match &text[i..] {
            [b'`', ..] => {
                return Piece {
                    kind: ends,
                    len: i + 1,
                };
            }
            [b'$', b'{', ..] => {
                return Piece {
                    kind: goes_on,
                    len: i + 2,
                };
            }
            _ => {}
        }
    }
    mark(text)
}

// The token at the start of a text, or its end; a `}` may end a type in a template.
fn first_piece(text: &[u8], in_template: bool) -> Piece
    ensures { result.len ≤ length text.now }
{
    match text {
        [b'`', ..] => template(text, Kind::TEMPLATE_HEAD, Kind::NO_SUBSTITUTION_TEMPLATE),
        [b'}', ..] if in_template => template(text, Kind::TEMPLATE_MIDDLE, Kind::TEMPLATE_TAIL),
        [quote @ (b'"' | b'\''), ..] => string(text, *quote),
        [b'0'..=b'9', ..] => number(text),
        [b, ..] if begins_word(*b) => name(text),
        _ => mark(text),
    }
}

// ---- What is open

// What encloses a token: for each brace or template, whether it is a template.
#[derive(Drop)]
struct Nest {
    templates: [bool; MOST],
    depth: usize,
    ghost in_bounds: { depth ≤ 16385 },
}

impl Nest {
    fn new() -> Nest {
        Nest {
            templates: [false; MOST],
            depth: 0,
        }
    }

    fn open(&mut self, template: bool) {
        if self.depth < MOST {
            self.templates[self.depth] = template;
            self.depth += 1;
        }
    }

    fn close(&mut self) {
        self.depth = self.depth.saturating_sub(1);
    }

    // A head opens a template and a tail closes it, braces the same.
    fn passed(&mut self, kind: usize) {
        match kind {
            Kind::TEMPLATE_HEAD => self.open(true),
            Kind::L_CURLY => self.open(false),
            Kind::TEMPLATE_TAIL | Kind::R_CURLY => self.close(),
            _ => {}
        }
    }

    // Whether a template is what encloses a token.
    fn in_template(&self) -> bool {
        0 < self.depth && self.templates[self.depth - 1]
    }
}

// ---- Words

// Where the cutter stands in a text: the next byte, whether a line break came before it, what is open there; whether the end is
// behind it.
#[derive(Drop)]
struct Cutter<'a> {
    text: &'a [u8],
    at: usize,
    new_line: bool,
    nest: Nest,
    ended: bool,
    ghost in_bounds: { at ≤ length text.now },
}

impl<'a> Cutter<'a> {
    fn new(text: &'a [u8]) -> Cutter<'a> {
        Cutter {
            text,
            at: 0,
            new_line: false,
            nest: Nest::new(),
            ended: false,
        }
    }

    // Past the blanks and comments before the next token.
    fn skip(&mut self) {
        while self.at < self.text.len() {
            let rest = &self.text[self.at..];
            let n = blank_len(rest);
            if n == 0 {
                return;
            }
            self.new_line |= rest[..n].iter().any(|b| matches!(b, b'\n' | b'\r'));
            self.at += n;
        }
    }

    // The word of the next token, of the end once and then of none.
    fn next(&mut self) -> Option<u64> {
        if self.ended {
            return None;
        }
        self.skip();
        let rest = &self.text[self.at..];
        let p = first_piece(rest, self.nest.in_template());
        let w = word(
            p.kind as u64,
            u64::from(self.new_line),
            0,
            p.len as u64,
            self.at as u64,
        );
        self.ended = p.kind == Kind::EOF;
        self.nest.passed(p.kind);
        self.at += p.len;
        self.new_line = false;
        Some(w)
    }
}

// The token words of a text, as many as there is room for, with the end; how many there are, so the loop counts.
pub fn cut(text: &[u8], words: &mut [u64]) -> usize
    ensures { (result ≤ 16385) × IsPrefixLen result words.new }
{
    let mut cutter = Cutter::new(text);
    let most = words.len().min(MOST);
    for i in 0..most {
        let Some(w) = cutter.next() else {
            return i;
        };
        words[i] = w;
    }
    most
}
