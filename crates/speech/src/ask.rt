// What the arguments ask for.
use crate::put::{Shape, copy};
use lines::given::argument;
use lines::line::Out;
use std::env::FillError;
use std::rt::Env;

// What is printed.
#[derive(Clone, Copy, Debug, PartialEq, Eq)]
pub enum Form {
    Key,
    Tree,
    Json,
    All,
}

// Where a text stands: in the argument of a number, in the file that this names, on standard input.
#[derive(Clone, Copy, Debug, PartialEq, Eq)]
pub enum Place {
    Argument(usize),
    File(usize),
    Input,
}

// What is read: one type or key, a type a line, or the two arguments that hold two keys or types.
#[derive(Clone, Copy, Debug, PartialEq, Eq)]
pub enum Source {
    Type(Place),
    Key(Place),
    Lines,
    Keys(usize, usize),
    Types(usize, usize),
    Help,
    Version,
}

// One of two that are compared.
#[derive(Clone, Copy, Debug, PartialEq, Eq)]
pub enum Side {
    Left,
    Right,
}

// How a type is read and printed: the form, brackets, the most nodes and bytes of key to lend, the number of the text's first line;
// the side, where two are compared.
#[derive(Clone, Copy)]
pub struct Job {
    pub form: Form,
    pub parens: bool,
    pub room: usize,
    pub space: usize,
    pub line: usize,
    pub side: Option<Side>,
}

// What is asked for: what to read, and how it is read and printed.
#[derive(Clone, Copy)]
pub struct Asked {
    pub source: Source,
    pub job: Job,
}

// ---- What is wrong

// What is wrong, and in which argument.
#[derive(Clone, Copy, Debug, PartialEq, Eq)]
pub enum Wrong {
    Unknown(usize),
    Second(usize),
    Missing(usize),
    Number(usize),
    Nothing,
    Long(usize),
}

impl Wrong {
    // In words, before the argument.
    fn words(self) -> &'static str {
        match self {
            Wrong::Unknown(_) => "there is no option",
            Wrong::Second(_) => "more than one thing to read; the second is",
            Wrong::Missing(_) => "a value is missing after",
            Wrong::Number(_) => "not a number of at most nine digits:",
            Wrong::Nothing => "no type was given",
            Wrong::Long(_) => "an argument is too long",
        }
    }

    // The argument's number.
    fn argument(self) -> Option<usize> {
        match self {
            Wrong::Unknown(i)
            | Wrong::Second(i)
            | Wrong::Missing(i)
            | Wrong::Number(i)
            | Wrong::Long(i) => Some(i),
            Wrong::Nothing => None,
        }
    }
}

// One line on what is wrong.
pub fn complain<R: Env>(rt: &R, wrong: Wrong, buffer: &mut [u8]) {
    let mut out = Out::new();
    out.bytes(b"typekey: ");
    out.bytes(wrong.words().as_bytes());
    if let Some(i) = wrong.argument() {
        let n = argument(rt, i, buffer);
        out.byte(b' ');
        copy(&mut out, buffer, 0, n.min(200), Shape::Shown);
    }
    out.bytes(b"; typekey --help says how it is used\n");
    out.flush_to(2);
}

// ---- The options

// What an option takes from the argument behind it; the second of two has the number of the first.
#[derive(Clone, Copy)]
enum Value {
    File,
    Key,
    Room,
    Space,
    Keys,
    Types,
    SecondKey(usize),
    SecondType(usize),
}

// What an option says.
#[derive(Clone, Copy)]
enum Choice {
    Print(Form),
    Parens,
    Read(Source),
    Take(Value),
    TextsFollow,
}

const OPTIONS: [(&str, Choice); 16] = [
    ("--key", Choice::Print(Form::Key)),
    ("--tree", Choice::Print(Form::Tree)),
    ("--json", Choice::Print(Form::Json)),
    ("--all", Choice::Print(Form::All)),
    ("--parens", Choice::Parens),
    ("--batch", Choice::Read(Source::Lines)),
    ("--help", Choice::Read(Source::Help)),
    ("--version", Choice::Read(Source::Version)),
    ("--file", Choice::Take(Value::File)),
    ("--back", Choice::Take(Value::Key)),
    ("--room", Choice::Take(Value::Room)),
    ("--space", Choice::Take(Value::Space)),
    ("--", Choice::TextsFollow),
    ("-", Choice::Read(Source::Type(Place::Input))),
    ("--diff", Choice::Take(Value::Keys)),
    ("--diff-types", Choice::Take(Value::Types)),
];

// Whether a word is the first name of a list, or the first few with a `|` behind each but the last.
fn begins(list: &[(&str, Choice)], word: &[u8]) -> bool {
    let Some(((name, _), others)) = list.split_first() else {
        return false;
    };
    match word.strip_prefix(name.as_bytes()) {
        Some([]) => true,
        Some([b'|', rest @ ..]) => begins(others, rest),
        _ => false,
    }
}

// The option that a word is, if it is one.
fn option_of(word: &[u8]) -> Option<Choice> {
    for (i, (_, choice)) in OPTIONS.iter().enumerate() {
        if begins(&OPTIONS[i..], word) {
            return Some(*choice);
        }
    }
    None
}

// A number of at most nine digits, zeros before it aside.
fn number(word: &[u8]) -> Option<usize> {
    if word.is_empty() {
        return None;
    }
    let mut n: usize = 0;
    for &b in word {
        if !b.is_ascii_digit() || 99_999_999 < n {
            return None;
        }
        n = n * 10 + usize::from(b - b'0');
    }
    Some(n)
}

// Where a key stands that an argument gives: a single `-` says standard input.
fn place_of(i: usize, word: &[u8]) -> Place {
    match word {
        b"-" => Place::Input,
        _ => Place::Argument(i),
    }
}

// ---- The arguments

// An option that waits for its value.
#[derive(Clone, Copy)]
struct Waiting {
    value: Value,
    option: usize,
}

// What the arguments so far ask for: what to print and to read; brackets, nodes and bytes to lend; the option that waits for its
// value; whether only texts follow.
#[derive(Clone, Copy)]
struct Asking {
    form: Option<Form>,
    source: Option<Source>,
    parens: bool,
    room: usize,
    space: usize,
    waits: Option<Waiting>,
    only_texts: bool,
}

impl Asking {
    fn new() -> Asking {
        Asking {
            form: None,
            source: None,
            parens: false,
            room: 1_000_000_000,
            space: 1_000_000_000,
            waits: None,
            only_texts: false,
        }
    }

    // A source: there may be one only.
    fn read(&mut self, source: Source, i: usize) -> Result<(), Wrong> {
        if self.source.is_some() {
            return Err(Wrong::Second(i));
        }
        self.source = Some(source);
        Ok(())
    }

    fn option(&mut self, choice: Choice, i: usize) -> Result<(), Wrong> {
        match choice {
            Choice::Print(form) => self.form = Some(form),
            Choice::Parens => self.parens = true,
            Choice::Read(source) => self.read(source, i)?,
            Choice::Take(value) => self.waits = Some(Waiting { value, option: i }),
            Choice::TextsFollow => self.only_texts = true,
        }
        Ok(())
    }

    // The value that an option waits for.
    fn value(&mut self, w: Waiting, i: usize, word: &[u8]) -> Result<(), Wrong> {
        match w.value {
            Value::File => self.read(Source::Type(Place::File(i)), i)?,
            Value::Key => self.read(Source::Key(place_of(i, word)), i)?,
            Value::Room => self.room = number(word).ok_or(Wrong::Number(i))?,
            Value::Space => self.space = number(word).ok_or(Wrong::Number(i))?,
            Value::Keys => self.second(w, Value::SecondKey(i)),
            Value::Types => self.second(w, Value::SecondType(i)),
            Value::SecondKey(first) => self.read(Source::Keys(first, i), i)?,
            Value::SecondType(first) => self.read(Source::Types(first, i), i)?,
        }
        Ok(())
    }

    // The second of two values is waited for.
    fn second(&mut self, w: Waiting, value: Value) {
        self.waits = Some(Waiting { value, ..w });
    }

    // A word that no option waits for.
    fn word(&mut self, i: usize, word: &[u8]) -> Result<(), Wrong> {
        if self.only_texts {
            return self.read(Source::Type(Place::Argument(i)), i);
        }
        match option_of(word) {
            Some(choice) => self.option(choice, i),
            None if word.starts_with(b"--") => Err(Wrong::Unknown(i)),
            None => self.read(Source::Type(Place::Argument(i)), i),
        }
    }

    // One argument further.
    fn further(&mut self, i: usize, word: &[u8]) -> Result<(), Wrong> {
        match self.waits.take() {
            Some(w) => self.value(w, i, word),
            None => self.word(i, word),
        }
    }

    // The form, where none was asked for: keys for lines, all for one type.
    fn form_for(self, source: Source) -> Form {
        match source {
            Source::Lines => self.form.unwrap_or(Form::Key),
            _ => self.form.unwrap_or(Form::All),
        }
    }

    // What is asked for, unless something is still missing when all arguments are there.
    fn finished(self) -> Result<Asked, Wrong> {
        if let Some(w) = self.waits {
            return Err(Wrong::Missing(w.option));
        }
        let source = self.source.ok_or(Wrong::Nothing)?;
        let job = Job {
            form: self.form_for(source),
            parens: self.parens,
            room: self.room,
            space: self.space,
            line: 1,
            side: None,
        };
        Ok(Asked { source, job })
    }
}

// All arguments.
pub fn all_arguments<R: Env>(rt: &R, buffer: &mut [u8]) -> Result<Asked, Wrong> {
    let mut asking = Asking::new();
    for i in 1..usize::MAX {
        match rt.arg(i, buffer) {
            Ok(n) => asking.further(i, &buffer[..n])?,
            Err(FillError::NotPresent) => break,
            Err(_) => return Err(Wrong::Long(i)),
        }
    }
    asking.finished()
}
