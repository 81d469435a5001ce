// Refusals, diagnostics and keywords in words.
use lines::line::Out;
use noted::Note;
use speech::ask::Side;
use speech::put::{Shape, copy, pick};
use words::refusal::Refusal;

// A word.
pub fn word(out: &mut Out, text: &str) {
    out.bytes(text.as_bytes());
}

// Which of two things is spoken of, if there are two.
pub fn side(out: &mut Out, side: Option<Side>) {
    match side {
        Some(Side::Left) => out.bytes(b"left: "),
        Some(Side::Right) => out.bytes(b"right: "),
        None => {}
    }
}

// The name of a refusal.
fn name(refusal: Refusal) -> &'static str {
    match refusal {
        Refusal::BadList => "BadList",
        Refusal::BadToken => "BadToken",
        Refusal::Unexpected => "Unexpected",
        Refusal::TooDeep => "TooDeep",
        Refusal::TooTall => "TooTall",
        Refusal::TooLong => "TooLong",
        Refusal::NoRoom => "NoRoom",
        Refusal::ManyNotes => "ManyNotes",
        Refusal::BadKey => "BadKey",
        Refusal::NoSpace => "NoSpace",
        Refusal::PrefixMark => "PrefixMark",
        Refusal::ParameterModifier => "ParameterModifier",
        Refusal::DefaultValue => "DefaultValue",
        Refusal::MisplacedThis => "MisplacedThis",
        Refusal::RestNotLast => "RestNotLast",
        Refusal::TypeParameterModifier => "TypeParameterModifier",
        Refusal::ImportSource => "ImportSource",
        Refusal::ImportOptions => "ImportOptions",
        Refusal::ManyTrials => "ManyTrials",
        Refusal::ManyDifferences => "ManyDifferences",
        Refusal::MemberForm => "MemberForm",
    }
}

// What a refusal means; `ends` where it is at the text's end.
fn meaning(refusal: Refusal, ends: bool) -> &'static str {
    match refusal {
        Refusal::BadList => "the text has over 65,535 bytes or over 16,384 tokens",
        Refusal::BadToken => "a word with a backslash is not read",
        Refusal::Unexpected if ends => "the text ends here, and the type does not",
        Refusal::Unexpected => "no rule takes this token",
        Refusal::TooDeep => "a type here would be the 65th open",
        Refusal::TooTall => "the tree would be over 256 nodes high",
        Refusal::TooLong => "a list has over 4,095 entries",
        Refusal::NoRoom => "no room is left for a node",
        Refusal::ManyNotes => "there would be over 32 diagnostics",
        Refusal::BadKey => "this field is not as a key has it",
        Refusal::NoSpace => "the key or its spellings do not fit the space",
        _ => unread(refusal),
    }
}

// What the others mean.
fn unread(refusal: Refusal) -> &'static str {
    match refusal {
        Refusal::PrefixMark => {
            "a ?, ! or * before a type is not supported; ? and ! may stand behind it"
        }
        Refusal::ParameterModifier => "a modifier before a parameter is not supported",
        Refusal::DefaultValue => "a default value is not supported here; a ? behind the name is",
        Refusal::MisplacedThis => "this has to be the first parameter, and not a rest",
        Refusal::RestNotLast => "nothing may follow a rest parameter, not even a comma",
        Refusal::TypeParameterModifier => {
            "const, in or out before a type parameter is not supported"
        }
        Refusal::ImportSource => "the source of an import has to be a string",
        Refusal::ImportOptions => "options of an import are not supported; only its source is read",
        Refusal::ManyTrials => "more than four constraints of infer would be tried at once",
        Refusal::MemberForm => {
            "a computed name, an accessor or a modifier other than readonly is not supported"
        }
        _ => "",
    }
}

// A refusal by its name.
pub fn refusal(out: &mut Out, refusal: Refusal) {
    word(out, name(refusal));
}

// What a refusal means; `ends` where it is at the text's end.
pub fn why(out: &mut Out, refusal: Refusal, ends: bool) {
    word(out, meaning(refusal, ends));
}

// The number of the diagnostic of a reserved name.
const RESERVED: usize = 13;

// A diagnostic in words, by its number, which is what the words of a reading hold (`noted::Note` promises just that).
pub fn diagnostic(number: usize) -> &'static str {
    match number {
        1 => "empty type parameters",
        2 => "empty arguments",
        3 => "this on a constructor",
        4 => "required element after an optional one",
        5 => "rest after a label",
        6 => "? after a labelled type",
        7 => "optional and rest",
        8 => "? on an index parameter",
        9 => "comma after an index parameter",
        10 => "index parameter of a literal type",
        11 => "index parameter of a keyword type that cannot be an index",
        12 => "not exactly one index parameter",
        RESERVED => "reserved name",
        _ => "",
    }
}

// The word of a keyword.
pub fn keyword(out: &mut Out, number: usize) {
    pick(
        out,
        &[
            "any",
            "bigint",
            "boolean",
            "never",
            "null",
            "number",
            "object",
            "string",
            "symbol",
            "this",
            "undefined",
            "unknown",
            "void",
        ],
        number,
    );
}

// What to do about a diagnostic of a text, where its words leave that open.
pub fn hint(out: &mut Out, text: &[u8], n: Note) {
    if n.number == RESERVED {
        out.bytes(b": ");
        copy(out, text, n.first, n.end, Shape::Shown);
        out.bytes(b" names a type of its own; choose another name");
    }
}
