// A type of one token, read at once.
ghost use Rattle.std.specs.Prelude.{◌≡◌, ◌+◌, ◌*◌, length};
ghost use Rattle.words.specs.Test.{among};
ghost use Rattle.marks.specs.State.{Reached};
ghost use Rattle.marks.specs.Told.{told};
ghost use Rattle.primaries.specs.Lone.{whole_types, onward_kinds, is_lone, MayPutLone, SaysLone};

use crate::primary::{is_literal, keyword, literal, spelled};
use marks::node::Tag;
use marks::state::{Begin, Given, Mark, Read, Stop, kind_at};
use words::kind::Kind;

// Whether a token of a kind can be a whole type.
fn is_whole(kind: usize) -> bool
    ensures { result ≡ among whole_types kind }
{
    matches!(
        kind,
        Kind::WORD
            | Kind::NUMBER_LITERAL
            | Kind::BIG_INT_LITERAL
            | Kind::STR
            | Kind::TRUE
            | Kind::FALSE
            | Kind::ANY
            | Kind::BIG_INT
            | Kind::BOOLEAN
            | Kind::NEVER
            | Kind::NUMBER
            | Kind::OBJECT
            | Kind::STRING
            | Kind::SYMBOL
            | Kind::UNDEFINED
            | Kind::UNKNOWN
            | Kind::NULL
            | Kind::VOID
    )
}

// Whether a kind goes on with such a type before it: a dot, arguments, a postfix mark, an `&`.
fn goes_on(kind: usize) -> bool
    ensures { result ≡ among onward_kinds kind }
{
    matches!(
        kind,
        Kind::L_BRACK
            | Kind::L_ANGLE
            | Kind::SHIFT_LEFT
            | Kind::LT_EQ
            | Kind::SHIFT_LEFT_EQ
            | Kind::AMP
            | Kind::QUESTION
            | Kind::DOT
            | Kind::BANG
    )
}

// Whether a token is a whole type, by its kind and the next one's.
pub fn is_lone(kind: usize, next: usize) -> bool
    ensures { result ≡ is_lone kind next }
{
    is_whole(kind) && !goes_on(next)
}

// That type: a name, a literal or a keyword.
pub fn lone(
    words: &[u64],
    nodes: &mut [u64],
    names: &mut [u64],
    given: Given,
    m: Mark,
) -> Result<Read, Stop>
    requires { MayPutLone words.now nodes.old given m }
    ensures says_lone { SaysLone words.now given m nodes.old names.old (told result) nodes.new names.new }
    ensures reached { Reached (length words.now) given (m.at * 2 + 2) (m.used + 1) (told result).high (told result).why (told result).m }
{
    let kind = kind_at(words, m);
    if kind == Kind::WORD {
        let b = Begin::at(words, m);
        return spelled(
            words,
            nodes,
            names,
            given,
            b,
            Tag::Reference as usize + Tag::ALL,
            m,
        );
    }
    if is_literal(kind) {
        return literal(words, nodes, names, given, m);
    }
    keyword(words, nodes, given, m)
}
