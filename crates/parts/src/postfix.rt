// Postfix marks.
ghost use Rattle.std.specs.Prelude.{◌≡◌, List, ℕ, ◌+◌, ◌<◌, ◌^◌, length};
ghost use Rattle.rules.specs.Postfix as rule;
ghost use Rattle.marks.specs.State.{AnyGiven, view, given_of, Reached, place_of};
ghost use Rattle.marks.specs.Told.{told};
ghost use Rattle.parts.specs.Mapped.{MakesClosed, close_square};
ghost use Rattle.parts.specs.Postfix.{MakesArray};
ghost use Rattle.marks.specs.Node.{MayPut, MayPutAbout};

use marks::node::{Tag, put};
use marks::state::{Begin, Given, Kids, Mark, Read, Stop, kind_at, next, on_line};
use words::ahead::starter;
use words::kind::Kind;
use words::refusal::Refusal;

// Whether a mark follows on the line; a `?` that a type could follow is none.
pub fn suffixed(words: &[u64], m: Mark) -> bool
    requires { m.at < 2 ^ 62 }
    ensures { (text O : List ℕ) (given : AnyGiven) → result ≡ rule.suffixed (given_of text words.now given) (view m O) }
{
    if !on_line(words, m) {
        return false;
    }
    match kind_at(words, m) {
        Kind::BANG | Kind::L_BRACK => true,
        Kind::QUESTION => !starter(words, m.at + 1),
        _ => false,
    }
}

// An array: the `]` follows at once.
pub fn array(
    words: &[u64],
    nodes: &mut [u64],
    given: Given,
    b: Begin,
    high: usize,
    m: Mark,
) -> Result<Read, Stop>
    requires { MayPutAbout words.now nodes.old given b high m }
    ensures makes_array { MakesArray words.now given b high m nodes.old (told result) nodes.new }
    ensures reached { Reached (length words.now) given (place_of m) (m.used + 1) (told result).high (told result).why (told result).m }
{
    bracketed(
        words,
        nodes,
        given,
        b,
        Tag::Array as usize,
        Kids::one(m.used, high),
        m,
    )
}

// A node that ends with the `]` due here.
pub fn bracketed(
    words: &[u64],
    nodes: &mut [u64],
    given: Given,
    b: Begin,
    choices: usize,
    k: Kids,
    m: Mark,
) -> Result<Read, Stop>
    requires { MayPut words.now nodes.old given b k m }
    ensures makes_closed { MakesClosed close_square words.now given b choices k m nodes.old (told result) nodes.new }
    ensures reached { Reached (length words.now) given (place_of m) (m.used + 1) (told result).high (told result).why (told result).m }
{
    if kind_at(words, m) != Kind::R_BRACK {
        return Err(Stop {
            why: Refusal::Unexpected,
            m,
        });
    }
    put(words, nodes, given, b, choices, k, next(m))
}
