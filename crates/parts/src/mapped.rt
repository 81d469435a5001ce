// Mapped types, without the types in them.
ghost use Rattle.std.specs.Prelude.{◌≡◌, List, ℕ, ◌+◌, ◌≤◌, ◌<◌, length};
ghost use Rattle.rules.specs.State.{expect, read};
ghost use Rattle.rules.specs.Mapped as rule;
ghost use Rattle.marks.specs.State.{AnyGiven, view, given_of, next_mark, Sound, Inside, Moved, Along, Reached, place_of};
ghost use Rattle.marks.specs.Says.{SaysNumber};
ghost use Rattle.marks.specs.Told.{told, told_head};
ghost use Rattle.parts.specs.Mapped.{mapped_middle, mapped_choices, MakesClosed, close_curly, StartsMapped};
ghost use Rattle.marks.specs.Node.{MayPut};

use marks::names::name;
use marks::node::{Tag, put};
use marks::state::{Begin, Given, Head, Kids, Mark, Read, Stop, kind_at, next, past};
use words::kind::{Class, Kind};
use words::refusal::Refusal;

// readonly or `?` with its sign, by the node table's number: 0 for none, 1 plain, 2 with `+`, 3 with `-`.
fn modifier(words: &[u64], kind: usize, m: Mark) -> Result<Head, Stop>
    requires { Sound words.now × Inside (length words.now) m × (0 < kind) }
    ensures by_index { (text O : List ℕ) (given : AnyGiven) → SaysNumber (rule.modifier (given_of text words.now given) kind (view m O)) (told_head result) O }
    ensures moved { Moved (length words.now) m (told_head result).m × ((told_head result).choices ≤ 3) }
{
    let here = kind_at(words, m);
    if here == kind {
        return Ok(Head {
            choices: 1,
            m: next(m),
        });
    }
    if here == Kind::PLUS {
        return signed(words, kind, 2, next(m));
    }
    if here == Kind::MINUS {
        return signed(words, kind, 3, next(m));
    }
    Ok(Head { choices: 0, m })
}

// After a sign the word or mark must stand.
fn signed(words: &[u64], kind: usize, choices: usize, m: Mark) -> Result<Head, Stop>
    requires { Sound words.now × Inside (length words.now) m × (0 < kind) × (choices ≤ 3) }
    ensures by_index { (text O : List ℕ) (given : AnyGiven) → SaysNumber (expect (given_of text words.now given) kind (view m O) (read choices)) (told_head result) O }
    ensures moved { Moved (length words.now) m (told_head result).m × ((told_head result).choices ≤ 3) }
{
    if kind_at(words, m) != kind {
        return Err(Stop {
            why: Refusal::Unexpected,
            m,
        });
    }
    Ok(Head {
        choices,
        m: next(m),
    })
}

// From the `{` to the constraint: readonly, and the key.
pub fn mapped_head(words: &[u64], names: &mut [u64], m: Mark) -> Result<Head, Stop>
    requires { Sound words.now × (m.at < length words.now) × (m.named ≤ m.at) }
    ensures starts_mapped { StartsMapped words.now m names.old (told_head result) names.new }
    ensures along { Along (length words.now) (next_mark m) (told_head result).m × ((told_head result).choices ≤ 3) }
{
    let r = modifier(words, Kind::READONLY, next(m))?;
    let p = r.m;
    if kind_at(words, p) != Kind::L_BRACK {
        return Err(Stop {
            why: Refusal::Unexpected,
            m: p,
        });
    }
    let q = name(words, names, Class::BindingWord, next(p))?;
    if kind_at(words, q) != Kind::IN {
        return Err(Stop {
            why: Refusal::Unexpected,
            m: q,
        });
    }
    Ok(Head { m: next(q), ..r })
}

// From the `]` to the type: the `?`.
pub fn mapped_middle(words: &[u64], m: Mark) -> Result<Head, Stop>
    requires { Sound words.now × Inside (length words.now) m }
    ensures by_index { (text O : List ℕ) (given : AnyGiven) → SaysNumber (mapped_middle (given_of text words.now given) (view m O)) (told_head result) O }
    ensures moved { Moved (length words.now) m (told_head result).m × ((told_head result).choices ≤ 3) }
{
    if kind_at(words, m) != Kind::R_BRACK {
        return Err(Stop {
            why: Refusal::Unexpected,
            m,
        });
    }
    modifier(words, Kind::QUESTION, next(m))
}

// From behind the type to the `}`, and the node.
pub fn mapped_node(
    words: &[u64],
    nodes: &mut [u64],
    given: Given,
    b: Begin,
    choices: usize,
    k: Kids,
    m: Mark,
) -> Result<Read, Stop>
    requires { MayPut words.now nodes.old given b k m }
    ensures makes_closed { MakesClosed close_curly words.now given b choices k m nodes.old (told result) nodes.new }
    ensures reached { Reached (length words.now) given (place_of m) (m.used + 1) (told result).high (told result).why (told result).m }
{
    let p = past(words, Kind::SEMICOLON, m);
    if kind_at(words, p) != Kind::R_CURLY {
        return Err(Stop {
            why: Refusal::Unexpected,
            m: p,
        });
    }
    put(words, nodes, given, b, choices, k, next(p))
}

// The choices of a mapped type: readonly, the bit of its name type, `?`, the bit of its type.
pub fn mapped_choices(readonly: usize, named: usize, question: usize, typed: usize) -> usize
    requires { (readonly ≤ 3) × (named ≤ 1) × (question ≤ 3) × (typed ≤ 1) }
    ensures { result ≡ mapped_choices readonly named question typed }
{
    Tag::Mapped as usize + Tag::ALL * (readonly + 4 * (named + 2 * (question + 4 * typed)))
}
