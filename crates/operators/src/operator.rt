// Operators: the chain of prefixes, without what stands behind it.
ghost use Rattle.std.specs.Prelude.{◌≡◌, ◌+◌, ◌≤◌, ◌<◌, length};
ghost use Rattle.words.specs.Test.{among};
ghost use Rattle.rules.specs.List.{position};
ghost use Rattle.rules.specs.Operator as rule;
ghost use Rattle.marks.specs.State.{Sound, Inside, Moved};
ghost use Rattle.marks.specs.Told.{told};
ghost use Rattle.operators.specs.Operator.{PutAll, MakesOperators, MayPutOperators, PassesOperators};

use marks::node::{Tag, put_about};
use marks::state::{Begin, Given, Mark, Read, Stop, kind_at, next};
use words::cursor::{whole_kind, word_at};
use words::kind::Kind;
use words::token;

// Whether a kind is keyof, unique or readonly.
fn operates(kind: usize) -> bool
    ensures { result ≡ among rule.operators kind }
{
    matches!(kind, Kind::KEY_OF | Kind::UNIQUE | Kind::READONLY)
}

// Which of keyof, unique, readonly it is, by the node table's number.
fn operator_number(kind: usize) -> usize
    ensures { (result ≡ position kind rule.operators) × (result ≤ 3) }
{
    match kind {
        Kind::KEY_OF => 0,
        Kind::UNIQUE => 1,
        Kind::READONLY => 2,
        _ => 3,
    }
}

// Past a chain of prefixes.
pub fn past_operators(words: &[u64], m: Mark) -> Mark
    requires { Sound words.now × Inside (length words.now) m }
    ensures passes_operators { PassesOperators words.now m result }
    ensures moved { Moved (length words.now) m result × (m.at < result.at + 1) }
{
    let mut p = m;
    while operates(kind_at(words, p)) {
        p = next(p);
    }
    p
}

// The nodes of the prefixes from token `from` up to token `to`, the last one first, about what was read behind them.
pub fn put_operators(
    words: &[u64],
    nodes: &mut [u64],
    given: Given,
    name: usize,
    from: usize,
    to: usize,
    a: Read,
) -> Result<Read, Stop>
    requires { MayPutOperators words.now nodes.old given name from to (told (Ok a)) }
    ensures makes_operators { MakesOperators words.now given name from to (told (Ok a)) nodes.old (told result) nodes.new }
    ensures put_all { PutAll given a.m (told result) }
{
    let mut r = a;
    for i in (from..to).rev() {
        let b = Begin {
            first: token::start(word_at(words, i)),
            name,
        };
        let choices = Tag::Operator as usize + Tag::ALL * operator_number(whole_kind(words, i));
        r = put_about(words, nodes, given, b, choices, r.high, r.m)?;
    }
    Ok(r)
}
