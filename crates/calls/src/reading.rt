// What the call that reads does: a check, a reading by the ring, and the key; or a refusal, after which nothing is left.
ghost use Rattle.std.specs.Prelude.{◌≡◌};
ghost use Rattle.words.specs.Check.{sound, check as checkOf};
ghost use Rattle.marks.specs.Tally.{Untallied};
ghost use Rattle.answers.specs.Reading.{Reads};

use answers::reading::{Counts, Refused, finish, refuse};
use checks::check::{Fault, check};
use keys::store;
use marks::notes::Noting;
use marks::state::{Given, Mark};
use readers::ring::ty;
use words::limits::OpenRules;
use words::refusal::Refusal;

// A sound list is read from a token on, conditionals on; its diagnostics are noted, and its type rules counted, in words of the call's own.
fn read_noting(
    text: &[u8],
    tokens: &[u64],
    start: usize,
    preserve_parens: bool,
    noting: &mut [u64; Noting::WORDS],
    nodes: &mut [u64],
    names: &mut [u64],
    notes: &mut [u64],
    key: &mut [u8],
) -> Result<Counts, Refused>
    requires { (checkOf text.now tokens.now start ≡ sound) × Untallied noting.old }
    ensures { Reads nodes names notes key text tokens start preserve_parens result }
{
    let given = Given {
        room: nodes.len() / store::RECORD,
        records: notes.len() / Noting::RECORD,
        parens: preserve_parens,
        left: OpenRules::MOST,
    };
    let m = Mark {
        at: start,
        half: 0,
        used: 0,
        named: 0,
        noted: 0,
    };
    match ty(text, tokens, nodes, names, noting, given, true, m) {
        Ok(a) => finish(text, noting, nodes, names, notes, key, a.m),
        Err(stop) => {
            let place = stop.m.cursor();
            let r = Refused {
                why: stop.why,
                token: place.at,
                half: place.half,
                byte: place.first_byte(tokens),
            };
            refuse(nodes, names, notes, key, r)
        }
    }
}

// The same, with those words.
fn read_sound(
    text: &[u8],
    tokens: &[u64],
    start: usize,
    preserve_parens: bool,
    nodes: &mut [u64],
    names: &mut [u64],
    notes: &mut [u64],
    key: &mut [u8],
) -> Result<Counts, Refused>
    requires { checkOf text.now tokens.now start ≡ sound }
    ensures { Reads nodes names notes key text tokens start preserve_parens result }
{
    let mut noting = [0u64; Noting::WORDS];
    read_noting(
        text,
        tokens,
        start,
        preserve_parens,
        &mut noting,
        nodes,
        names,
        notes,
        key,
    )
}

// Reads a type from the token `start` on.
pub fn read(
    text: &[u8],
    tokens: &[u64],
    start: usize,
    preserve_parens: bool,
    nodes: &mut [u64],
    names: &mut [u64],
    notes: &mut [u64],
    key: &mut [u8],
) -> Result<Counts, Refused>
    ensures { Reads nodes names notes key text tokens start preserve_parens result }
{
    match check(text, tokens, start) {
        Ok(()) => read_sound(
            text,
            tokens,
            start,
            preserve_parens,
            nodes,
            names,
            notes,
            key,
        ),
        Err(Fault::List) => {
            let r = Refused::nowhere(Refusal::BadList);
            refuse(nodes, names, notes, key, r)
        }
        Err(Fault::Token(token)) => {
            let r = Refused {
                token,
                ..Refused::nowhere(Refusal::BadToken)
            };
            refuse(nodes, names, notes, key, r)
        }
    }
}
