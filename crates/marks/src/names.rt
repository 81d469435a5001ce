// Names, names that are bound, and names with dots between.
ghost use Rattle.std.specs.Prelude.{◌≡◌, ◌+◌, ◌≤◌, ◌<◌, length};
ghost use Rattle.words.specs.Class.{bit_of};
ghost use Rattle.rules.specs.Names as rule;
ghost use Rattle.marks.specs.State.{Sound, Inside, Along, Stepped, named_mark};
ghost use Rattle.marks.specs.Told.{told_mark};
ghost use Rattle.marks.specs.Says.{Any, one, StartsNames, StartsBound};
ghost use Rattle.marks.specs.Names.{Speaks, one_name, StartsDots, MayName, MayBind};

use crate::notes::{Note, Noting, report_if};
use crate::state::{Given, Mark, Stop, end_byte, first_byte, kind_at, next};
use keys::store::append_name;
use words::cursor::word_at;
use words::kind::{Class, Kind, in_class};
use words::refusal::Refusal;
use words::token;

// The token at the cursor is the next name.
pub fn spell(words: &[u64], names: &mut [u64], m: Mark) -> Mark
    requires { Sound words.now × (m.at < length words.now) × (m.named ≤ m.at) }
    ensures { (result ≡ named_mark m) × Speaks words.now m names.old names.new }
{
    let word = word_at(words, m.at);
    append_name(names, m.named, token::start(word), token::length(word));
    Mark {
        at: m.at + 1,
        half: 0,
        named: m.named + 1,
        ..m
    }
}

// One name, of a class.
pub fn name(words: &[u64], names: &mut [u64], class: Class, m: Mark) -> Result<Mark, Stop>
    requires { Sound words.now × Inside (length words.now) m × (m.named ≤ m.at) × (bit_of class ≤ 1) }
    ensures starts_names { StartsNames one Any (one_name (bit_of class)) words.now m names.old (told_mark result).why (told_mark result).m names.new }
    ensures along { Along (length words.now) m (told_mark result).m × (m.at < (told_mark result).m.at + (told_mark result).why) }
{
    if !in_class(kind_at(words, m), class) {
        return Err(Stop {
            why: Refusal::Unexpected,
            m,
        });
    }
    Ok(spell(words, names, m))
}

// Whether a kind is that of a word that names a type of its own.
fn reserved(kind: usize) -> bool
    ensures { result ≡ rule.reserved kind }
{
    Kind::ANY <= kind && kind <= Kind::UNKNOWN
}

// One binding word that is bound to a type; diagnostic 13 if it is reserved.
pub fn bound(
    words: &[u64],
    names: &mut [u64],
    notes: &mut [u64; Noting::WORDS],
    given: Given,
    m: Mark,
) -> Result<Mark, Stop>
    requires { MayBind words.now given m }
    ensures starts_bound { StartsBound rule.bound words.now given m names.old notes.old (told_mark result) names.new notes.new }
    ensures stepped { Stepped (length words.now) given m (told_mark result) × (m.at < (told_mark result).m.at + (told_mark result).why) }
{
    let q = name(words, names, Class::BindingWord, m)?;
    report_if(
        reserved(kind_at(words, m)),
        notes,
        given,
        Note::ReservedName as usize,
        first_byte(words, m),
        end_byte(words, q),
        q,
    )
}

// As many dots as follow, each with a name.
pub fn dots(words: &[u64], names: &mut [u64], m: Mark) -> Result<Mark, Stop>
    requires { MayName words.now m }
    ensures starts_dots { StartsDots words.now m names.old (told_mark result) names.new }
    ensures along { Along (length words.now) m (told_mark result).m }
{
    let mut p = m;
    while kind_at(words, p) == Kind::DOT {
        p = name(words, names, Class::Name, next(p))?;
    }
    Ok(p)
}

// Names with dots between.
pub fn dotted_name(words: &[u64], names: &mut [u64], m: Mark) -> Result<Mark, Stop>
    requires { MayName words.now m }
    ensures starts_names { StartsNames (λ k. k) Any rule.dotted words.now m names.old (told_mark result).why (told_mark result).m names.new }
    ensures along { Along (length words.now) m (told_mark result).m × (m.at < (told_mark result).m.at + (told_mark result).why) }
{
    let q = name(words, names, Class::Name, m)?;
    dots(words, names, q)
}
