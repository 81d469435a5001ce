// Type arguments, and the references that have them, without the types in them.
ghost use Rattle.std.specs.Prelude.{◌≡◌, true, List, ℕ, ◌+◌, ◌≤◌, ◌<◌, length};
ghost use Rattle.rules.specs.Arguments as rule;
ghost use Rattle.marks.specs.State.{AnyGiven, view, given_of, Sound, Inside, Along};
ghost use Rattle.marks.specs.Says.{Any, one, StartsNames};
ghost use Rattle.marks.specs.Node.{Put};
ghost use Rattle.marks.specs.Told.{told, told_mark, told_list};
ghost use Rattle.parts.specs.Told.{told_named};
ghost use Rattle.parts.specs.Arguments.{names_of, import_source, query_head, naming_head, NamingIs, NamedSmall, MakesNamed, OpenedAt, MayPutNamed, StartsDotted, StartsImport};
ghost use Rattle.marks.specs.Names.{MayName};

use marks::names::{dots, dotted_name, spell};
use marks::node::{COUNTS, Tag, opt_list, put};
use marks::state::{Begin, Entries, Given, Mark, Read, Stop, kind_at, next, on_line};
use words::kind::Kind;
use words::limits;
use words::refusal::Refusal;

// Whether a list opens here: a token that begins with `<` stands whole on the name's line.
pub fn opens(words: &[u64], m: Mark) -> bool
    ensures by_index { (text O : List ℕ) (given : AnyGiven) → result ≡ rule.opens (given_of text words.now given) (view m O) }
    ensures half_value { result ≡ true → (m.half ≡ 0) × (m.at < length words.now) }
{
    on_line(words, m)
        && m.half == 0
        && matches!(
            kind_at(words, m),
            Kind::L_ANGLE | Kind::SHIFT_LEFT | Kind::LT_EQ | Kind::SHIFT_LEFT_EQ
        )
}

// Past that `<`, be it the whole token or the half of one.
pub fn opened(words: &[u64], m: Mark) -> Mark
    requires { Sound words.now × (m.half ≡ 0) × (m.at < length words.now) }
    ensures opened_at { OpenedAt (length words.now) m result }
    ensures by_index { (text O : List ℕ) (given : AnyGiven) → view result O ≡ rule.opened (given_of text words.now given) (view m O) }
{
    if kind_at(words, m) == Kind::L_ANGLE {
        next(m)
    } else {
        Mark { half: 1, ..m }
    }
}

// A reference, typeof or import up to its arguments: its first choices, and how many names stand in its list.
#[derive(Clone, Copy)]
pub struct Named {
    pub choices: usize,
    pub scale: usize,
    pub count: usize,
    pub m: Mark,
}

// By the word that begins it.
pub fn named_head(words: &[u64], names: &mut [u64], m: Mark) -> Result<Named, Stop>
    requires { MayName words.now m }
    ensures starts_names { StartsNames names_of (NamingIs (told_named result)) naming_head words.now m names.old (told_named result).why (told_named result).m names.new }
    ensures along { Along (length words.now) m (told_named result).m × NamedSmall (length words.now) (told_named result) × (m.at < (told_named result).m.at + (told_named result).why) }
{
    let kind = kind_at(words, m);
    if kind == Kind::TYPEOF {
        return query(words, names, next(m));
    }
    if kind == Kind::IMPORT {
        return import(words, names, Tag::Import as usize, next(m));
    }
    reference(words, names, Tag::Reference as usize, m)
}

// Behind typeof: a name or an import.
fn query(words: &[u64], names: &mut [u64], m: Mark) -> Result<Named, Stop>
    requires { MayName words.now m }
    ensures starts_names { StartsNames names_of (NamingIs (told_named result)) query_head words.now m names.old (told_named result).why (told_named result).m names.new }
    ensures along { Along (length words.now) m (told_named result).m × NamedSmall (length words.now) (told_named result) × (m.at < (told_named result).m.at + (told_named result).why) }
{
    if kind_at(words, m) == Kind::IMPORT {
        return import(words, names, Tag::Import as usize + Tag::ALL, next(m));
    }
    reference(words, names, Tag::Typeof as usize, m)
}

// A name with its dots.
fn reference(words: &[u64], names: &mut [u64], choices: usize, m: Mark) -> Result<Named, Stop>
    requires { Sound words.now × Inside (length words.now) m × (m.named ≤ m.at) × (choices ≤ 128) }
    ensures starts_dotted { StartsDotted words.now choices m names.old (told_named result) names.new }
    ensures along { Along (length words.now) m (told_named result).m × NamedSmall (length words.now) (told_named result) × (m.at < (told_named result).m.at + (told_named result).why) }
{
    let q = dotted_name(words, names, m)?;
    Ok(Named {
        choices,
        scale: Tag::ALL,
        count: q.named - m.named,
        m: q,
    })
}

// An import after its word, whose source has to be a string; options would begin with a comma.
fn import_source(words: &[u64], names: &mut [u64], m: Mark) -> Result<Mark, Stop>
    requires { Sound words.now × Inside (length words.now) m × (m.named ≤ m.at) }
    ensures starts_names { StartsNames one Any import_source words.now m names.old (told_mark result).why (told_mark result).m names.new }
    ensures along { Along (length words.now) m (told_mark result).m × (m.at < (told_mark result).m.at + (told_mark result).why) }
{
    if kind_at(words, m) != Kind::L_PAREN {
        return Err(Stop {
            why: Refusal::Unexpected,
            m,
        });
    }
    let p = next(m);
    if kind_at(words, p) != Kind::STR {
        return Err(Stop {
            why: Refusal::ImportSource,
            m: p,
        });
    }
    let q = spell(words, names, p);
    if kind_at(words, q) == Kind::COMMA {
        return Err(Stop {
            why: Refusal::ImportOptions,
            m: q,
        });
    }
    if kind_at(words, q) != Kind::R_PAREN {
        return Err(Stop {
            why: Refusal::Unexpected,
            m: q,
        });
    }
    Ok(next(q))
}

// An import after its word: its source and its names.
fn import(words: &[u64], names: &mut [u64], choices: usize, m: Mark) -> Result<Named, Stop>
    requires { Sound words.now × Inside (length words.now) m × (m.named ≤ m.at) × (choices ≤ 128) }
    ensures starts_import { StartsImport words.now choices m names.old (told_named result) names.new }
    ensures along { Along (length words.now) m (told_named result).m × NamedSmall (length words.now) (told_named result) × (m.at < (told_named result).m.at + (told_named result).why) }
{
    let p = import_source(words, names, m)?;
    let q = dots(words, names, p)?;
    Ok(Named {
        choices,
        scale: 2 * Tag::ALL,
        count: q.named - p.named,
        m: q,
    })
}

// The node, whose two lists are looked at first.
pub fn named_node(
    words: &[u64],
    nodes: &mut [u64],
    given: Given,
    b: Begin,
    n: Named,
    l: Entries,
) -> Result<Read, Stop>
    requires { MayPutNamed words.now nodes.old given b (told_named (Ok n)) (told_list (Ok l)) }
    ensures makes_named { MakesNamed words.now given b (told_named (Ok n)) (told_list (Ok l)) nodes.old (told result) nodes.new }
    ensures put { Put given l.m (told result) }
{
    let k = l.kids;
    if limits::List::LONGEST < n.count || limits::List::LONGEST < k.count {
        return Err(Stop {
            why: Refusal::TooLong,
            m: l.m,
        });
    }
    let lists = n.count + COUNTS * opt_list(l.there, k.count);
    put(words, nodes, given, b, n.choices + n.scale * lists, k, l.m)
}
