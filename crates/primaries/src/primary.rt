// Primary: what begins here, and what holds no type.
ghost use Rattle.std.specs.Prelude.{◌≡◌, List, ℕ, Ok, ◌+◌, ◌-◌, ◌*◌, ◌≤◌, ◌<◌, ◌^◌, length};
ghost use Rattle.words.specs.Kind as kind;
ghost use Rattle.words.specs.Cursor.{kind_at};
ghost use Rattle.words.specs.Test.{among};
ghost use Rattle.keys.specs.Bits.{unit};
ghost use Rattle.rules.specs.State.{Reader};
ghost use Rattle.rules.specs.List.{position};
ghost use Rattle.rules.specs.Function as function;
ghost use Rattle.rules.specs.Primary as rule;
ghost use Rattle.marks.specs.State.{AnyGiven, view, given_of, Sound, Inside, Reached, place_of};
ghost use Rattle.marks.specs.Laid.{was};
ghost use Rattle.marks.specs.Says.{Says};
ghost use Rattle.marks.specs.List.{here};
ghost use Rattle.marks.specs.Told.{told};
ghost use Rattle.primaries.specs.Primary.{predicate_choices, literal_choices, SaysSpelled, SaysNegative, MakesParens, MayPutLiteral, MayPutSpelled, MayPutToken, SpeaksSubject};
ghost use Rattle.primaries.specs.Onward.{subject_at, subject_mark, StartIs, StartHas, ReferenceIs, ReferenceHas, SaysLiteral, StartsAs};
ghost use Rattle.marks.specs.Node.{MayPutAbout};

use marks::names::spell;
use marks::node::{Tag, put, put_about};
use marks::state::{
    Begin, Given, Head, Kids, Mark, Read, Stop, kind_after, kind_at, next, next_on_line,
};
use words::ahead::mapped_start;
use words::kind::{Class, Kind, in_class};
use words::refusal::Refusal;

// What a primary type begins as.
#[derive(Clone, Copy, Debug, PartialEq, Eq)]
pub enum Start {
    // a keyword, `this` alone
    Keyword,
    // a literal, a negative one, a whole template
    Literal,
    // `this` and `is` on its line
    This,
    Asserts,
    // a reference, typeof or import
    Name,
    Mapped,
    Object,
    Tuple,
    Parens,
    Template,
}

// Whether the return type begins as a predicate: some name, and `is` on its line.
pub fn predicates(words: &[u64], m: Mark) -> bool
    requires { m.at < 2 ^ 63 }
    ensures { (text O : List ℕ) (given : AnyGiven) → result ≡ function.predicates (given_of text words.now given) (view m O) }
{
    in_class(kind_at(words, m), Class::Name)
        && kind_after(words, m, 1) == Kind::IS
        && next_on_line(words, m)
}

// Whether a keyword stands here: null, void, or a type's word with no dot behind it.
fn is_keyword(words: &[u64], m: Mark) -> bool
    requires { m.at < 2 ^ 63 }
    ensures { (text O : List ℕ) (given : AnyGiven) → result ≡ rule.is_keyword (given_of text words.now given) (view m O) }
{
    let kind = kind_at(words, m);
    if kind == Kind::NULL || kind == Kind::VOID {
        return true;
    }
    Kind::ANY <= kind && kind <= Kind::UNKNOWN && kind_after(words, m, 1) != Kind::DOT
}

// Whether a kind is a literal's.
pub fn is_literal(kind: usize) -> bool
    ensures { result ≡ among rule.literals kind }
{
    matches!(
        kind,
        Kind::STR | Kind::NUMBER_LITERAL | Kind::BIG_INT_LITERAL | Kind::TRUE | Kind::FALSE
    )
}

// Whether a number or bigint stands after a `-`.
fn is_negative(words: &[u64], m: Mark) -> bool
    requires { m.at < 2 ^ 63 }
    ensures { (text O : List ℕ) (given : AnyGiven) → result ≡ rule.is_negative (given_of text words.now given) (view m O) }
{
    kind_at(words, m) == Kind::MINUS
        && matches!(
            kind_after(words, m, 1),
            Kind::NUMBER_LITERAL | Kind::BIG_INT_LITERAL
        )
}

// Whether asserts stands here with its subject on the same line.
fn is_assertion(words: &[u64], m: Mark) -> bool
    requires { m.at < 2 ^ 63 }
    ensures { (text O : List ℕ) (given : AnyGiven) → result ≡ rule.is_assertion (given_of text words.now given) (view m O) }
{
    kind_at(words, m) == Kind::ASSERTS
        && in_class(kind_after(words, m, 1), Class::Name)
        && next_on_line(words, m)
}

// Keywords, this and literals; if none stands here, the others.
pub fn primary_start(words: &[u64], m: Mark) -> Result<Start, Refusal>
    requires { Sound words.now × Inside (length words.now) m }
    ensures by_index { (text O : List ℕ) (given : AnyGiven) (T : Reader) → StartIs result (given_of text words.now given) T (view m O) }
    ensures start_has { StartHas result words.now m }
{
    if is_keyword(words, m) {
        return Ok(Start::Keyword);
    }
    if kind_at(words, m) == Kind::THIS {
        return Ok(this_start(words, m));
    }
    if is_literal(kind_at(words, m)) {
        return Ok(Start::Literal);
    }
    if is_negative(words, m) {
        return Ok(Start::Literal);
    }
    worded(words, m)
}

// A `this`, by what follows it.
fn this_start(words: &[u64], m: Mark) -> Start
    requires { (m.at < length words.now) × (m.at < 2 ^ 63) × (kind_at words.now m.at m.half ≡ kind.This) }
    ensures starts_as { StartsAs rule.this words.now m (Ok result) }
    ensures start_has { StartHas (Ok result) words.now m }
{
    if predicates(words, m) {
        Start::This
    } else {
        Start::Keyword
    }
}

// What asserts, typeof or import begins; if none does, what is enclosed.
fn worded(words: &[u64], m: Mark) -> Result<Start, Refusal>
    requires { m.at < 2 ^ 63 }
    ensures starts_as { StartsAs rule.worded words.now m result }
    ensures start_has { StartHas result words.now m }
{
    if is_assertion(words, m) {
        return Ok(Start::Asserts);
    }
    let kind = kind_at(words, m);
    if kind == Kind::TYPEOF || kind == Kind::IMPORT {
        return Ok(Start::Name);
    }
    enclosed(words, kind, m)
}

// What a mark or a template opens; if none does, a reference.
fn enclosed(words: &[u64], kind: usize, m: Mark) -> Result<Start, Refusal>
    requires { (m.at < 2 ^ 63) × (kind ≡ kind_at words.now m.at m.half) × (kind ≤ 255 * (length words.now - m.at)) }
    ensures starts_as { StartsAs rule.enclosed words.now m result }
    ensures start_has { StartHas result words.now m }
{
    match kind {
        Kind::L_CURLY => Ok(curly(words, m)),
        Kind::L_BRACK => Ok(Start::Tuple),
        Kind::L_PAREN => Ok(Start::Parens),
        Kind::NO_SUBSTITUTION_TEMPLATE => Ok(Start::Literal),
        Kind::TEMPLATE_HEAD => Ok(Start::Template),
        _ => other_start(kind),
    }
}

// A `{` opens a mapped type by the look-ahead of types.rs, else an object type.
fn curly(words: &[u64], m: Mark) -> Start
    requires { (m.at < length words.now) × (kind_at words.now m.at m.half ≡ kind.LCurly) }
    ensures starts_as { StartsAs rule.enclosed words.now m (Ok result) }
    ensures start_has { StartHas (Ok result) words.now m }
{
    if mapped_start(words, m.at) {
        Start::Mapped
    } else {
        Start::Object
    }
}

// A reference; the three prefix marks are known but refused.
fn other_start(kind: usize) -> Result<Start, Refusal>
    requires { kind < 256 }
    ensures reference_is { ReferenceIs kind result }
    ensures reference_has { ReferenceHas kind result }
{
    if in_class(kind, Class::BindingWord) {
        return Ok(Start::Name);
    }
    match kind {
        Kind::QUESTION | Kind::BANG | Kind::STAR => Err(Refusal::PrefixMark),
        _ => Err(Refusal::Unexpected),
    }
}

// ---- Nodes with no child

// The node table's number of a keyword.
fn keyword_number(kind: usize) -> usize
    ensures value { result ≡ position kind rule.keywords }
    ensures upper_bound { result ≤ 13 }
{
    match kind {
        Kind::ANY => 0,
        Kind::BIG_INT => 1,
        Kind::BOOLEAN => 2,
        Kind::NEVER => 3,
        Kind::NULL => 4,
        Kind::NUMBER => 5,
        Kind::OBJECT => 6,
        Kind::STRING => 7,
        Kind::SYMBOL => 8,
        Kind::THIS => 9,
        Kind::UNDEFINED => 10,
        Kind::UNKNOWN => 11,
        Kind::VOID => 12,
        _ => 13,
    }
}

// A keyword.
pub fn keyword(words: &[u64], nodes: &mut [u64], given: Given, m: Mark) -> Result<Read, Stop>
    requires { MayPutToken words.now nodes.old given m }
    ensures by_index { (text M O : List ℕ) → Says 0 (was m nodes.old M O) (rule.keyword (given_of text words.now given) (view m O)) (told result) nodes.new M O }
    ensures reached { Reached (length words.now) given (m.at * 2 + 2) (m.used + 1) (told result).high (told result).why (told result).m }
{
    let choices = Tag::Keyword as usize + Tag::ALL * keyword_number(kind_at(words, m));
    put(
        words,
        nodes,
        given,
        Begin::at(words, m),
        choices,
        Kids::none(),
        next(m),
    )
}

// A literal, a negative one, or a whole template.
pub fn literal(
    words: &[u64],
    nodes: &mut [u64],
    names: &mut [u64],
    given: Given,
    m: Mark,
) -> Result<Read, Stop>
    requires { MayPutLiteral words.now nodes.old given m }
    ensures says_literal { SaysLiteral words.now given m nodes.old names.old (told result) nodes.new names.new }
    ensures reached { Reached (length words.now) given (m.at * 2 + 2) (m.used + 1) (told result).high (told result).why (told result).m }
{
    let b = Begin::at(words, m);
    let kind = kind_at(words, m);
    if kind == Kind::TRUE {
        return put(
            words,
            nodes,
            given,
            b,
            LiteralChoices::TRUE,
            Kids::none(),
            next(m),
        );
    }
    if kind == Kind::FALSE {
        return put(
            words,
            nodes,
            given,
            b,
            LiteralChoices::FALSE,
            Kids::none(),
            next(m),
        );
    }
    if kind == Kind::MINUS {
        return literal_negative(words, nodes, names, given, b, next(m));
    }
    spelled(words, nodes, names, given, b, literal_choices(kind), m)
}

// The choices of literals: the tag, and which of seven.
#[derive(Clone, Copy)]
pub struct LiteralChoices {}

impl LiteralChoices {
    pub const STRING: usize = 3;

    pub const NUMBER: usize = 3 + 64;

    pub const BIG_INT: usize = 3 + 2 * 64;

    pub const TRUE: usize = 3 + 3 * 64;

    pub const FALSE: usize = 3 + 4 * 64;

    pub const NEGATIVE_NUMBER: usize = 3 + 5 * 64;

    pub const NEGATIVE_BIG_INT: usize = 3 + 6 * 64;
}

// The choices of a literal that is spelled, or of a template with no type.
fn literal_choices(kind: usize) -> usize
    ensures { result ≡ literal_choices kind }
{
    match kind {
        Kind::STR => LiteralChoices::STRING,
        Kind::NUMBER_LITERAL => LiteralChoices::NUMBER,
        Kind::BIG_INT_LITERAL => LiteralChoices::BIG_INT,
        _ => Tag::Template as usize,
    }
}

// A node of one name, the token at m.
pub fn spelled(
    words: &[u64],
    nodes: &mut [u64],
    names: &mut [u64],
    given: Given,
    b: Begin,
    choices: usize,
    m: Mark,
) -> Result<Read, Stop>
    requires { MayPutSpelled words.now nodes.old given b m }
    ensures says_spelled { SaysSpelled words.now given b choices m nodes.old names.old (told result) nodes.new names.new }
    ensures reached { Reached (length words.now) given (m.at * 2 + 2) (m.used + 1) (told result).high (told result).why (told result).m }
{
    let q = spell(words, names, m);
    put(words, nodes, given, b, choices, Kids::none(), q)
}

// A literal after its sign, which is no part of its spelling.
fn literal_negative(
    words: &[u64],
    nodes: &mut [u64],
    names: &mut [u64],
    given: Given,
    b: Begin,
    m: Mark,
) -> Result<Read, Stop>
    requires { MayPutSpelled words.now nodes.old given b m }
    ensures says_negative { SaysNegative words.now given b m nodes.old names.old (told result) nodes.new names.new }
    ensures reached { Reached (length words.now) given (m.at * 2 + 2) (m.used + 1) (told result).high (told result).why (told result).m }
{
    if kind_at(words, m) == Kind::NUMBER_LITERAL {
        return spelled(
            words,
            nodes,
            names,
            given,
            b,
            LiteralChoices::NEGATIVE_NUMBER,
            m,
        );
    }
    spelled(
        words,
        nodes,
        names,
        given,
        b,
        LiteralChoices::NEGATIVE_BIG_INT,
        m,
    )
}

// ---- Brackets

// From the `)` due here on: a node only if asked for.
pub fn parens_node(
    words: &[u64],
    nodes: &mut [u64],
    given: Given,
    b: Begin,
    high: usize,
    m: Mark,
) -> Result<Read, Stop>
    requires { MayPutAbout words.now nodes.old given b high m }
    ensures makes_parens { MakesParens words.now given b high m nodes.old (told result) nodes.new }
    ensures reached { Reached (length words.now) given (place_of m) m.used (told result).high (told result).why (told result).m }
{
    if kind_at(words, m) != Kind::R_PAREN {
        return Err(Stop {
            why: Refusal::Unexpected,
            m,
        });
    }
    let q = next(m);
    if given.parens {
        return put_about(words, nodes, given, b, Tag::Parens as usize, high, q);
    }
    Ok(Read { high, m: q })
}

// ---- Predicates

// A predicate up to its `is`: asserts, if it is one, and the subject, which is a name or this.
pub fn subject(words: &[u64], names: &mut [u64], asserts: bool, m: Mark) -> Head
    requires { Sound words.now × (m.at + unit asserts < length words.now) × (m.named ≤ m.at) }
    ensures speaks_subject { SpeaksSubject (subject_at asserts) words.now m names.old result.m names.new }
    ensures choices_value { result.choices ≡ predicate_choices asserts (here words.now kind.This (subject_mark asserts m)) }
    ensures at_value { (result.m.at ≡ m.at + unit asserts + 1) × (result.m.half ≡ 0) × (result.m.used ≡ m.used) × (result.m.noted ≡ m.noted) × (m.named ≤ result.m.named) × (result.m.named ≤ m.named + 1) }
{
    if asserts {
        subject_at(words, names, Tag::Predicate as usize + Tag::ALL, next(m))
    } else {
        subject_at(words, names, Tag::Predicate as usize, m)
    }
}

// The subject at m.
fn subject_at(words: &[u64], names: &mut [u64], choices: usize, m: Mark) -> Head
    requires { Sound words.now × (m.at < length words.now) × (m.named ≤ m.at) × (choices ≤ 2 ^ 32) }
    ensures speaks_subject { SpeaksSubject (λ s. s) words.now m names.old result.m names.new }
    ensures choices_value { result.choices ≡ choices + 128 * unit (here words.now kind.This m) }
    ensures at_value { (result.m.at ≡ m.at + 1) × (result.m.half ≡ 0) × (result.m.used ≡ m.used) × (result.m.noted ≡ m.noted) × (m.named ≤ result.m.named) × (result.m.named ≤ m.named + 1) }
{
    if kind_at(words, m) == Kind::THIS {
        Head {
            choices: choices + 2 * Tag::ALL,
            m: next(m),
        }
    } else {
        Head {
            choices,
            m: spell(words, names, m),
        }
    }
}
