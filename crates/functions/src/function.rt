// Function types, without the types in them.
ghost use Rattle.std.specs.Prelude.{◌≡◌, List, true, ℕ, ◌+◌, ◌*◌, ◌≤◌, ◌<◌, ◌^◌, ltb, length};
ghost use Rattle.words.specs.Test.{◌and◌, ◌or◌};
ghost use Rattle.words.specs.Limits.{longest, tallest};
ghost use Rattle.words.specs.Kind as kind;
ghost use Rattle.words.specs.Ahead.{function_start};
ghost use Rattle.words.specs.Cursor.{first_byte, end_byte};
ghost use Rattle.keys.specs.Limits.{record_words};
ghost use Rattle.keys.specs.Bits.{unit};
ghost use Rattle.rules.specs.TypeRule as type;
ghost use Rattle.rules.specs.TypeParameters as types;
ghost use Rattle.rules.specs.Function as rule;
ghost use Rattle.marks.specs.State.{AnyGiven, view, given_of, next_mark, Sound, Inside, Moved, Along, Stepped, Under, Reached, place_of};
ghost use Rattle.marks.specs.Says.{StartsBound};
ghost use Rattle.marks.specs.List.{here, Separates};
ghost use Rattle.marks.specs.Node.{list_choices, list_scale};
ghost use Rattle.marks.specs.Told.{told, told_mark, told_head};
ghost use Rattle.functions.specs.Told.{told_params, told_why};
ghost use Rattle.functions.specs.Function.{why_none, HeadIs, type_parameter_head, Opens, freed_mark, before_this, behind_this, freed_used, this_scale, new_choices, call_choices, function_choices, constructor_choices, MakesFunction, LinksParams, MayPutConstructor, MayPutFunction, StartsParameter};
ghost use Rattle.marks.specs.Names.{MayName, MayBind};

use marks::names::{bound, name};
use marks::node::{COUNTS, Tag, link, opt_list, put};
use marks::notes::{Note, Noting, report_if};
use marks::state::{
    Begin, Entries, Given, Head, Kids, Mark, Read, Stop, end_byte, first_byte, kind_after, kind_at,
    next, past,
};
use words::ahead::{FunctionStart, function_start, modifies};
use words::kind::{Class, Kind, in_class};
use words::limits;
use words::refusal::Refusal;

// Function start: one of its cases holds.
pub fn begins(words: &[u64], m: Mark) -> bool
    requires { m.at < 2 ^ 61 }
    ensures { result ≡ type.begins (function_start words.now m.at m.half) }
{
    !matches!(function_start(words, m.cursor()), FunctionStart::Nothing)
}

// A function type up to its type parameters: where it begins, whether abstract and new stood there, where they ended.
#[derive(Clone, Copy)]
pub struct FunctionHead {
    pub b: Begin,
    pub is_abstract: bool,
    pub is_new: bool,
    pub m: Mark,
}

pub fn function_head(words: &[u64], m: Mark) -> FunctionHead
    requires { Sound words.now × Inside (length words.now) m }
    ensures head_is { HeadIs words.now m result }
    ensures moved { Moved (length words.now) m result.m × (result.b.first < 2 ^ 32) }
{
    let p = past(words, Kind::ABSTRACT, m);
    let q = past(words, Kind::NEW, p);
    let b = Begin::at(words, m);
    FunctionHead {
        b,
        is_abstract: kind_at(words, m) == Kind::ABSTRACT,
        is_new: kind_at(words, p) == Kind::NEW,
        m: q,
    }
}

// The `this` of a parameter list, which is no node: 0 for none, else its two bits as the node table has them (1, and 2 for
// its type); its first and end byte.
#[derive(Clone, Copy)]
pub struct This {
    pub bits: usize,
    pub first: usize,
    pub end: usize,
}

impl This {
    pub fn none() -> This
        ensures { result ≡ record { bits = 0; first = 0; end = 0 } }
    {
        This {
            bits: 0,
            first: 0,
            end: 0,
        }
    }
}

// Parameters: the children of the function type so far, how many of them are parameters, and the `this`.
#[derive(Clone, Copy)]
pub struct Params {
    pub count: usize,
    pub this: This,
    pub kids: Kids,
    pub m: Mark,
}

impl Params {
    // All were read, up to the `)` at m.
    pub fn all(count: usize, this: This, kids: Kids, m: Mark) -> Params
        requires { m.at < 2 ^ 63 }
        ensures { result ≡ record { count = count; this = this; kids = kids; m = next_mark m } }
    {
        Params {
            count,
            this,
            kids,
            m: next(m),
        }
    }

    // With one child more, which was read from q on.
    pub fn with(self, nodes: &mut [u64], q: Mark, a: Read) -> Params
        requires { (q.used < a.m.used) × (a.m.used * record_words ≤ length nodes.old) × Under q.used self.kids × (a.high ≤ tallest) }
        ensures links_params { LinksParams (told_params (Ok self)) q (told (Ok a)) nodes.old (told_params (Ok result)) nodes.new }
        ensures under { Under a.m.used result.kids }
    {
        Params {
            kids: link(nodes, self.kids, q.used, a.m.used, a.high),
            m: a.m,
            ..self
        }
    }
}

// Whether no type parameter can begin here: const, in, or out before a binding word.
pub fn varies(words: &[u64], m: Mark) -> bool
    requires { m.at < 2 ^ 63 }
    ensures { (text O : List ℕ) (given : AnyGiven) → result ≡ types.varies (given_of text words.now given) (view m O) }
{
    match kind_at(words, m) {
        Kind::CONST | Kind::IN => true,
        Kind::OUT => in_class(kind_after(words, m, 1), Class::BindingWord),
        _ => false,
    }
}

// A type parameter up to its constraint.
pub fn type_param_head(
    words: &[u64],
    names: &mut [u64],
    notes: &mut [u64; Noting::WORDS],
    given: Given,
    m: Mark,
) -> Result<Mark, Stop>
    requires { MayBind words.now given m }
    ensures starts_bound { StartsBound type_parameter_head words.now given m names.old notes.old (told_mark result) names.new notes.new }
    ensures stepped { Stepped (length words.now) given m (told_mark result) × (m.at < (told_mark result).m.at + (told_mark result).why) }
{
    if varies(words, m) {
        return Err(Stop {
            why: Refusal::TypeParameterModifier,
            m,
        });
    }
    bound(words, names, notes, given, m)
}

// A parameter up to its type: optional `...`, its name, optional `?`.
pub fn param_head(words: &[u64], names: &mut [u64], m: Mark) -> Result<Head, Stop>
    requires { MayName words.now m }
    ensures starts_parameter { StartsParameter words.now m names.old (told_head result) names.new }
    ensures along { Along (length words.now) m (told_head result).m × ((told_head result).choices ≤ 3) × (m.at < (told_head result).m.at + (told_head result).why) }
{
    let rest = kind_at(words, m) == Kind::DOT3;
    let p = past(words, Kind::DOT3, m);
    if this_after(words, rest, p) {
        return Err(Stop {
            why: Refusal::MisplacedThis,
            m: p,
        });
    }
    let q = name(words, names, Class::BindingWord, p)?;
    let asked = kind_at(words, q) == Kind::QUESTION;
    Ok(Head {
        choices: usize::from(rest) + 2 * usize::from(asked),
        m: past(words, Kind::QUESTION, q),
    })
}

// Whether a `this` stands after the dots.
fn this_after(words: &[u64], rest: bool, m: Mark) -> bool
    ensures { result ≡ (rest and here words.now kind.This m) }
{
    rest && kind_at(words, m) == Kind::THIS
}

// Why no parameter can begin here, if something is against it: a modifier word, or a `this` that is not first.
pub fn no_param(words: &[u64], m: Mark) -> Option<Refusal>
    requires { m.at < 2 ^ 62 }
    ensures { (text O : List ℕ) (given : AnyGiven) → told_why result ≡ why_none (rule.modified (given_of text words.now given) (view m O)) (here words.now kind.This m) }
{
    if modifies(words, m.at) {
        return Some(Refusal::ParameterModifier);
    }
    if kind_at(words, m) == Kind::THIS {
        return Some(Refusal::MisplacedThis);
    }
    None
}

// After a parameter: at the `)`, or past a comma. A default, and a comma that follows a rest, are refused.
pub fn separated(words: &[u64], rest: bool, m: Mark) -> Result<Mark, Stop>
    requires { Sound words.now × Inside (length words.now) m }
    ensures separates { Separates words.now rest m (told_mark result) }
    ensures moved { Moved (length words.now) m (told_mark result).m }
{
    let why = match kind_at(words, m) {
        Kind::R_PAREN => return Ok(m),
        Kind::COMMA if !rest => return Ok(next(m)),
        Kind::COMMA => Refusal::RestNotLast,
        Kind::EQ => Refusal::DefaultValue,
        _ => Refusal::Unexpected,
    };
    Err(Stop { why, m })
}

// The opening bracket of parameters, and the `this` behind it, if there is one: choice 1 then.
pub fn params_head(words: &[u64], m: Mark) -> Result<Head, Stop>
    requires { Sound words.now × Inside (length words.now) m }
    ensures opens { Opens words.now m (told_head result) }
    ensures moved { Moved (length words.now) m (told_head result).m × (place_of m < place_of (told_head result).m + (told_head result).why) }
{
    if kind_at(words, m) != Kind::L_PAREN {
        return Err(Stop {
            why: Refusal::Unexpected,
            m,
        });
    }
    let p = next(m);
    if kind_at(words, p) != Kind::THIS {
        return Ok(Head { choices: 0, m: p });
    }
    Ok(Head {
        choices: 1,
        m: next(p),
    })
}

// The `this` behind the bracket at m, and its type's answer.
pub fn this_of(words: &[u64], m: Mark, a: Entries) -> This
    requires { Sound words.now × (m.at < 2 ^ 63) × (a.m.half ≤ 1) }
    ensures { (result.bits ≡ 1 + 2 * unit a.there) × (result.first ≡ first_byte words.now (m.at + 1) 0) × (result.end ≡ end_byte words.now a.m.at a.m.half) }
{
    This {
        bits: 1 + 2 * usize::from(a.there),
        first: first_byte(words, next(m)),
        end: end_byte(words, a.m),
    }
}

// After a `this` before which reading stood at s: what a constructor's took is free again, its diagnostics stay.
pub fn freed(is_new: bool, s: Mark, q: Mark) -> Mark
    ensures value { result ≡ freed_mark is_new s q }
    ensures at_value { (result.at ≡ q.at) × (result.half ≡ q.half) × (result.used ≡ freed_used is_new s.used q.used) × (result.named ≡ freed_used is_new s.named q.named) × (result.noted ≡ q.noted) }
{
    if is_new {
        Mark {
            used: s.used,
            named: s.named,
            ..q
        }
    } else {
        q
    }
}

// The children to which a `this` is linked: a constructor's is no child.
pub fn before_this(is_new: bool, k: Kids) -> Kids
    ensures value { result ≡ before_this is_new k }
    ensures first_le_first { (result.first ≤ k.first) × (result.count ≤ k.count) × (result.high ≤ k.high) }
{
    if is_new { Kids::none() } else { k }
}

// The children after a `this`: those before it, where it is a constructor's.
pub fn this_kids(is_new: bool, before: Kids, after: Kids) -> Kids
    ensures { result ≡ behind_this is_new before after }
{
    if is_new { before } else { after }
}

// How many numbers an optional list's choices can be.
fn list_scale(there: bool) -> usize
    ensures { (result ≡ list_scale there) × (result ≤ list_choices) }
{
    if there { 2 * COUNTS } else { 2 }
}

// How many numbers the bits of a `this` can be.
fn this_scale(bits: usize) -> usize
    ensures { (result ≡ this_scale bits) × (result ≤ 4) }
{
    if bits == 0 { 2 } else { 4 }
}

// The choices of type parameters and what stands behind them, `rest`.
pub fn new_choices(there: bool, count: usize, rest: usize) -> usize
    requires { (count ≤ longest) × (rest < 2 ^ 32) }
    ensures { (result ≡ new_choices there count rest) × (result < list_choices + list_choices * rest) }
{
    opt_list(there, count) + list_scale(there) * rest
}

// The same with a `this` before what stands behind them.
pub fn call_choices(there: bool, count: usize, this: usize, rest: usize) -> usize
    requires { (count ≤ longest) × (this ≤ 3) × (rest < 2 ^ 30) }
    ensures { (result ≡ call_choices there count this rest) × (result < list_choices + list_choices * (3 + 4 * rest)) }
{
    new_choices(there, count, this + this_scale(this) * rest)
}

// The choices of a function type.
fn function_choices(there: bool, count: usize, this: usize, params: usize) -> usize
    requires { (count ≤ longest) × (this ≤ 3) × (params ≤ longest) }
    ensures { result ≡ function_choices there count this params }
{
    Tag::Function as usize + Tag::ALL * call_choices(there, count, this, params)
}

// The choices of a constructor type.
fn constructor_choices(is_abstract: bool, there: bool, count: usize, params: usize) -> usize
    requires { (count ≤ longest) × (params ≤ longest) }
    ensures { result ≡ constructor_choices is_abstract there count params }
{
    Tag::Constructor as usize
        + Tag::ALL * (usize::from(is_abstract) + 2 * new_choices(there, count, params))
}

// Some list of a function type or a signature is too long.
pub fn too_long(count: usize, params: usize) -> bool
    ensures { result ≡ (ltb longest count or ltb longest params) }
{
    limits::List::LONGEST < count || limits::List::LONGEST < params
}

// The node: h before its parts, `count` type parameters if they are there, and p, whose children are now all.
pub fn function_node(
    words: &[u64],
    nodes: &mut [u64],
    notes: &mut [u64; Noting::WORDS],
    given: Given,
    h: FunctionHead,
    there: bool,
    count: usize,
    p: Params,
) -> Result<Read, Stop>
    requires { MayPutFunction words.now nodes.old given h (told_params (Ok p)) }
    ensures makes_function { MakesFunction words.now given h there count (told_params (Ok p)) nodes.old notes.old (told result) nodes.new notes.new }
    ensures reached { Reached (length words.now) given (place_of p.m) (p.m.used + 1) (told result).high (told result).why (told result).m }
{
    if h.is_new {
        return constructor_node(words, nodes, notes, given, h, there, count, p);
    }
    if too_long(count, p.count) {
        return Err(Stop {
            why: Refusal::TooLong,
            m: p.m,
        });
    }
    let choices = function_choices(there, count, p.this.bits, p.count);
    put(words, nodes, given, h.b, choices, p.kids, p.m)
}

// A constructor's node, which has no `this`; diagnostic 3 if there was one.
fn constructor_node(
    words: &[u64],
    nodes: &mut [u64],
    notes: &mut [u64; Noting::WORDS],
    given: Given,
    h: FunctionHead,
    there: bool,
    count: usize,
    p: Params,
) -> Result<Read, Stop>
    requires { MayPutConstructor words.now nodes.old given h (told_params (Ok p)) }
    ensures makes_function { h.is_new ≡ true → MakesFunction words.now given h there count (told_params (Ok p)) nodes.old notes.old (told result) nodes.new notes.new }
    ensures reached { Reached (length words.now) given (place_of p.m) (p.m.used + 1) (told result).high (told result).why (told result).m }
{
    let m = report_if(
        p.this.bits != 0,
        notes,
        given,
        Note::ThisOnConstructor as usize,
        p.this.first,
        p.this.end,
        p.m,
    )?;
    if too_long(count, p.count) {
        return Err(Stop {
            why: Refusal::TooLong,
            m,
        });
    }
    let choices = constructor_choices(h.is_abstract, there, count, p.count);
    put(words, nodes, given, h.b, choices, p.kids, m)
}
