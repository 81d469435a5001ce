// The ring: readers that call one another, each under the name of its rule.
ghost use Rattle.std.specs.Prelude.{◌≡◌, ◌+◌, ◌*◌, ◌≤◌, ◌<◌, length};
ghost use Rattle.words.specs.Limits.{tallest};
ghost use Rattle.words.specs.Kind.{LCurly, LBrack, TemplateHead};
ghost use Rattle.words.specs.Cursor.{kind_at};
ghost use Rattle.keys.specs.Bits.{unit};
ghost use Rattle.rules.specs.State.{optional};
ghost use Rattle.rules.specs.Reading.{read_type};
ghost use Rattle.rules.specs.TypeRule as type;
ghost use Rattle.rules.specs.TypeParameters as types;
ghost use Rattle.rules.specs.Function as function;
ghost use Rattle.rules.specs.Union as union;
ghost use Rattle.rules.specs.Operator as operator;
ghost use Rattle.rules.specs.Infer as infer;
ghost use Rattle.rules.specs.Postfix as postfix;
ghost use Rattle.rules.specs.Primary as primary;
ghost use Rattle.rules.specs.Arguments as arguments;
ghost use Rattle.rules.specs.Mapped as mapped;
ghost use Rattle.rules.specs.Object as object;
ghost use Rattle.rules.specs.Tuple as tuple;
ghost use Rattle.rules.specs.Template as template;
ghost use Rattle.marks.specs.State.{Under, place_of};
ghost use Rattle.marks.specs.Told.{told, told_list};
ghost use Rattle.functions.specs.Told.{told_params};
ghost use Rattle.primaries.specs.Onward as onward;
ghost use Rattle.readers.specs.Ring.{below, Past, Ready, Begun, Reads, ReadsList, Child, OnwardChild, Option, Behind, ReadsParams, ReadsOthers, ReadsSignature, ReadsIndex, Within, WithinList, WithinParams, Onward};

use functions::function::{
    Params, This, before_this, begins, freed, function_head, function_node, no_param, param_head,
    params_head, separated, this_kids, this_of, type_param_head,
};
use marks::list::{list_end, past_comma};
use marks::names::spell;
use marks::node::{Tag, link, put, put_about, put_list};
use marks::notes::{Note, Noting};
use marks::state::{
    Begin, Entries, Given, Kids, Mark, Read, Stop, first_byte, kind_after, kind_at, on_line, past,
};
use marks::tally::{enter, open_trials, set_trials};
use members::object::{
    IndexParams, Sort, index_choices, index_end, index_head, index_next, member_head, member_node,
    note_this, property_choices, signature_node,
};
use operators::infer::{dropped, infer_head, infer_node, many_trials, with_trial};
use operators::operator::{past_operators, put_operators};
use operators::union::joined;
use parts::arguments::{named_head, named_node, opened, opens};
use parts::mapped::{mapped_choices, mapped_head, mapped_middle, mapped_node};
use parts::postfix::{array, bracketed, suffixed};
use primaries::lone::{is_lone, lone};
use primaries::primary::{
    Start, keyword, literal, parens_node, predicates, primary_start, subject,
};
use tuples::tuple::{checked, element_head, element_node, tuple_node};
use words::ahead::starter;
use words::kind::Kind;
use words::refusal::Refusal;

// Type: a function type where one starts, else a union, which `extends` on its line makes a conditional where that is allowed;
// 5 where no rule may open any more.
#[cycle(ring)]
pub fn ty(
    text: &[u8],
    words: &[u64],
    nodes: &mut [u64],
    names: &mut [u64],
    notes: &mut [u64; Noting::WORDS],
    given: Given,
    on: bool,
    m: Mark,
) -> Result<Read, Stop>
    requires { Ready text.now words.now nodes.old given m }
    ensures reads { Reads 0 (λ g. read_type g given.left on) text words given m nodes names notes (told result) }
    ensures within { Within words given (told result) }
    ensures onward { Onward m (told result) }
{
    if given.left == 0 {
        return Err(Stop {
            why: Refusal::TooDeep,
            m,
        });
    }
    let below = Given {
        left: given.left - 1,
        ..given
    };
    enter(notes);
    if begins(words, m) {
        return function(text, words, nodes, names, notes, below, on, m);
    }
    let a = union(text, words, nodes, names, notes, below, on, m)?;
    if !on {
        return Ok(a);
    }
    let q = a.m;
    if !on_line(words, q) {
        return Ok(a);
    }
    if kind_at(words, q) != Kind::EXTENDS {
        return Ok(a);
    }
    let b = Begin::at(words, m);
    extends(text, words, nodes, names, notes, below, b, a.high, q)
}

// Type: at the `extends` of a conditional; what is extended is read with conditionals off, both arms with them on.
#[cycle(ring)]
fn extends(
    text: &[u8],
    words: &[u64],
    nodes: &mut [u64],
    names: &mut [u64],
    notes: &mut [u64; Noting::WORDS],
    given: Given,
    b: Begin,
    high: usize,
    m: Mark,
) -> Result<Read, Stop>
    requires { Ready text.now words.now nodes.old given m × (m.at < length words.now) × (1 ≤ m.used) × (high ≤ tallest) × Begun b }
    ensures behind { Behind (λ u g. type.conditional g (below given g) b.first u) text words given b high m nodes names notes (told result) }
    ensures within { Within words given (told result) }
    ensures onward { Onward m (told result) }
{
    let s = Mark {
        at: m.at + 1,
        half: 0,
        ..m
    };
    let x = child(
        text,
        words,
        nodes,
        names,
        notes,
        given,
        false,
        Kids::one(m.used, high),
        s,
    )?;
    let q = x.m;
    if kind_at(words, q) != Kind::QUESTION {
        return Err(Stop {
            why: Refusal::Unexpected,
            m: q,
        });
    }
    let p = Mark {
        at: q.at + 1,
        half: 0,
        ..q
    };
    let y = child(text, words, nodes, names, notes, given, true, x.kids, p)?;
    let r = y.m;
    if kind_at(words, r) != Kind::COLON {
        return Err(Stop {
            why: Refusal::Unexpected,
            m: r,
        });
    }
    let t = Mark {
        at: r.at + 1,
        half: 0,
        ..r
    };
    let z = child(text, words, nodes, names, notes, given, true, y.kids, t)?;
    put(
        words,
        nodes,
        given,
        b,
        Tag::Conditional as usize,
        z.kids,
        z.m,
    )
}

// A type that is one child more.
#[cycle(ring)]
fn child(
    text: &[u8],
    words: &[u64],
    nodes: &mut [u64],
    names: &mut [u64],
    notes: &mut [u64; Noting::WORDS],
    given: Given,
    on: bool,
    kids: Kids,
    m: Mark,
) -> Result<Entries, Stop>
    requires { Ready text.now words.now nodes.old given m × Under m.used kids }
    ensures child { Child (λ g. below given g on) text words given kids m nodes names notes (told_list result) }
    ensures within_list { WithinList words given (told_list result) }
    ensures onward_child { OnwardChild kids m (told_list result) }
{
    let a = ty(text, words, nodes, names, notes, given, on, m)?;
    let q = a.m;
    let k = link(nodes, kids, m.used, q.used, a.high);
    Ok(Entries {
        there: true,
        kids: k,
        m: q,
    })
}

// An optional type after a mark, which is one child more where it stands.
#[cycle(ring)]
fn opt(
    text: &[u8],
    words: &[u64],
    nodes: &mut [u64],
    names: &mut [u64],
    notes: &mut [u64; Noting::WORDS],
    given: Given,
    mark: usize,
    on: bool,
    kids: Kids,
    m: Mark,
) -> Result<Entries, Stop>
    requires { Ready text.now words.now nodes.old given m × (0 < mark) × Under m.used kids }
    ensures option { Option (λ g. optional g mark (below given g on)) text words given kids m nodes names notes (told_list result) }
    ensures within_list { WithinList words given (told_list result) }
    ensures past { (told_list result).why ≡ 0 → Past (place_of m) m.used (told_list result).m }
{
    if kind_at(words, m) != mark {
        return Ok(Entries {
            there: false,
            kids,
            m,
        });
    }
    let s = Mark {
        at: m.at + 1,
        half: 0,
        ..m
    };
    child(text, words, nodes, names, notes, given, on, kids, s)
}

// Function: type parameters are handed the flag, the others are read with conditionals on.
#[cycle(ring)]
fn function(
    text: &[u8],
    words: &[u64],
    nodes: &mut [u64],
    names: &mut [u64],
    notes: &mut [u64; Noting::WORDS],
    given: Given,
    on: bool,
    m: Mark,
) -> Result<Read, Stop>
    requires { Ready text.now words.now nodes.old given m }
    ensures reads { Reads 0 (λ g. function.function g (below given g) on) text words given m nodes names notes (told result) }
    ensures within { Within words given (told result) }
    ensures onward { Onward m (told result) }
{
    let h = function_head(words, m);
    let t = tparams(text, words, nodes, names, notes, given, on, h.m)?;
    let k = t.kids;
    let p = params(text, words, nodes, names, notes, given, h.is_new, k, t.m)?;
    let s = p.m;
    if kind_at(words, s) != Kind::ARROW {
        return Err(Stop {
            why: Refusal::Unexpected,
            m: s,
        });
    }
    let q = Mark {
        at: s.at + 1,
        half: 0,
        ..s
    };
    let r = ret(text, words, nodes, names, notes, given, q)?;
    let f = p.with(nodes, q, r);
    function_node(words, nodes, notes, given, h, t.there, k.count, f)
}

// Type parameters, or none where no `<` stands; diagnostic 1 if nothing is between.
#[cycle(ring)]
fn tparams(
    text: &[u8],
    words: &[u64],
    nodes: &mut [u64],
    names: &mut [u64],
    notes: &mut [u64; Noting::WORDS],
    given: Given,
    on: bool,
    m: Mark,
) -> Result<Entries, Stop>
    requires { Ready text.now words.now nodes.old given m }
    ensures reads_list { ReadsList 4 (λ g. types.type_parameters g (below given g) on) text words given m nodes names notes (told_list result) }
    ensures within_list { WithinList words given (told_list result) }
    ensures past { (told_list result).why ≡ 0 → Past (place_of m) m.used (told_list result).m }
{
    if kind_at(words, m) != Kind::L_ANGLE {
        return Ok(Entries::absent(m));
    }
    let mut p = Mark {
        at: m.at + 1,
        half: 0,
        ..m
    };
    let mut k = Kids::none();
    while kind_at(words, p) != Kind::R_ANGLE {
        let a = tparam(text, words, nodes, names, notes, given, on, p)?;
        let q = a.m;
        k = link(nodes, k, p.used, q.used, a.high);
        p = past_comma(words, Kind::R_ANGLE, q)?;
    }
    let first = first_byte(words, m);
    list_end(
        words,
        notes,
        given,
        Note::EmptyTypeParameters as usize,
        first,
        k,
        p,
    )
}

// Type parameters: a name, its constraint and its default, if they stand there.
#[cycle(ring)]
fn tparam(
    text: &[u8],
    words: &[u64],
    nodes: &mut [u64],
    names: &mut [u64],
    notes: &mut [u64; Noting::WORDS],
    given: Given,
    on: bool,
    m: Mark,
) -> Result<Read, Stop>
    requires { Ready text.now words.now nodes.old given m }
    ensures reads { Reads 4 (λ g. types.type_parameter g (below given g) on) text words given m nodes names notes (told result) }
    ensures within { Within words given (told result) }
    ensures onward { Onward m (told result) }
{
    let q = type_param_head(words, names, notes, given, m)?;
    let k = Kids::none();
    let x = opt(
        text,
        words,
        nodes,
        names,
        notes,
        given,
        Kind::EXTENDS,
        on,
        k,
        q,
    )?;
    let d = opt(
        text,
        words,
        nodes,
        names,
        notes,
        given,
        Kind::EQ,
        on,
        x.kids,
        x.m,
    )?;
    let choices = usize::from(x.there) + 2 * usize::from(d.there);
    put(
        words,
        nodes,
        given,
        Begin::at(words, m),
        choices,
        d.kids,
        d.m,
    )
}

// Function: the whole list of parameters in its brackets; the nodes and names of a constructor's `this` are given back.
#[cycle(ring)]
fn params(
    text: &[u8],
    words: &[u64],
    nodes: &mut [u64],
    names: &mut [u64],
    notes: &mut [u64; Noting::WORDS],
    given: Given,
    is_new: bool,
    kids: Kids,
    m: Mark,
) -> Result<Params, Stop>
    requires { Ready text.now words.now nodes.old given m × Under m.used kids }
    ensures reads_params { ReadsParams text words given is_new kids m nodes names notes (told_params result) }
    ensures within_params { WithinParams words given (told_params result) }
    ensures past { (told_params result).why ≡ 0 → Past (m.at * 2 + 2) m.used (told_params result).m }
{
    let h = params_head(words, m)?;
    if h.choices == 0 {
        let none = This::none();
        return plist(text, words, nodes, names, notes, given, none, kids, h.m);
    }
    let a = opt(
        text,
        words,
        nodes,
        names,
        notes,
        given,
        Kind::COLON,
        true,
        before_this(is_new, kids),
        h.m,
    )?;
    let p = separated(words, false, freed(is_new, m, a.m))?;
    let t = this_of(words, m, a);
    let k = this_kids(is_new, kids, a.kids);
    plist(text, words, nodes, names, notes, given, t, k, p)
}

// Function: the parameters from here to the `)`; no modifier words, and no `this` any more.
#[cycle(ring)]
fn plist(
    text: &[u8],
    words: &[u64],
    nodes: &mut [u64],
    names: &mut [u64],
    notes: &mut [u64; Noting::WORDS],
    given: Given,
    this: This,
    kids: Kids,
    m: Mark,
) -> Result<Params, Stop>
    requires { Ready text.now words.now nodes.old given m × Under m.used kids × (this.bits ≤ 3) }
    ensures reads_others { ReadsOthers text words given this kids m nodes names notes (told_params result) }
    ensures within_params { WithinParams words given (told_params result) }
    ensures past { (told_params result).why ≡ 0 → Past (place_of m + 1) m.used (told_params result).m }
{
    let mut p = m;
    let mut k = kids;
    let mut count: usize = 0;
    while kind_at(words, p) != Kind::R_PAREN {
        if let Some(why) = no_param(words, p) {
            return Err(Stop { why, m: p });
        }
        let a = param(text, words, nodes, names, notes, given, p)?;
        let q = a.m;
        k = link(nodes, k, p.used, q.used, a.high);
        count += 1;
        p = separated(words, kind_at(words, p) == Kind::DOT3, q)?;
    }
    Ok(Params::all(count, this, k, p))
}

// Function: one parameter, of which only its name must be there.
#[cycle(ring)]
fn param(
    text: &[u8],
    words: &[u64],
    nodes: &mut [u64],
    names: &mut [u64],
    notes: &mut [u64; Noting::WORDS],
    given: Given,
    m: Mark,
) -> Result<Read, Stop>
    requires { Ready text.now words.now nodes.old given m }
    ensures reads { Reads 5 (λ g. function.parameter g (below given g)) text words given m nodes names notes (told result) }
    ensures within { Within words given (told result) }
    ensures onward { Onward m (told result) }
{
    let h = param_head(words, names, m)?;
    let colon = Kind::COLON;
    let a = opt(
        text,
        words,
        nodes,
        names,
        notes,
        given,
        colon,
        true,
        Kids::none(),
        h.m,
    )?;
    let choices = h.choices + 4 * usize::from(a.there);
    put(
        words,
        nodes,
        given,
        Begin::at(words, m),
        choices,
        a.kids,
        a.m,
    )
}

// Function: the return type, which may be a predicate; conditionals are on.
#[cycle(ring)]
fn ret(
    text: &[u8],
    words: &[u64],
    nodes: &mut [u64],
    names: &mut [u64],
    notes: &mut [u64; Noting::WORDS],
    given: Given,
    m: Mark,
) -> Result<Read, Stop>
    requires { Ready text.now words.now nodes.old given m }
    ensures reads { Reads 0 (λ g. function.return_type g (below given g)) text words given m nodes names notes (told result) }
    ensures within { Within words given (told result) }
    ensures onward { Onward m (told result) }
{
    if predicates(words, m) {
        return pred(text, words, nodes, names, notes, given, false, m);
    }
    let on = true;
    ty(text, words, nodes, names, notes, given, on, m)
}

// A predicate about a name or this, with or without asserts before it; its type follows `is`.
#[cycle(ring)]
fn pred(
    text: &[u8],
    words: &[u64],
    nodes: &mut [u64],
    names: &mut [u64],
    notes: &mut [u64; Noting::WORDS],
    given: Given,
    asserts: bool,
    m: Mark,
) -> Result<Read, Stop>
    requires { Ready text.now words.now nodes.old given m × (m.at + unit asserts < length words.now) }
    ensures reads { Reads 0 (λ g. onward.predicate g (below given g) asserts) text words given m nodes names notes (told result) }
    ensures within { Within words given (told result) }
    ensures onward { Onward m (told result) }
{
    let h = subject(words, names, asserts, m);
    let a = opt(
        text,
        words,
        nodes,
        names,
        notes,
        given,
        Kind::IS,
        true,
        Kids::none(),
        h.m,
    )?;
    let choices = h.choices + 4 * Tag::ALL * usize::from(a.there);
    put(
        words,
        nodes,
        given,
        Begin::at(words, m),
        choices,
        a.kids,
        a.m,
    )
}

// Union: intersections with `|` between.
#[cycle(ring)]
fn union(
    text: &[u8],
    words: &[u64],
    nodes: &mut [u64],
    names: &mut [u64],
    notes: &mut [u64; Noting::WORDS],
    given: Given,
    on: bool,
    m: Mark,
) -> Result<Read, Stop>
    requires { Ready text.now words.now nodes.old given m }
    ensures reads { Reads 0 (λ g. union.union g (below given g) on) text words given m nodes names notes (told result) }
    ensures within { Within words given (told result) }
    ensures onward { Onward m (told result) }
{
    let mut p = past(words, Kind::PIPE, m);
    let mut k = Kids::none();
    loop {
        let a = inter(text, words, nodes, names, notes, given, on, p)?;
        let q = a.m;
        if kind_at(words, q) != Kind::PIPE {
            return joined(
                words,
                nodes,
                given,
                Kind::PIPE,
                Tag::Union as usize,
                k,
                p.used,
                m,
                Ok(a),
            );
        }
        k = link(nodes, k, p.used, q.used, a.high);
        p = Mark {
            at: q.at + 1,
            half: 0,
            ..q
        };
    }
}

// Intersection: operators with `&` between; a token that is a whole type, at once.
#[cycle(ring)]
fn inter(
    text: &[u8],
    words: &[u64],
    nodes: &mut [u64],
    names: &mut [u64],
    notes: &mut [u64; Noting::WORDS],
    given: Given,
    on: bool,
    m: Mark,
) -> Result<Read, Stop>
    requires { Ready text.now words.now nodes.old given m }
    ensures reads { Reads 0 (λ g. union.intersection g (below given g) on) text words given m nodes names notes (told result) }
    ensures within { Within words given (told result) }
    ensures onward { Onward m (told result) }
{
    if is_lone(kind_at(words, m), kind_after(words, m, 1)) {
        return lone(words, nodes, names, given, m);
    }
    let mut p = past(words, Kind::AMP, m);
    let mut k = Kids::none();
    loop {
        let a = operator(text, words, nodes, names, notes, given, on, p)?;
        let q = a.m;
        if kind_at(words, q) != Kind::AMP {
            return joined(
                words,
                nodes,
                given,
                Kind::AMP,
                Tag::Intersection as usize,
                k,
                p.used,
                m,
                Ok(a),
            );
        }
        k = link(nodes, k, p.used, q.used, a.high);
        p = Mark {
            at: q.at + 1,
            half: 0,
            ..q
        };
    }
}

// Operator: prefixes, and behind the last an infer or a postfix type, which is read with conditionals on.
#[cycle(ring)]
fn operator(
    text: &[u8],
    words: &[u64],
    nodes: &mut [u64],
    names: &mut [u64],
    notes: &mut [u64; Noting::WORDS],
    given: Given,
    on: bool,
    m: Mark,
) -> Result<Read, Stop>
    requires { Ready text.now words.now nodes.old given m }
    ensures reads { Reads 0 (λ g. operator.operator g (below given g) on) text words given m nodes names notes (told result) }
    ensures within { Within words given (told result) }
    ensures onward { Onward m (told result) }
{
    let p = past_operators(words, m);
    if kind_at(words, p) == Kind::INFER {
        let a = infer(text, words, nodes, names, notes, given, on, p)?;
        return put_operators(words, nodes, given, m.named, m.at, p.at, a);
    }
    let a = postfix(text, words, nodes, names, notes, given, p)?;
    put_operators(words, nodes, given, m.named, m.at, p.at, a)
}

// Infer: the name that is bound, and its constraint, which is tried with conditionals off.
#[cycle(ring)]
fn infer(
    text: &[u8],
    words: &[u64],
    nodes: &mut [u64],
    names: &mut [u64],
    notes: &mut [u64; Noting::WORDS],
    given: Given,
    on: bool,
    m: Mark,
) -> Result<Read, Stop>
    requires { Ready text.now words.now nodes.old given m × (m.at < length words.now) }
    ensures reads { Reads 0 (λ g. infer.infer g (below given g) on) text words given m nodes names notes (told result) }
    ensures within { Within words given (told result) }
    ensures onward { Onward m (told result) }
{
    let p = infer_head(words, names, notes, given, m)?;
    let b = Begin::at(words, m);
    if kind_at(words, p) != Kind::EXTENDS {
        return put(words, nodes, given, b, Tag::Infer as usize, Kids::none(), p);
    }
    let trials = open_trials(notes);
    if many_trials(on, trials) {
        return Err(Stop {
            why: Refusal::ManyTrials,
            m: p,
        });
    }
    set_trials(notes, with_trial(on, trials));
    let s = Mark {
        at: p.at + 1,
        half: 0,
        ..p
    };
    let a = ty(text, words, nodes, names, notes, given, false, s)?;
    set_trials(notes, trials);
    let q = a.m;
    let undone = dropped(words, on, q);
    infer_node(words, nodes, given, b, undone, a.high, p, q)
}

// Postfix: a primary type and as many marks as follow on the line.
#[cycle(ring)]
fn postfix(
    text: &[u8],
    words: &[u64],
    nodes: &mut [u64],
    names: &mut [u64],
    notes: &mut [u64; Noting::WORDS],
    given: Given,
    m: Mark,
) -> Result<Read, Stop>
    requires { Ready text.now words.now nodes.old given m }
    ensures reads { Reads 0 (λ g. postfix.postfix g (below given g)) text words given m nodes names notes (told result) }
    ensures within { Within words given (told result) }
    ensures onward { Onward m (told result) }
{
    let a = primary(text, words, nodes, names, notes, given, m)?;
    let mut p = a.m;
    let mut high = a.high;
    let b = Begin::at(words, m);
    while suffixed(words, p) {
        let c = suffix(text, words, nodes, names, notes, given, b, high, p)?;
        p = c.m;
        high = c.high;
    }
    Ok(Read { high, m: p })
}

// Postfix: the mark here makes a node of what was read; behind a `[`, an index where a type can start, else an array.
#[cycle(ring)]
fn suffix(
    text: &[u8],
    words: &[u64],
    nodes: &mut [u64],
    names: &mut [u64],
    notes: &mut [u64; Noting::WORDS],
    given: Given,
    b: Begin,
    high: usize,
    m: Mark,
) -> Result<Read, Stop>
    requires { Ready text.now words.now nodes.old given m × (m.at < length words.now) × (1 ≤ m.used) × (high ≤ tallest) × Begun b }
    ensures behind { Behind (λ u g. postfix.suffix g (below given g) b.first u) text words given b high m nodes names notes (told result) }
    ensures within { Within words given (told result) }
    ensures past { (told result).why ≡ 0 → Past (m.at * 2 + 2) (m.used + 1) (told result).m }
{
    let kind = kind_at(words, m);
    let s = Mark {
        at: m.at + 1,
        half: 0,
        ..m
    };
    if kind == Kind::BANG {
        return put_about(words, nodes, given, b, Tag::NonNull as usize, high, s);
    }
    if kind == Kind::QUESTION {
        return put_about(words, nodes, given, b, Tag::Asked as usize, high, s);
    }
    if !starter(words, s.at) {
        return array(words, nodes, given, b, high, s);
    }
    let a = child(
        text,
        words,
        nodes,
        names,
        notes,
        given,
        true,
        Kids::one(m.used, high),
        s,
    )?;
    bracketed(words, nodes, given, b, Tag::Indexed as usize, a.kids, a.m)
}

// Primary: by what begins here.
#[cycle(ring)]
fn primary(
    text: &[u8],
    words: &[u64],
    nodes: &mut [u64],
    names: &mut [u64],
    notes: &mut [u64; Noting::WORDS],
    given: Given,
    m: Mark,
) -> Result<Read, Stop>
    requires { Ready text.now words.now nodes.old given m }
    ensures reads { Reads 0 (λ g. primary.primary g (below given g)) text words given m nodes names notes (told result) }
    ensures within { Within words given (told result) }
    ensures onward { Onward m (told result) }
{
    match primary_start(words, m) {
        Ok(Start::Keyword) => keyword(words, nodes, given, m),
        Ok(Start::Literal) => literal(words, nodes, names, given, m),
        Ok(Start::This) => pred(text, words, nodes, names, notes, given, false, m),
        Ok(Start::Asserts) => pred(text, words, nodes, names, notes, given, true, m),
        Ok(Start::Name) => named(text, words, nodes, names, notes, given, m),
        Ok(Start::Mapped) => mapped(text, words, nodes, names, notes, given, m),
        Ok(Start::Object) => object(text, words, nodes, names, notes, given, m),
        Ok(Start::Tuple) => tuple(text, words, nodes, names, notes, given, m),
        Ok(Start::Parens) => parens(text, words, nodes, names, notes, given, m),
        Ok(Start::Template) => template(text, words, nodes, names, notes, given, m),
        Err(why) => Err(Stop { why, m }),
    }
}

// Primary: a reference, typeof or import, and the arguments of it.
#[cycle(ring)]
fn named(
    text: &[u8],
    words: &[u64],
    nodes: &mut [u64],
    names: &mut [u64],
    notes: &mut [u64; Noting::WORDS],
    given: Given,
    m: Mark,
) -> Result<Read, Stop>
    requires { Ready text.now words.now nodes.old given m }
    ensures reads { Reads 0 (λ g. onward.name_at g (below given g)) text words given m nodes names notes (told result) }
    ensures within { Within words given (told result) }
    ensures onward { Onward m (told result) }
{
    let n = named_head(words, names, m)?;
    let l = targs(text, words, nodes, names, notes, given, n.m)?;
    named_node(words, nodes, given, Begin::at(words, m), n, l)
}

// Arguments, or none where no list opens; diagnostic 2 if nothing is in it.
#[cycle(ring)]
fn targs(
    text: &[u8],
    words: &[u64],
    nodes: &mut [u64],
    names: &mut [u64],
    notes: &mut [u64; Noting::WORDS],
    given: Given,
    m: Mark,
) -> Result<Entries, Stop>
    requires { Ready text.now words.now nodes.old given m }
    ensures reads_list { ReadsList 0 (λ g. arguments.arguments g (below given g)) text words given m nodes names notes (told_list result) }
    ensures within_list { WithinList words given (told_list result) }
    ensures past { (told_list result).why ≡ 0 → Past (place_of m) m.used (told_list result).m }
{
    if !opens(words, m) {
        return Ok(Entries::absent(m));
    }
    let mut p = opened(words, m);
    let mut k = Kids::none();
    while kind_at(words, p) != Kind::R_ANGLE {
        let a = child(text, words, nodes, names, notes, given, true, k, p)?;
        k = a.kids;
        p = past_comma(words, Kind::R_ANGLE, a.m)?;
    }
    let first = first_byte(words, m);
    list_end(
        words,
        notes,
        given,
        Note::EmptyArguments as usize,
        first,
        k,
        p,
    )
}

// Primary: brackets, which are a node of their own if asked for.
#[cycle(ring)]
fn parens(
    text: &[u8],
    words: &[u64],
    nodes: &mut [u64],
    names: &mut [u64],
    notes: &mut [u64; Noting::WORDS],
    given: Given,
    m: Mark,
) -> Result<Read, Stop>
    requires { Ready text.now words.now nodes.old given m × (m.at < length words.now) }
    ensures reads { Reads 0 (λ g. primary.brackets g (below given g)) text words given m nodes names notes (told result) }
    ensures within { Within words given (told result) }
    ensures onward { Onward m (told result) }
{
    let s = Mark {
        at: m.at + 1,
        half: 0,
        ..m
    };
    let a = ty(text, words, nodes, names, notes, given, true, s)?;
    let b = Begin::at(words, m);
    parens_node(words, nodes, given, b, a.high, a.m)
}

// Mapped: the name type, the type and the `;` are optional.
#[cycle(ring)]
fn mapped(
    text: &[u8],
    words: &[u64],
    nodes: &mut [u64],
    names: &mut [u64],
    notes: &mut [u64; Noting::WORDS],
    given: Given,
    m: Mark,
) -> Result<Read, Stop>
    requires { Ready text.now words.now nodes.old given m × (m.at < length words.now) }
    ensures reads { kind_at words.now m.at m.half ≡ LCurly → Reads 0 (λ g. mapped.mapped g (below given g)) text words given m nodes names notes (told result) }
    ensures within { Within words given (told result) }
    ensures onward { Onward m (told result) }
{
    let h = mapped_head(words, names, m)?;
    let c = child(
        text,
        words,
        nodes,
        names,
        notes,
        given,
        true,
        Kids::none(),
        h.m,
    )?;
    let n = opt(
        text,
        words,
        nodes,
        names,
        notes,
        given,
        Kind::AS,
        true,
        c.kids,
        c.m,
    )?;
    let a = mapped_middle(words, n.m)?;
    let t = opt(
        text,
        words,
        nodes,
        names,
        notes,
        given,
        Kind::COLON,
        true,
        n.kids,
        a.m,
    )?;
    let choices = mapped_choices(
        h.choices,
        usize::from(n.there),
        a.choices,
        usize::from(t.there),
    );
    let b = Begin::at(words, m);
    mapped_node(words, nodes, given, b, choices, t.kids, t.m)
}

// Object: its members in curly brackets.
#[cycle(ring)]
fn object(
    text: &[u8],
    words: &[u64],
    nodes: &mut [u64],
    names: &mut [u64],
    notes: &mut [u64; Noting::WORDS],
    given: Given,
    m: Mark,
) -> Result<Read, Stop>
    requires { Ready text.now words.now nodes.old given m × (m.at < length words.now) }
    ensures reads { kind_at words.now m.at m.half ≡ LCurly → Reads 0 (λ g. object.object g (below given g)) text words given m nodes names notes (told result) }
    ensures within { Within words given (told result) }
    ensures onward { Onward m (told result) }
{
    let mut p = Mark {
        at: m.at + 1,
        half: 0,
        ..m
    };
    let mut k = Kids::none();
    while kind_at(words, p) != Kind::R_CURLY {
        let a = memb(text, words, nodes, names, notes, given, p)?;
        let q = a.m;
        k = link(nodes, k, p.used, q.used, a.high);
        p = q;
    }
    let e = Mark {
        at: p.at + 1,
        half: 0,
        ..p
    };
    let b = Begin::at(words, m);
    put_list(words, nodes, given, b, Tag::Object as usize, k, e)
}

// Member: a signature, an index signature, or a property with its optional type.
#[cycle(ring)]
fn memb(
    text: &[u8],
    words: &[u64],
    nodes: &mut [u64],
    names: &mut [u64],
    notes: &mut [u64; Noting::WORDS],
    given: Given,
    m: Mark,
) -> Result<Read, Stop>
    requires { Ready text.now words.now nodes.old given m }
    ensures reads { Reads 6 (λ g. object.member g (below given g)) text words given m nodes names notes (told result) }
    ensures within { Within words given (told result) }
    ensures past { (told result).why ≡ 0 → Past (m.at * 2 + 2) (m.used + 1) (told result).m }
{
    let h = member_head(text, words, names, m)?;
    let b = Begin::at(words, m);
    let head = h.choices;
    let p = h.m;
    match h.sort {
        Sort::Property => {
            let t = opt(
                text,
                words,
                nodes,
                names,
                notes,
                given,
                Kind::COLON,
                true,
                Kids::none(),
                p,
            )?;
            let all = property_choices(head, t.there);
            member_node(words, nodes, given, b, all, t.kids, t.m)
        }
        Sort::Index => index(text, words, nodes, names, notes, given, b, head, p),
        Sort::Method | Sort::Call | Sort::Construct => {
            sign(text, words, nodes, names, notes, given, b, head, p)
        }
    }
}

// Signature: type parameters, parameters and the return type of a member that begins at b; diagnostic 3 stands before that.
#[cycle(ring)]
fn sign(
    text: &[u8],
    words: &[u64],
    nodes: &mut [u64],
    names: &mut [u64],
    notes: &mut [u64; Noting::WORDS],
    given: Given,
    b: Begin,
    head: usize,
    m: Mark,
) -> Result<Read, Stop>
    requires { Ready text.now words.now nodes.old given m × Begun b × (head ≤ 127) }
    ensures reads_signature { ReadsSignature text words given b head m nodes names notes (told result) }
    ensures within { Within words given (told result) }
    ensures past { (told result).why ≡ 0 → Past (m.at * 2 + 2) (m.used + 1) (told result).m }
{
    let t = tparams(text, words, nodes, names, notes, given, true, m)?;
    let k = t.kids;
    let is_new = head == Sort::Construct as usize;
    let p = params(text, words, nodes, names, notes, given, is_new, k, t.m)?;
    let s = note_this(notes, given, is_new, p.this, p.m)?;
    if kind_at(words, s) != Kind::COLON {
        return signature_node(words, nodes, given, b, head, t.there, k.count, p, false, s);
    }
    let q = Mark {
        at: s.at + 1,
        half: 0,
        ..s
    };
    let r = ret(text, words, nodes, names, notes, given, q)?;
    let f = p.with(nodes, q, r);
    signature_node(words, nodes, given, b, head, t.there, k.count, f, true, f.m)
}

// Index signature: its parameters, of which the first is kept and what others took is given back, and its type, in a member that begins at b.
#[cycle(ring)]
fn index(
    text: &[u8],
    words: &[u64],
    nodes: &mut [u64],
    names: &mut [u64],
    notes: &mut [u64; Noting::WORDS],
    given: Given,
    b: Begin,
    head: usize,
    m: Mark,
) -> Result<Read, Stop>
    requires { Ready text.now words.now nodes.old given m × (m.at < length words.now) × Begun b × (head ≤ 127) }
    ensures reads_index { ReadsIndex text words given b head m nodes names notes (told result) }
    ensures within { Within words given (told result) }
    ensures past { (told result).why ≡ 0 → Past (m.at * 2 + 2) (m.used + 1) (told result).m }
{
    let mut p = Mark {
        at: m.at + 1,
        half: 0,
        ..m
    };
    let first = first_byte(words, p);
    let mut ps = IndexParams::none();
    while kind_at(words, p) != Kind::R_BRACK {
        let h = index_head(words, names, notes, given, p)?;
        let a = ty(text, words, nodes, names, notes, given, true, h)?;
        let q = freed(ps.count != 0, p, a.m);
        ps = ps.with(words, a);
        p = index_next(words, notes, given, q)?;
    }
    let e = index_end(words, nodes, notes, given, b.first, first, ps, p)?;
    let t = child(text, words, nodes, names, notes, given, true, ps.kids, e)?;
    let all = index_choices(head, ps.count != 0);
    member_node(words, nodes, given, b, all, t.kids, t.m)
}

// Tuple: its elements in square brackets.
#[cycle(ring)]
fn tuple(
    text: &[u8],
    words: &[u64],
    nodes: &mut [u64],
    names: &mut [u64],
    notes: &mut [u64; Noting::WORDS],
    given: Given,
    m: Mark,
) -> Result<Read, Stop>
    requires { Ready text.now words.now nodes.old given m × (m.at < length words.now) }
    ensures reads { kind_at words.now m.at m.half ≡ LBrack → Reads 0 (λ g. tuple.tuple g (below given g)) text words given m nodes names notes (told result) }
    ensures within { Within words given (told result) }
    ensures onward { Onward m (told result) }
{
    let mut p = Mark {
        at: m.at + 1,
        half: 0,
        ..m
    };
    let mut k = Kids::none();
    let mut latest = None;
    while kind_at(words, p) != Kind::R_BRACK {
        let a = elem(text, words, nodes, names, notes, given, p)?;
        let e = checked(nodes, notes, given, latest, a.m)?;
        let q = e.m;
        latest = e.latest;
        k = link(nodes, k, p.used, q.used, a.high);
        p = past_comma(words, Kind::R_BRACK, q)?;
    }
    tuple_node(words, nodes, given, Begin::at(words, m), k, p)
}

// Tuple element: dots, a label and dots again may stand before its type.
#[cycle(ring)]
fn elem(
    text: &[u8],
    words: &[u64],
    nodes: &mut [u64],
    names: &mut [u64],
    notes: &mut [u64; Noting::WORDS],
    given: Given,
    m: Mark,
) -> Result<Read, Stop>
    requires { Ready text.now words.now nodes.old given m }
    ensures reads { Reads 1 (λ g. tuple.element g (below given g)) text words given m nodes names notes (told result) }
    ensures within { Within words given (told result) }
    ensures onward { Onward m (told result) }
{
    let l = element_head(words, names, m);
    let a = ty(text, words, nodes, names, notes, given, true, l.m)?;
    element_node(words, nodes, notes, given, l, a)
}

// Template: one type behind the head and each middle, until a tail follows.
#[cycle(ring)]
fn template(
    text: &[u8],
    words: &[u64],
    nodes: &mut [u64],
    names: &mut [u64],
    notes: &mut [u64; Noting::WORDS],
    given: Given,
    m: Mark,
) -> Result<Read, Stop>
    requires { Ready text.now words.now nodes.old given m × (m.at < length words.now) }
    ensures reads { kind_at words.now m.at m.half ≡ TemplateHead → Reads 0 (λ g. template.template g (below given g)) text words given m nodes names notes (told result) }
    ensures within { Within words given (told result) }
    ensures onward { Onward m (told result) }
{
    let mut p = spell(words, names, m);
    let mut k = Kids::none();
    loop {
        let a = child(text, words, nodes, names, notes, given, true, k, p)?;
        let q = a.m;
        k = a.kids;
        let kind = kind_at(words, q);
        if kind == Kind::TEMPLATE_TAIL {
            let n = spell(words, names, q);
            let b = Begin::at(words, m);
            return put_list(words, nodes, given, b, Tag::Template as usize, k, n);
        }
        if kind != Kind::TEMPLATE_MIDDLE {
            return Err(Stop {
                why: Refusal::Unexpected,
                m: q,
            });
        }
        p = spell(words, names, q);
    }
}
