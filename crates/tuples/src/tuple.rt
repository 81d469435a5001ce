// Tuple elements, without the types in them.
ghost use Rattle.std.specs.Prelude.{◌≡◌, true, false, ◌*◌, ◌%◌, ◌≤◌, ◌<◌, ◌^◌, length};
ghost use Rattle.keys.specs.Limits.{record_words};
ghost use Rattle.marks.specs.State.{next_mark, Sound, Inside, Along, Reached, place_of};
ghost use Rattle.marks.specs.Node.{Put, MakesList, MakesAbout};
ghost use Rattle.marks.specs.Names.{Speaks, MayName};
ghost use Rattle.marks.specs.Told.{told};
ghost use Rattle.tuples.specs.Told.{told_latest, told_seen};
ghost use Rattle.tuples.specs.Tuple.{LabelIs, LabelSmall, labelled_at, label_at, member_choices, Converts, MakesMember, MakesRest, MakesElement, optional_word, last_word, Checks, SeenAt, MayPutElement, MayPutMember, MayPutTuple, StartsElement};

use keys::store::{Place, place_at};
use marks::names::spell;
use marks::node::{Tag, put_about, put_list};
use marks::notes::{Note, Noting, report_both, report_if};
use marks::state::{
    Begin, Given, Kids, Mark, Read, Stop, end_byte, first_byte, kind_after, kind_at, next, past,
};
use words::kind::{Class, Kind, in_class};

// An element up to its type: where it begins, its dots, its label with the label's first byte and `?`, and where its type
// begins, whose own dots are passed.
#[derive(Clone, Copy)]
pub struct Label {
    pub b: Begin,
    pub rest: bool,
    pub labelled: bool,
    pub first: usize,
    pub asked: bool,
    pub typed: usize,
    pub dots: bool,
    pub m: Mark,
}

// Whether a label stands at m, with its colon, or question mark and colon.
fn is_next_token_colon_or_question_colon(words: &[u64], m: Mark) -> bool
    requires { m.at < 2 ^ 63 }
    ensures { result ≡ labelled_at words.now m }
{
    if !in_class(kind_at(words, m), Class::Name) {
        return false;
    }
    match kind_after(words, m, 1) {
        Kind::COLON => true,
        Kind::QUESTION => kind_after(words, m, 2) == Kind::COLON,
        _ => false,
    }
}

// An element up to its type.
pub fn element_head(words: &[u64], names: &mut [u64], m: Mark) -> Label
    requires { MayName words.now m }
    ensures label_is { LabelIs words.now m result }
    ensures starts_element { StartsElement words.now m names.old result names.new }
    ensures along { Along (length words.now) m result.m × LabelSmall result }
{
    let rest = kind_at(words, m) == Kind::DOT3;
    let p = past(words, Kind::DOT3, m);
    let b = Begin::at(words, m);
    if is_next_token_colon_or_question_colon(words, p) {
        return labelled(words, names, b, rest, p);
    }
    Label {
        b,
        rest,
        labelled: false,
        first: 0,
        asked: false,
        typed: 0,
        dots: false,
        m: p,
    }
}

// The label at m, an optional `?`, the colon, and dots, which leave no node.
fn labelled(words: &[u64], names: &mut [u64], b: Begin, rest: bool, m: Mark) -> Label
    requires { Sound words.now × Inside (length words.now) m × (m.named ≤ m.at) × (labelled_at words.now m ≡ true) }
    ensures value { (result ≡ label_at words.now b rest m) × Speaks words.now m names.old names.new }
    ensures along { Along (length words.now) m result.m × (result.first < 2 ^ 32) × (result.typed < 2 ^ 32) }
{
    let p = spell(words, names, m);
    let q = next(past(words, Kind::QUESTION, p));
    Label {
        b,
        rest,
        labelled: true,
        first: first_byte(words, m),
        asked: kind_at(words, p) == Kind::QUESTION,
        typed: first_byte(words, q),
        dots: kind_at(words, q) == Kind::DOT3,
        m: past(words, Kind::DOT3, q),
    }
}

// The tag of the node read last.
fn last_tag(nodes: &[u64], used: usize) -> usize
    requires { (1 ≤ used) × (used * record_words ≤ length nodes.now) }
    ensures { result ≡ last_word nodes.now used % 64 }
{
    let i = used * 4 - 4;
    (nodes[i] % 64) as usize
}

// A `?` node that was read last becomes optional, same node. Says whether it was one.
fn convert_type_to_tuple_element(nodes: &mut [u64], used: usize) -> bool
    requires { (1 ≤ used) × (used * record_words ≤ length nodes.old) }
    ensures { Converts used nodes.old result nodes.new }
{
    let i = used * 4 - 4;
    let word = nodes[i];
    if word % 64 != Tag::Asked as usize as u64 {
        return false;
    }
    // the tag stands lowest: 24 becomes 20
    nodes[i] = word - 4;
    true
}

// The element whose type was read: a member, a rest, or the type itself.
pub fn element_node(
    words: &[u64],
    nodes: &mut [u64],
    notes: &mut [u64; Noting::WORDS],
    given: Given,
    l: Label,
    a: Read,
) -> Result<Read, Stop>
    requires { MayPutElement words.now nodes.old given l (told (Ok a)) }
    ensures makes_element { MakesElement words.now given l (told (Ok a)) nodes.old notes.old (told result) nodes.new notes.new }
    ensures reached { Reached (length words.now) given (place_of a.m) a.m.used (told result).high (told result).why (told result).m }
{
    if l.labelled {
        return member(words, nodes, notes, given, l, a);
    }
    if l.rest {
        return put_about(words, nodes, given, l.b, Tag::Rest as usize, a.high, a.m);
    }
    convert_type_to_tuple_element(nodes, a.m.used);
    Ok(a)
}

// A member; diagnostics 5 and 6 for dots and `?` at its type.
fn member(
    words: &[u64],
    nodes: &mut [u64],
    notes: &mut [u64; Noting::WORDS],
    given: Given,
    l: Label,
    a: Read,
) -> Result<Read, Stop>
    requires { MayPutMember words.now nodes.old given l a.high a.m }
    ensures makes_member { MakesMember words.now given l (told (Ok a)) nodes.old notes.old (told result) nodes.new notes.new }
    ensures reached { Reached (length words.now) given (place_of a.m) a.m.used (told result).high (told result).why (told result).m }
{
    let q = a.m;
    let converted = convert_type_to_tuple_element(nodes, q.used);
    let c = member_node(words, nodes, given, l, a.high, q)?;
    let end = end_byte(words, q);
    let n = report_if(
        l.dots,
        notes,
        given,
        Note::RestAfterLabel as usize,
        l.typed,
        end,
        c.m,
    )?;
    let n = report_if(
        converted,
        notes,
        given,
        Note::AskedAfterLabel as usize,
        l.typed,
        end,
        n,
    )?;
    rest_of(words, nodes, notes, given, l, c.high, n)
}

// The node of a member, by whether a `?` stood after its label.
fn member_node(
    words: &[u64],
    nodes: &mut [u64],
    given: Given,
    l: Label,
    high: usize,
    m: Mark,
) -> Result<Read, Stop>
    requires { MayPutMember words.now nodes.old given l high m }
    ensures makes_about { MakesAbout words.now given (record { first = l.first; name = l.b.name }) (member_choices l.asked) high m nodes.old (told result) nodes.new }
    ensures put { Put given m (told result) }
{
    let b = Begin {
        first: l.first,
        ..l.b
    };
    let choices = Tag::Named as usize + Tag::ALL * usize::from(l.asked);
    put_about(words, nodes, given, b, choices, high, m)
}

// A member, or a rest about it; diagnostic 7 if that is optional too.
fn rest_of(
    words: &[u64],
    nodes: &mut [u64],
    notes: &mut [u64; Noting::WORDS],
    given: Given,
    l: Label,
    high: usize,
    m: Mark,
) -> Result<Read, Stop>
    requires { MayPutMember words.now nodes.old given l high m }
    ensures makes_rest { MakesRest words.now given l high m nodes.old notes.old (told result) nodes.new notes.new }
    ensures reached { Reached (length words.now) given (place_of m) m.used (told result).high (told result).why (told result).m }
{
    if !l.rest {
        return Ok(Read { high, m });
    }
    let q = report_if(
        l.asked,
        notes,
        given,
        Note::OptionalAndRest as usize,
        l.b.first,
        end_byte(words, m),
        m,
    )?;
    put_about(words, nodes, given, l.b, Tag::Rest as usize, high, q)
}

// ---- Diagnostic 4

// What a tuple knows of its elements: the place of the latest optional one, if there is one, and where reading stands.
#[derive(Clone, Copy)]
pub struct Seen {
    pub latest: Option<Place>,
    pub m: Mark,
}

// Whether the element read last is optional, with or without a label.
fn is_optional(nodes: &[u64], used: usize) -> bool
    requires { (1 ≤ used) × (used * record_words ≤ length nodes.now) }
    ensures { result ≡ optional_word (last_word nodes.now used) }
{
    let tag = last_tag(nodes, used);
    tag == Tag::Optional as usize || tag == Tag::Named as usize && nodes[used * 4 - 4] / 64 % 2 == 1
}

// The element read last, after others: diagnostic 4 for one that is neither optional nor a rest, if there is an optional one before it.
pub fn checked(
    nodes: &[u64],
    notes: &mut [u64; Noting::WORDS],
    given: Given,
    latest: Option<Place>,
    m: Mark,
) -> Result<Seen, Stop>
    requires { (m.noted ≤ given.records) × (1 ≤ m.used) × (m.used * record_words ≤ length nodes.now) }
    ensures checks { Checks given (told_latest latest) m nodes.now notes.old (told_seen result) notes.new }
    ensures seen_at { SeenAt given m (told_seen result) }
{
    let place = place_at(nodes, m.used - 1);
    if is_optional(nodes, m.used) {
        let latest = Some(place);
        return Ok(Seen { latest, m });
    }
    let Some(other) = latest else {
        return Ok(Seen { latest, m });
    };
    if last_tag(nodes, m.used) == Tag::Rest as usize {
        return Ok(Seen { latest, m });
    }
    let m = report_both(
        notes,
        given,
        Note::RequiredAfterOptional as usize,
        place,
        other,
        m,
    )?;
    Ok(Seen { latest, m })
}

// From the `]` here on: the tuple's node.
pub fn tuple_node(
    words: &[u64],
    nodes: &mut [u64],
    given: Given,
    b: Begin,
    k: Kids,
    m: Mark,
) -> Result<Read, Stop>
    requires { MayPutTuple words.now nodes.old given b k m }
    ensures makes_list { MakesList words.now given b 19 k (next_mark m) nodes.old (told result) nodes.new }
    ensures put { Put given (next_mark m) (told result) }
{
    put_list(words, nodes, given, b, Tag::Tuple as usize, k, next(m))
}
