// Members of object types, without the types in them.
ghost use Rattle.std.specs.Prelude.{◌≡◌, List, ℕ, ◌+◌, ◌*◌, ◌≤◌, ◌<◌, ◌^◌, length};
ghost use Rattle.words.specs.Limits.{longest};
ghost use Rattle.keys.specs.Limits.{record_words};
ghost use Rattle.keys.specs.Holds.{word_at};
ghost use Rattle.rules.specs.Object as rule;
ghost use Rattle.marks.specs.State.{AnyGiven, view, given_of, Sound, Spelt, Inside, Fine, Moved, Along, Stepped, Reached, place_of};
ghost use Rattle.marks.specs.Says.{StartsBound};
ghost use Rattle.marks.specs.Names.{MayName, MayBind};
ghost use Rattle.marks.specs.Node.{MayPut};
ghost use Rattle.marks.specs.Told.{told, told_mark};
ghost use Rattle.functions.specs.Told.{told_params};
ghost use Rattle.members.specs.Told.{told_member};
ghost use Rattle.members.specs.Object.{MayHead, HeadHas, StartsMember, StartsKey, SaysMember, key_choices, SaysStep, ends_member, MakesMember, property_choices, NotesThis, signature_choices, MakesSignature, with_type, index_start, index_next, MayEndIndex, EndsIndex, NotesIndex, index_choices, literal_word, no_index_word};
ghost use Rattle.marks.specs.Notes.{Noted};

use functions::function::{Params, This, call_choices, new_choices, too_long};
use keys::store::{choices_at, place_at, tag_at};
use marks::names::{name, spell};
use marks::node::{COUNTS, Tag, put};
use marks::notes::{Note, Noting, report, report_if};
use marks::state::{
    Begin, Given, Kids, Mark, Read, Stop, end_byte, first_byte, kind_after, kind_at, next, on_line,
    past,
};
use words::ahead::{accessor_start, index_start, modifier_start, property_key, readonly_start};
use words::kind::{Class, Kind};
use words::refusal::Refusal;

// The sorts of members in the node table.
#[derive(Clone, Copy, Debug, PartialEq, Eq)]
pub enum Sort {
    Property = 0,
    Method = 1,
    Call = 2,
    Construct = 3,
    Index = 4,
}

impl Sort {
    // How many sorts three bits have: a member's own choices begin above.
    pub const ALL: usize = 8;
}

// ---- Heads

// A member up to its first type: its sort, its choices so far, and where reading stands then.
#[derive(Clone, Copy)]
pub struct MemberHead {
    pub sort: Sort,
    pub choices: usize,
    pub m: Mark,
}

// Whether a signature's parameters or type parameters begin with a kind.
fn signs(kind: usize) -> bool
    ensures { result ≡ rule.signs kind }
{
    kind == Kind::L_PAREN || kind == Kind::L_ANGLE
}

// Whether `new` stands here with a signature behind it.
fn constructs(words: &[u64], m: Mark) -> bool
    requires { m.at < 2 ^ 63 }
    ensures { (text O : List ℕ) (given : AnyGiven) → result ≡ rule.constructs (given_of text words.now given) (view m O) }
{
    kind_at(words, m) == Kind::NEW && signs(kind_after(words, m, 1))
}

// Whether readonly stands here as a modifier.
fn is_readonly(words: &[u64], m: Mark) -> bool
    requires { m.at < 2 ^ 63 }
    ensures { (text O : List ℕ) (given : AnyGiven) → result ≡ rule.is_readonly (given_of text words.now given) (view m O) }
{
    readonly_start(words, m.cursor())
}

// Whether another modifier word stands here, or get or set as one.
fn unsupported_here(text: &[u8], words: &[u64], m: Mark) -> bool
    requires { (m.at < 2 ^ 63) × Spelt text.now words.now }
    ensures { (O : List ℕ) (given : AnyGiven) → result ≡ rule.unsupported_here (given_of text.now words.now given) (view m O) }
{
    modifier_start(words, m.cursor()) || accessor_start(text, words, m.cursor())
}

// A member up to its first type: by what it begins with.
pub fn member_head(
    text: &[u8],
    words: &[u64],
    names: &mut [u64],
    m: Mark,
) -> Result<MemberHead, Stop>
    requires { MayHead text.now words.now m }
    ensures starts_member { StartsMember text.now words.now m names.old (told_member result) names.new }
    ensures along { Along (length words.now) m (told_member result).m × HeadHas (length words.now) m (told_member result) }
{
    if signs(kind_at(words, m)) {
        return Ok(MemberHead {
            sort: Sort::Call,
            choices: Sort::Call as usize,
            m,
        });
    }
    if constructs(words, m) {
        return Ok(MemberHead {
            sort: Sort::Construct,
            choices: Sort::Construct as usize,
            m: next(m),
        });
    }
    if is_readonly(words, m) {
        return behind_readonly(text, words, names, true, next(m));
    }
    behind_readonly(text, words, names, false, m)
}

// Behind a readonly if there is one; computed names, accessors and other modifiers are refused.
fn behind_readonly(
    text: &[u8],
    words: &[u64],
    names: &mut [u64],
    readonly: bool,
    m: Mark,
) -> Result<MemberHead, Stop>
    requires { MayHead text.now words.now m }
    ensures says_member { SaysMember (λ g T b. rule.behind_readonly g T b readonly) text.now words.now m names.old (told_member result) names.new }
    ensures along { Along (length words.now) m (told_member result).m × HeadHas (length words.now) m (told_member result) }
{
    if unsupported_here(text, words, m) {
        return Err(Stop {
            why: Refusal::MemberForm,
            m,
        });
    }
    if kind_at(words, m) != Kind::L_BRACK {
        return with_key(words, names, readonly, m);
    }
    if index_start(words, m.at) {
        return Ok(MemberHead {
            sort: Sort::Index,
            choices: Sort::Index as usize + Sort::ALL * usize::from(readonly),
            m,
        });
    }
    Err(Stop {
        why: Refusal::MemberForm,
        m,
    })
}

// A key and its `?`: a method's if a signature follows, else a property's.
fn with_key(words: &[u64], names: &mut [u64], readonly: bool, m: Mark) -> Result<MemberHead, Stop>
    requires { MayName words.now m }
    ensures starts_key { StartsKey readonly words.now m names.old (told_member result) names.new }
    ensures along { Along (length words.now) m (told_member result).m × HeadHas (length words.now) m (told_member result) }
{
    let kind = kind_at(words, m);
    if !property_key(kind) {
        return Err(Stop {
            why: Refusal::Unexpected,
            m,
        });
    }
    let p = spell(words, names, m);
    let key = key_choices(kind, kind_at(words, p) == Kind::QUESTION);
    let q = past(words, Kind::QUESTION, p);
    if signs(kind_at(words, q)) {
        return Ok(MemberHead {
            sort: Sort::Method,
            choices: Sort::Method as usize + Sort::ALL * key,
            m: q,
        });
    }
    Ok(MemberHead {
        sort: Sort::Property,
        choices: Sort::ALL * (usize::from(readonly) + 2 * key),
        m: q,
    })
}

// The choices of a key, by its kind, and of the `?` behind it.
fn key_choices(kind: usize, asked: bool) -> usize
    ensures { (result ≡ key_choices (rule.key_sort kind) asked) × (result ≤ 6) }
{
    let question = 4 * usize::from(asked);
    match kind {
        Kind::STR => 1 + question,
        Kind::NUMBER_LITERAL => 2 + question,
        _ => question,
    }
}

// ---- Ends

// A member's end: a `,` or `;` is taken, also behind a line break; `}` or a line break does without.
pub fn member_end(words: &[u64], m: Mark) -> Result<Mark, Stop>
    requires { Sound words.now × Inside (length words.now) m }
    ensures by_index { (text O : List ℕ) (given : AnyGiven) → SaysStep (ends_member (given_of text words.now given) (view m O)) m O (told_mark result) O }
    ensures moved { Moved (length words.now) m (told_mark result).m × ((told_mark result).high ≡ 0) }
{
    match kind_at(words, m) {
        Kind::COMMA => Ok(next(m)),
        Kind::SEMICOLON => Ok(next(m)),
        Kind::R_CURLY => Ok(m),
        _ if on_line(words, m) => Err(Stop {
            why: Refusal::Unexpected,
            m,
        }),
        _ => Ok(m),
    }
}

// From the end of a member without lists on: its node.
pub fn member_node(
    words: &[u64],
    nodes: &mut [u64],
    given: Given,
    b: Begin,
    choices: usize,
    k: Kids,
    m: Mark,
) -> Result<Read, Stop>
    requires { MayPut words.now nodes.old given b k m }
    ensures makes_member { MakesMember words.now given b choices k m nodes.old (told result) nodes.new }
    ensures reached { Reached (length words.now) given (place_of m) (m.used + 1) (told result).high (told result).why (told result).m }
{
    let e = member_end(words, m)?;
    put(words, nodes, given, b, choices, k, e)
}

// The choices of a property, by those of its head and by whether it has a type.
pub fn property_choices(head: usize, typed: bool) -> usize
    requires { head ≤ 127 }
    ensures { result ≡ property_choices head typed }
{
    head + 16 * Sort::ALL * usize::from(typed)
}

// ---- Signatures

// Diagnostic 3 for the `this` of a construct signature.
pub fn note_this(
    notes: &mut [u64; Noting::WORDS],
    given: Given,
    is_new: bool,
    this: This,
    m: Mark,
) -> Result<Mark, Stop>
    requires { m.noted ≤ given.records }
    ensures notes_this { NotesThis given is_new this m notes.old (told_mark result) notes.new }
    ensures noted { Noted given m (told_mark result) }
{
    if !is_new {
        return Ok(m);
    }
    report_if(
        this.bits != 0,
        notes,
        given,
        Note::ThisOnConstructor as usize,
        this.first,
        this.end,
        m,
    )
}

// The choices of a signature, by those of its head; a construct signature has no `this`.
fn signature_choices(
    head: usize,
    there: bool,
    count: usize,
    this: usize,
    params: usize,
    typed: bool,
) -> usize
    requires { (head ≤ 127) × (count ≤ longest) × (this ≤ 3) × (params ≤ longest) }
    ensures { result ≡ signature_choices head there count this params typed }
{
    let rest = params + COUNTS * usize::from(typed);
    if head == Sort::Construct as usize {
        return head + Sort::ALL * new_choices(there, count, rest);
    }
    if head == Sort::Call as usize {
        return head + Sort::ALL * call_choices(there, count, this, rest);
    }
    // a method's head has its key and its `?` too
    head + 8 * Sort::ALL * call_choices(there, count, this, rest)
}

// From the end of a signature on: its node, of `count` type parameters if they are there, and p, whose children are now all.
pub fn signature_node(
    words: &[u64],
    nodes: &mut [u64],
    given: Given,
    b: Begin,
    head: usize,
    there: bool,
    count: usize,
    p: Params,
    typed: bool,
    m: Mark,
) -> Result<Read, Stop>
    requires { MayPut words.now nodes.old given b p.kids m × (head ≤ 127) × (p.this.bits ≤ 3) }
    ensures makes_signature { MakesSignature words.now given b head there count (told_params (Ok p)) typed m nodes.old (told result) nodes.new }
    ensures reached { Reached (length words.now) given (place_of m) (m.used + 1) (told result).high (told result).why (told result).m }
{
    let e = member_end(words, m)?;
    if too_long(count, p.count) {
        return Err(Stop {
            why: Refusal::TooLong,
            m: e,
        });
    }
    let choices = signature_choices(head, there, count, p.this.bits, p.count, typed);
    put(words, nodes, given, b, choices, p.kids, e)
}

// ---- Index signatures

// Parameters of an index signature so far: how many, 2 for several; of the first its type, a child, and its end byte.
#[derive(Clone, Copy)]
pub struct IndexParams {
    pub count: usize,
    pub kids: Kids,
    pub end: usize,
}

impl IndexParams {
    pub fn none() -> IndexParams
        ensures { result ≡ record { count = 0; kids = record { first = 0; count = 0; high = 0 }; end = 0 } }
    {
        IndexParams {
            count: 0,
            kids: Kids::none(),
            end: 0,
        }
    }

    // With one more, whose type was read last; only the first is kept.
    pub fn with(self, words: &[u64], a: Read) -> IndexParams
        requires { Sound words.now × (1 ≤ a.m.used) × (a.m.half ≤ 1) }
        ensures { result ≡ with_type words.now self (told (Ok a)) }
    {
        if self.count != 0 {
            return IndexParams { count: 2, ..self };
        }
        IndexParams {
            count: 1,
            kids: Kids::one(a.m.used, a.high),
            end: end_byte(words, a.m),
        }
    }
}

// An index parameter up to its type: its name, diagnostic 8 for a `?`, the `:`.
pub fn index_head(
    words: &[u64],
    names: &mut [u64],
    notes: &mut [u64; Noting::WORDS],
    given: Given,
    m: Mark,
) -> Result<Mark, Stop>
    requires { MayBind words.now given m }
    ensures starts_bound { StartsBound index_start words.now given m names.old notes.old (told_mark result) names.new notes.new }
    ensures stepped { Stepped (length words.now) given m (told_mark result) × (m.at < (told_mark result).m.at + (told_mark result).why) }
{
    let p = name(words, names, Class::BindingWord, m)?;
    let a = report_if(
        kind_at(words, p) == Kind::QUESTION,
        notes,
        given,
        Note::AskedIndex as usize,
        first_byte(words, p),
        end_byte(words, next(p)),
        p,
    )?;
    let q = past(words, Kind::QUESTION, a);
    if kind_at(words, q) != Kind::COLON {
        return Err(Stop {
            why: Refusal::Unexpected,
            m: q,
        });
    }
    Ok(next(q))
}

// After an index parameter: at the `]`, or past a comma; diagnostic 9 if that stands before the `]`.
pub fn index_next(
    words: &[u64],
    notes: &mut [u64; Noting::WORDS],
    given: Given,
    m: Mark,
) -> Result<Mark, Stop>
    requires { Sound words.now × Fine (length words.now) given m }
    ensures by_index { (text : List ℕ) → SaysStep (index_next (given_of text words.now given) (view m notes.old)) m notes.old (told_mark result) notes.new }
    ensures stepped { Stepped (length words.now) given m (told_mark result) }
{
    let kind = kind_at(words, m);
    if kind == Kind::R_BRACK {
        return Ok(m);
    }
    if kind != Kind::COMMA {
        return Err(Stop {
            why: Refusal::Unexpected,
            m,
        });
    }
    let p = next(m);
    report_if(
        kind_at(words, p) == Kind::R_BRACK,
        notes,
        given,
        Note::CommaAfterIndex as usize,
        first_byte(words, m),
        end_byte(words, p),
        p,
    )
}

// From the `]` here to the type behind the `:`, with diagnostic 10, 11 or 12; `first` is the first byte of the first parameter.
pub fn index_end(
    words: &[u64],
    nodes: &[u64],
    notes: &mut [u64; Noting::WORDS],
    given: Given,
    b: usize,
    first: usize,
    ps: IndexParams,
    m: Mark,
) -> Result<Mark, Stop>
    requires { MayEndIndex words.now nodes.now given m }
    ensures ends_index { EndsIndex words.now given b first ps m nodes.now notes.old (told_mark result) notes.new }
    ensures stepped { Stepped (length words.now) given m (told_mark result) }
{
    let p = next(m);
    let q = note_index(nodes, notes, given, b, end_byte(words, p), first, ps, p)?;
    if kind_at(words, q) != Kind::COLON {
        return Err(Stop {
            why: Refusal::Unexpected,
            m: q,
        });
    }
    Ok(next(q))
}

// Diagnostic 12 where there is not one parameter; 10 or 11 where the type of the one is a literal or a keyword that is no index.
fn note_index(
    nodes: &[u64],
    notes: &mut [u64; Noting::WORDS],
    given: Given,
    b: usize,
    end: usize,
    first: usize,
    ps: IndexParams,
    m: Mark,
) -> Result<Mark, Stop>
    requires { (m.used * record_words ≤ length nodes.now) × (m.noted ≤ given.records) }
    ensures notes_index { NotesIndex given b end first ps m nodes.now notes.old (told_mark result) notes.new }
    ensures noted { Noted given m (told_mark result) }
{
    if ps.count != 1 {
        return report(notes, given, Note::NotOneIndex as usize, b, end, m);
    }
    let at = ps.kids.first;
    if is_literal(nodes, at) {
        let place = place_at(nodes, at);
        return report(
            notes,
            given,
            Note::LiteralIndex as usize,
            place.first,
            place.end,
            m,
        );
    }
    report_if(
        is_no_index(nodes, at),
        notes,
        given,
        Note::KeywordIndex as usize,
        first,
        ps.end,
        m,
    )
}

// The choices of an index signature, by those of its head and by whether a parameter is kept.
pub fn index_choices(head: usize, there: bool) -> usize
    requires { head ≤ 127 }
    ensures { result ≡ index_choices head there }
{
    head + 2 * Sort::ALL * usize::from(there)
}

// Whether a node is a literal: a 3, or a 15 with no types.
fn is_literal(nodes: &[u64], at: usize) -> bool
    ensures { result ≡ literal_word (word_at nodes.now at) }
{
    let tag = tag_at(nodes, at);
    tag == Tag::Literal as usize || tag == Tag::Template as usize && choices_at(nodes, at) == 0
}

// Whether a node is a keyword other than any, number, string, symbol and this.
fn is_no_index(nodes: &[u64], at: usize) -> bool
    ensures { result ≡ no_index_word (word_at nodes.now at) }
{
    tag_at(nodes, at) == Tag::Keyword as usize
        && !matches!(choices_at(nodes, at), 0 | 5 | 7 | 8 | 9)
}
