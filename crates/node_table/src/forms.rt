// The node table as a table of words: four to a form, and behind the forms the lists of what choices lead to.
ghost use Rattle.std.specs.Prelude.{◌≡◌, ◌+◌, ◌-◌, ◌*◌, ◌≤◌, ◌<◌, ◌^◌, get_or};
ghost use Rattle.keys.specs.Limits.{count_width};
ghost use Rattle.node_table.specs.Forms.{entry_from, entry_at, class_at, IsRow, Lists, Jumps, table_words, table_most};

use crate::tables;

// The edition of our keys.
pub const EDITION: u32 = 1;

// Its width.
pub const EDITION_WIDTH: usize = 4;

// The words of a form.
const ENTRY: usize = 4;

// Where the table says how many steps its longest form has, how many classes there are, and how many forms.
pub const STEPS: usize = 1;

const CLASSES: usize = 2;

const FORMS: usize = 3;

// The class of a type.
pub const TYPE: usize = 0;

// The operations of a form; from CHOICE on each is a choice. Numbers and no enum: a lent table may hold any, and IsRow says that a row is the table's words.
pub const NEVER: usize = 0;

pub const END: usize = 1;

pub const SPELLINGS: usize = 2;

pub const NODES: usize = 3;

pub const SPELLING: usize = 4;

pub const CHOICE: usize = 5;

pub const TIMES: usize = 6;

// How many words the table has.
pub const TABLE: usize = 526;

// The whole table, to be taken once a call and lent.
pub fn words() -> [u16; TABLE]
    ensures { result ≡ table_words count_width }
{
    tables::WORDS
}

// One form of the table; none is all zeros.
#[derive(Clone, Copy, Default)]
pub struct Row {
    pub op: usize,
    pub w: usize,
    pub a: usize,
    pub b: usize,
}

// A word of the table, 0 past its end.
pub fn word_at(forms: &[u16], at: usize) -> usize
    ensures { (result ≡ get_or forms.now at 0) × (result < table_most) }
{
    usize::from(forms.get(at).copied().unwrap_or(0))
}

// The four words from a place on, 0 past the end.
fn row_from(forms: &[u16], at: usize) -> Row
    requires { at ≤ 2 ^ 40 }
    ensures { IsRow (entry_from forms.now at) result }
{
    Row {
        op: word_at(forms, at),
        w: word_at(forms, at + 1),
        a: word_at(forms, at + 2),
        b: word_at(forms, at + 3),
    }
}

// A form of the table, never past the last.
pub fn row_at(forms: &[u16], form: usize) -> Row
    requires { form < table_most }
    ensures { IsRow (entry_at forms.now form) result }
{
    if form < word_at(forms, FORMS) {
        row_from(forms, form * ENTRY)
    } else {
        Row::default()
    }
}

// The choice of a class's tag, none past the last class.
pub fn class_at(forms: &[u16], class: usize) -> Row
    requires { class < table_most }
    ensures { IsRow (class_at forms.now class) result }
{
    if class < word_at(forms, CLASSES) {
        row_from(forms, (class + 1) * ENTRY)
    } else {
        Row::default()
    }
}

// The form that a choice leads to, and how many times its first step is done.
#[derive(Clone, Copy)]
pub struct Jump {
    pub form: usize,
    pub n: usize,
}

// One of the forms that a row lists; past the last form where the number is too large.
pub fn listed_at(forms: &[u16], r: Row, t: usize) -> Jump
    requires { (r.a < table_most) × (t < table_most) }
    ensures { Lists forms.now r t result }
{
    let form = if t < r.b {
        word_at(forms, r.a + t)
    } else {
        word_at(forms, FORMS)
    };
    Jump { form, n: 1 }
}

// What the number t of a choice leads to.
pub fn jump_at(forms: &[u16], r: Row, t: usize) -> Jump
    requires { (r.a < table_most) × (r.b < table_most) × (t < table_most) × (5 ≤ r.op) }
    ensures { Jumps forms.now r t result }
{
    match r.op {
        CHOICE => listed_at(forms, r, t),
        TIMES if r.a <= t => Jump { form: r.b, n: t },
        TIMES => Jump {
            form: word_at(forms, FORMS),
            n: 1,
        },
        _ => Jump { form: r.b, n: 1 },
    }
}
