// Finished nodes and the children that hang under them.
ghost use Rattle.std.specs.Prelude.{◌≡◌, max, ◌+◌, ◌*◌, ◌≤◌, ◌<◌, length};
ghost use Rattle.keys.specs.Bits.{unit};
ghost use Rattle.words.specs.Limits.{tallest, longest};
ghost use Rattle.keys.specs.Limits.{record_words};
ghost use Rattle.marks.specs.State.{Under};
ghost use Rattle.marks.specs.Number.{tag_number};
ghost use Rattle.marks.specs.Told.{told};
ghost use Rattle.marks.specs.Node.{Put, Makes, MakesList, Links, opt_list, list_choices, MakesAbout, MayPut, MayPutAbout, MayPutList};

use crate::state::{Begin, Given, Kids, Mark, Read, Stop, end_byte};
use keys::store::{append_node, link_node};
use words::limits::{List, Tree};
use words::refusal::Refusal;

// The tags of the node table.
#[derive(Clone, Copy, Debug, PartialEq, Eq)]
pub enum Tag {
    Reference = 1,
    Keyword = 2,
    Literal = 3,
    Parens = 4,
    Union = 5,
    Intersection = 6,
    Array = 7,
    Indexed = 8,
    Conditional = 9,
    Infer = 10,
    Operator = 11,
    Function = 12,
    Constructor = 13,
    Mapped = 14,
    Template = 15,
    Predicate = 16,
    Typeof = 17,
    Import = 18,
    Tuple = 19,
    Optional = 20,
    Rest = 21,
    Named = 22,
    NonNull = 23,
    Asked = 24,
    Object = 25,
}

impl Tag {
    // How many tags six bits have: a node's own choices begin above.
    pub const ALL: usize = 64;

    // Its number.
    pub fn number(self) -> usize
        ensures value { result ≡ tag_number self }
        ensures upper_bound { result < 64 }
    {
        self as usize
    }
}

// How many numbers the count of a list can be.
pub const COUNTS: usize = 4096;

// A node over its children, once read: its height, then the room for it.
pub fn put(
    words: &[u64],
    nodes: &mut [u64],
    given: Given,
    b: Begin,
    choices: usize,
    k: Kids,
    m: Mark,
) -> Result<Read, Stop>
    requires { MayPut words.now nodes.old given b k m }
    ensures makes { Makes words.now given b choices k m nodes.old (told result) nodes.new }
    ensures put { Put given m (told result) }
{
    if Tree::TALLEST <= k.high {
        return Err(Stop {
            why: Refusal::TooTall,
            m,
        });
    }
    if given.room <= m.used {
        return Err(Stop {
            why: Refusal::NoRoom,
            m,
        });
    }
    append_node(
        nodes,
        m.used,
        choices as u64,
        b.first,
        end_byte(words, m),
        k.first,
        b.name,
    );
    Ok(Read {
        high: k.high + 1,
        m: Mark {
            used: m.used + 1,
            ..m
        },
    })
}

// A node whose children are its list, and whose one choice is their count.
pub fn put_list(
    words: &[u64],
    nodes: &mut [u64],
    given: Given,
    b: Begin,
    tag: usize,
    k: Kids,
    m: Mark,
) -> Result<Read, Stop>
    requires { MayPutList words.now nodes.old given b tag k m }
    ensures makes_list { MakesList words.now given b tag k m nodes.old (told result) nodes.new }
    ensures put { Put given m (told result) }
{
    if List::LONGEST < k.count {
        return Err(Stop {
            why: Refusal::TooLong,
            m,
        });
    }
    put(words, nodes, given, b, tag + Tag::ALL * k.count, k, m)
}

// A node about the tree that was read last, which ended before m.
pub fn put_about(
    words: &[u64],
    nodes: &mut [u64],
    given: Given,
    b: Begin,
    choices: usize,
    high: usize,
    m: Mark,
) -> Result<Read, Stop>
    requires { MayPutAbout words.now nodes.old given b high m }
    ensures makes_about { MakesAbout words.now given b choices high m nodes.old (told result) nodes.new }
    ensures put { Put given m (told result) }
{
    put(words, nodes, given, b, choices, Kids::one(m.used, high), m)
}

// An optional list as the choices of its node: its bit, and its count.
pub fn opt_list(there: bool, count: usize) -> usize
    requires { count ≤ longest }
    ensures value { result ≡ opt_list there count }
    ensures upper_bound { result < list_choices }
{
    if there { 1 + 2 * count } else { 0 }
}

// One child more: its nodes are those from `before` to `used`, the last of them its root.
pub fn link(nodes: &mut [u64], k: Kids, before: usize, used: usize, high: usize) -> Kids
    requires { (before < used) × (used * record_words ≤ length nodes.old) × Under before k × (high ≤ tallest) }
    ensures links { Links k before used high nodes.old result nodes.new }
    ensures under { Under used result × (result.count ≡ k.count + 1) }
{
    let root = used - 1;
    if k.high == 0 {
        return Kids {
            first: root,
            count: k.count + 1,
            high,
        };
    }
    link_node(nodes, before - 1, root);
    Kids {
        first: k.first,
        count: k.count + 1,
        high: k.high.max(high),
    }
}

// An optional child as a choice of its node.
pub fn opt_bit(there: bool) -> usize
    ensures value { result ≡ unit there }
    ensures upper_bound { result ≤ 1 }
{
    usize::from(there)
}
