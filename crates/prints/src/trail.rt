// The way to a place of a tree: the bit of each visit in the key, and the steps from the root to it in words.
use crate::known::{DEEPEST, Known, Open};
use crate::say;
use crate::seen::{Seen, Whole};
use crate::tag::Tag;
use keys::store::name_at;
use lines::line::Out;
use speech::put::{Shape, numbered};
use visits::visits::{CHOICE, NAME, Visit, WORDS};
use words::cursor::word_at;

// Where a key's root begins: behind the number of its edition.
const ROOT: usize = 4;

// ---- Bits

// The width of the choice that a node has next; a node's first is its tag, or a member's sort.
fn width(k: Known) -> usize {
    match (k.tag, k.phase) {
        (Tag::TypeParameter | Tag::Parameter, 0) => 0,
        (Tag::Property | Tag::Method, 0) => 3,
        (Tag::CallSignature | Tag::ConstructSignature | Tag::IndexSignature, 0) => 3,
        (_, 0) => 6,
        (Tag::Keyword, _) => 4,
        (Tag::Literal, _) => 3,
        (Tag::Operator, _) | (Tag::Mapped, 1 | 3) => 2,
        (Tag::Property, 2) | (Tag::Method, 1) => 2,
        (tag, phase) => { if is_count(tag, phase) { 12 } else { 1 } }
    }
}

// Whether a choice behind the tag is a count, and not a flag.
fn is_count(tag: Tag, phase: usize) -> bool {
    match tag {
        Tag::Union | Tag::Intersection | Tag::Template | Tag::Tuple | Tag::Object => true,
        Tag::Reference | Tag::Typeof => phase != 2,
        Tag::Import => matches!(phase, 2 | 4),
        _ => tag.is_signature() && matches!(phase, 3 | 7),
    }
}

// ---- Steps

// A step to a child or a name of a node: what that is, which of several, and the name of a member, once it is known.
#[derive(Clone, Copy)]
struct Step {
    role: &'static str,
    which: Option<usize>,
    name: Option<usize>,
}

impl Step {
    // The step to the only one of its sort.
    fn one(role: &'static str) -> Step {
        Step {
            role,
            which: None,
            name: None,
        }
    }

    // The step to the next one of several, of which so many are behind.
    fn next(role: &'static str, behind: usize) -> Step {
        Step {
            role,
            which: Some(behind.saturating_add(1)),
            name: None,
        }
    }

    // The step from a node to a child of a tag.
    fn to_child(k: Known, child: Tag) -> Step {
        match (k.tag, k.phase, k.kids) {
            (Tag::Reference | Tag::Typeof | Tag::Import, _, _) => Step::next("argument", k.kids),
            (Tag::Union | Tag::Intersection, _, _) => Step::next("entry", k.kids),
            (Tag::Template, _, _) => Step::next("type", k.kids),
            (Tag::Tuple, _, _) => Step::next("element", k.kids),
            (Tag::Object, _, _) => Step::next("member", k.kids),
            (Tag::Array, _, _) => Step::one("element type"),
            (Tag::Indexed, _, 0) => Step::one("object"),
            (Tag::Indexed, _, _) | (Tag::IndexSignature, 4, 0) => Step::one("index"),
            (Tag::Conditional, _, 0) => Step::one("check"),
            (Tag::Conditional, _, 1) => Step::one("extends"),
            (Tag::Conditional, _, 2) => Step::one("then"),
            (Tag::Conditional, _, _) => Step::one("else"),
            (Tag::Infer, _, _) | (Tag::Mapped | Tag::TypeParameter, 2, _) => {
                Step::one("constraint")
            }
            (Tag::TypeParameter, _, _) => Step::one("default"),
            (Tag::Mapped, 3, _) => Step::one("name type"),
            (tag, _, _) if tag.is_signature() => Step::in_signature(k, child),
            _ => Step::one("type"),
        }
    }

    // The step from a signature to a child of a tag.
    fn in_signature(k: Known, child: Tag) -> Step {
        match child {
            Tag::TypeParameter => Step::next("type parameter", k.kids),
            Tag::Parameter => Step::next("parameter", k.kids),
            _ if k.phase == 7 => Step::one("this type"),
            _ => Step::one("return type"),
        }
    }

    // The step from a node to a name of it, which may stand alone.
    fn to_name(k: Known, alone: bool) -> Step {
        match (k.tag, k.phase) {
            (Tag::Literal, _) => Step::one("spelling"),
            (Tag::Mapped, _) => Step::one("key"),
            (Tag::Template, _) => Step::next("piece", k.names),
            (Tag::Import, 2) => Step::one("source"),
            (Tag::Named, _) => Step::one("label"),
            (Tag::Reference | Tag::Typeof | Tag::Import, _) if k.names != 0 || !alone => {
                Step::next("name", k.names)
            }
            _ => Step::one("name"),
        }
    }

    // The step in words, with the name of a member in brackets.
    fn say(self, out: &mut Out, seen: Seen, shape: Shape) {
        say::word(out, self.role);
        if let Some(n) = self.which {
            numbered(out, b" ", n);
        }
        if let Some(name) = self.name {
            out.bytes(b" (");
            seen.spell(out, name, shape);
            out.byte(b')');
        }
    }
}

// What stands between two steps.
fn mark(out: &mut Out) {
    say::word(out, " \u{203a} ");
}

// Behind the path of a type parameter: its name.
pub fn to_name(out: &mut Out) {
    mark(out);
    out.bytes(b"name");
}

// ---- A visit further

// How far a tree's visits are gone through: its open nodes, the step at each depth, and the bit where the next visit begins.
#[derive(Drop)]
pub struct Trail {
    open: Open,
    steps: [Step; DEEPEST],
    pub bit: usize,
}

impl Trail {
    // At the root.
    pub fn new() -> Trail {
        Trail {
            open: Open::new(),
            steps: [Step::one("type"); DEEPEST],
            bit: ROOT,
        }
    }

    fn set_step(&mut self, depth: usize, s: Step) {
        if let Some(place) = self.steps.get_mut(depth) {
            *place = s;
        }
    }

    // The step to a depth.
    fn step(&self, depth: usize) -> Step {
        self.steps.get(depth).copied().unwrap_or(Step::one("type"))
    }

    // A visit that no pair speaks of: the step to a member gets the member's name, which both trees have then.
    pub fn keep_name(&mut self, v: Visit) {
        if v.kind == NAME && self.open.owner(v).tag.is_keyed() {
            if let Some(step) = self.steps.get_mut(v.depth.saturating_sub(1)) {
                step.name = Some(v.number);
            }
        }
    }

    // Behind a visit: the step to it is kept at its depth.
    pub fn pass(&mut self, seen: Seen, i: usize) {
        let v = seen.visit(i);
        let wide = match v.kind {
            CHOICE => width(self.open.choosing(v)),
            NAME => {
                let k = self.open.naming(v);
                let alone = !seen.is_name(i.saturating_add(1));
                self.set_step(v.depth, Step::to_name(k, alone));
                16 + 8 * name_at(seen.names, v.number).size
            }
            _ => {
                let tag = seen.tag(i);
                let k = self.open.entered(v, tag);
                self.set_step(v.depth, Step::to_child(k, tag));
                0
            }
        };
        self.bit = self.bit.saturating_add(wide);
    }

    // Whether the next visit, of an index, is a node's or a name's that begins at a bit.
    pub fn is_at(&self, seen: Seen, i: usize, bit: usize) -> bool {
        !seen.is_choice(i) && self.bit == bit
    }

    // The steps to a depth.
    pub fn path(&self, out: &mut Out, depth: usize, seen: Seen, shape: Shape) {
        if depth == 0 {
            out.bytes(b"root");
        }
        for d in 0..depth {
            if d != 0 {
                mark(out);
            }
            self.step(d + 1).say(out, seen, shape);
        }
    }
}

// ---- Places of pairs

// How many pairs there may be.
const MOST: usize = 4096;

// The pairs of bits of a list, and for each of them the visit of the right tree that it speaks of.
#[derive(Drop)]
pub struct Pairs<'a> {
    list: &'a [u64],
    spots: [usize; MOST],
}

impl<'a> Pairs<'a> {
    // The pairs of a list, found in the visits of the right tree.
    pub fn of(list: &'a [u64], right: Whole) -> Pairs<'a> {
        let mut pairs = Pairs {
            list,
            spots: [0; MOST],
        };
        let mut trail = Trail::new();
        let mut next: usize = 0;
        for i in 0..right.size / WORDS {
            if next < MOST && trail.is_at(right.seen, i, pairs.right(next)) {
                pairs.spots[next] = i;
                next += 1;
            }
            trail.pass(right.seen, i);
        }
        pairs
    }

    // The bit of the left key that the pair of a number has; behind the last pair there are zeros.
    pub fn left(&self, number: usize) -> usize {
        word_at(self.list, number.saturating_mul(2)) as usize
    }

    // The bit of the right key.
    pub fn right(&self, number: usize) -> usize {
        word_at(self.list, number.saturating_mul(2).saturating_add(1)) as usize
    }

    // The visit of the right tree.
    pub fn spot(&self, number: usize) -> usize {
        self.spots.get(number).copied().unwrap_or(0)
    }
}

// The number of the next choice at a depth, from a visit on; 0 where there is none.
fn next_choice(seen: Seen, from: usize, depth: usize) -> usize {
    for i in from..seen.visits.len() / WORDS {
        let v = seen.visit(i);
        if v.kind == CHOICE && v.depth == depth {
            return v.number;
        }
    }
    0
}

// Whether a type parameter has a constraint, and a default: the choices behind its name.
fn opts(seen: Seen, i: usize) -> (usize, usize) {
    let inside = seen.visit(i).depth.saturating_add(1);
    (
        seen.number(i.saturating_add(3)),
        next_choice(seen, i.saturating_add(4), inside),
    )
}

// Whether two nodes that begin where a pair says are type parameters that differ in their names alone, which begin there too.
pub fn by_name(left: Seen, i: usize, right: Seen, j: usize) -> bool {
    left.is_node(i) && left.tag(i) == Tag::TypeParameter && opts(left, i) == opts(right, j)
}
