// Two trees compared: a line, or an object of JSON, for each place where they differ.
use crate::brief::brief;
use crate::json::comma;
use crate::seen::{Seen, Whole};
use crate::taking;
use crate::trail::{Pairs, Trail, by_name, to_name};
use lines::line::Out;
use speech::ask::{Form, Side};
use speech::put::{Shape, numbered};
use visits::visits::WORDS;
use words::refusal::Refusal;

// ---- A pair of places

// Both trees, where they differ, and the form in which that is printed.
#[derive(Clone, Copy)]
struct Both<'a> {
    left: Seen<'a>,
    right: Seen<'a>,
    pairs: &'a Pairs<'a>,
    form: Form,
}

// A side for JSON: its bit and what it has there.
fn side_json(out: &mut Out, lead: &[u8], bit: usize, seen: Seen, i: usize) {
    numbered(out, lead, bit);
    out.bytes(b",\"text\":\"");
    brief(out, seen, i, Shape::Json);
    out.bytes(b"\"}");
}

impl<'a> Both<'a> {
    // How a pair begins: its path.
    fn way(self, out: &mut Out, trail: &Trail, depth: usize, named: bool, first: bool) {
        if self.form == Form::Json {
            comma(out, first);
            out.bytes(b"{\"path\":\"");
            trail.path(out, depth, self.left, Shape::Json);
        } else {
            trail.path(out, depth, self.left, Shape::Shown);
        }
        if named {
            to_name(out);
        }
    }

    // What both sides have there, the pair of a number.
    fn sides(self, out: &mut Out, number: usize, i: usize, j: usize) {
        if self.form == Form::Json {
            let left = self.pairs.left(number);
            let right = self.pairs.right(number);
            side_json(out, b"\",\"left\":{\"bit\":", left, self.left, i);
            side_json(out, b",\"right\":{\"bit\":", right, self.right, j);
            out.byte(b'}');
        } else {
            out.bytes(b": ");
            brief(out, self.left, i, Shape::Shown);
            out.bytes(b" | ");
            brief(out, self.right, j, Shape::Shown);
            out.byte(b'\n');
        }
    }

    // A pair of a number, whose left side is the visit i; the name of a type parameter stands two visits behind its node.
    fn pair(self, out: &mut Out, trail: &Trail, number: usize, i: usize) {
        let j = self.pairs.spot(number);
        let named = by_name(self.left, i, self.right, j);
        self.way(out, trail, self.left.visit(i).depth, named, number == 0);
        let behind = if named { 2 } else { 0 };
        self.sides(
            out,
            number,
            i.saturating_add(behind),
            j.saturating_add(behind),
        );
    }

    // All pairs, by n visits of the left tree.
    fn all(self, out: &mut Out, n: usize) {
        let mut trail = Trail::new();
        let mut next: usize = 0;
        for i in 0..n {
            let met = trail.is_at(self.left, i, self.pairs.left(next));
            trail.pass(self.left, i);
            if met {
                self.pair(out, &trail, next, i);
                next = next.saturating_add(1);
            } else {
                trail.keep_name(self.left.visit(i));
            }
        }
    }
}

// ---- What it came to

// Trees that are too large to be gone through in words.
fn too_large(out: &mut Out, form: Form) {
    if form == Form::Json {
        out.bytes(
            b"{\"ok\":false,\"why\":\"the trees differ, and are too large to be compared in words\"}\n",
        );
    } else {
        out.bytes(b"refused: the trees differ, and are too large to be compared in words\n");
    }
}

// No pair.
pub fn alike(out: &mut Out, form: Form) {
    if form == Form::Json {
        out.bytes(b"[]\n");
    } else {
        out.bytes(b"the same\n");
    }
}

// More pairs than there is room for.
fn too_many(out: &mut Out, room: usize, form: Form) {
    if form == Form::Json {
        out.bytes(b"{\"ok\":false,\"refused\":{\"number\":29,\"name\":\"ManyDifferences\"}}\n");
    } else {
        numbered(out, b"refused: ManyDifferences: there are over ", room);
        out.bytes(b" differences\n");
    }
}

// A refusal of the comparison: of a side, or of too many differences.
pub fn refused(
    out: &mut Out,
    left: &[u8],
    right: &[u8],
    why: Refusal,
    side: Option<Side>,
    bit: usize,
    room: usize,
    form: Form,
) {
    match side {
        Some(Side::Left) => taking::refused(out, left, why, bit, form, side),
        Some(Side::Right) => taking::refused(out, right, why, bit, form, side),
        None => too_many(out, room, form),
    }
}

// The most words that the visits of one of two trees may have: half of what there is room for.
pub const HALF: usize = 196608;

// Whether the visits of a tree, of so many words, are there and have room.
fn fits(size: usize) -> bool {
    size != 0 && size <= HALF
}

// Both trees, each seen in a half of the room, and the pairs of a list.
pub fn told(out: &mut Out, list: &[u64], left: Whole, right: Whole, form: Form) {
    if !fits(left.size) || !fits(right.size) {
        too_large(out, form);
        return;
    }
    let pairs = Pairs::of(list, right);
    let both = Both {
        left: left.seen,
        right: right.seen,
        pairs: &pairs,
        form,
    };
    if form == Form::Json {
        out.byte(b'[');
        both.all(out, left.size / WORDS);
        out.bytes(b"]\n");
    } else {
        both.all(out, left.size / WORDS);
    }
}
