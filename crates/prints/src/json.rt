// One JSON object for a reading: what it came to, its place or its key, end, type rules entered, diagnostics and tree.
use crate::place::Place;
use crate::say;
use crate::seen::{Seen, Whole};
use crate::tag::Tag;
use lines::line::Out;
use noted::Note;
use speech::ask::Side;
use speech::put::{Shape, copy, numbered, pick, times};
use visits::visits::{CHOICE, NODE, WORDS};
use words::refusal::Refusal;

// A comma, unless what follows is the first.
pub fn comma(out: &mut Out, first: bool) {
    if !first {
        out.byte(b',');
    }
}

// The field of a flag.
fn flag(out: &mut Out, lead: &[u8], is: bool) {
    out.bytes(lead);
    say::word(out, if is { "true" } else { "false" });
}

// ---- What a member says of itself by name, for a program that does not know the places of its items

// The field of a choice that is true or false.
fn choice_flag(out: &mut Out, lead: &[u8], number: usize) {
    out.bytes(lead);
    pick(out, &["false", "true"], number);
}

fn name(out: &mut Out, seen: Seen, number: usize) {
    out.byte(b'"');
    seen.spell(out, number, Shape::Json);
    out.byte(b'"');
}

// A spelling as the field `name`.
fn called(out: &mut Out, seen: Seen, number: usize) {
    out.bytes(b",\"name\":");
    name(out, seen, number);
}

// The key of a property or a method, which begins at a visit, and its mark.
fn keyed(out: &mut Out, seen: Seen, i: usize) {
    out.bytes(b",\"key\":\"");
    pick(out, &["name", "string", "number"], seen.number(i));
    out.byte(b'"');
    called(out, seen, seen.number(i.saturating_add(1)));
    choice_flag(out, b",\"optional\":", seen.number(i.saturating_add(2)));
}

// The fields of a node of a tag, whose choices begin at a visit behind the tag's.
fn own_fields(out: &mut Out, seen: Seen, i: usize, tag: Tag) {
    let next = i.saturating_add(1);
    match tag {
        Tag::Method => keyed(out, seen, i),
        Tag::Property => {
            choice_flag(out, b",\"readonly\":", seen.number(i));
            keyed(out, seen, next);
        }
        Tag::IndexSignature => {
            choice_flag(out, b",\"readonly\":", seen.number(i));
            if seen.number(next) != 0 {
                called(out, seen, seen.number(i.saturating_add(2)));
            }
        }
        _ => {}
    }
}

// ---- The tree

// How a node begins, whose visit has an index: its items follow, in the key's order.
fn node(out: &mut Out, t: Whole, i: usize) {
    let tag = t.seen.tag(i);
    out.bytes(b"{\"tag\":\"");
    say::word(out, tag.name());
    out.byte(b'"');
    t.span(out, t.seen.number(i), b",\"first\":", b",\"end\":");
    own_fields(out, t.seen, i.saturating_add(2), tag);
    out.bytes(b",\"items\":[");
}

// Whether the visit before one of an index is a node's.
fn after_node(seen: Seen, i: usize) -> bool {
    i != 0 && seen.is_node(i - 1)
}

// Whether a visit is the first of its node behind the tag, or the root.
fn leads(seen: Seen, i: usize) -> bool {
    i == 0 || after_node(seen, i - 1)
}

// How many nodes end behind a visit, of n.
fn closing(seen: Seen, i: usize, n: usize) -> usize {
    let v = seen.visit(i);
    let next = i.saturating_add(1);
    match v.kind {
        NODE => 0,
        _ if n <= next => v.depth,
        _ => v.depth.saturating_sub(seen.visit(next).depth),
    }
}

// A node, a choice or a name, with a comma if others stand before it.
fn item(out: &mut Out, t: Whole, i: usize) {
    comma(out, leads(t.seen, i));
    let v = t.seen.visit(i);
    match v.kind {
        NODE => node(out, t, i),
        CHOICE => numbered(out, b"", v.number),
        _ => name(out, t.seen, v.number),
    }
}

// The tree, or null where its visits do not all fit. A tag is said with its node.
pub fn tree(out: &mut Out, t: Whole) {
    out.bytes(b",\"tree\":");
    if t.seen.visits.len() < t.size {
        out.bytes(b"null");
        return;
    }
    let n = t.size / WORDS;
    for i in 0..n {
        if !after_node(t.seen, i) {
            item(out, t, i);
        }
        times(out, b"]}", closing(t.seen, i, n));
    }
}

// ---- Diagnostics

// A diagnostic's number, words and bytes.
fn note_words(out: &mut Out, n: Note) {
    numbered(out, b"{\"number\":", n.number);
    out.bytes(b",\"name\":\"");
    say::word(out, say::diagnostic(n.number));
    numbered(out, b"\",\"first\":", n.first);
    numbered(out, b",\"end\":", n.end);
}

// The second place of a diagnostic, or null.
fn other(out: &mut Out, text: &[u8], n: Note, line: usize) {
    if n.other_end == 0 {
        out.bytes(b",\"other\":null");
        return;
    }
    numbered(out, b",\"other\":{\"first\":", n.other_first);
    numbered(out, b",\"end\":", n.other_end);
    out.byte(b',');
    Place::of(text, n.other_first, line).json(out);
    out.byte(b'}');
}

// A diagnostic with its place, and a second one.
fn note(out: &mut Out, text: &[u8], n: Note, line: usize) {
    note_words(out, n);
    out.byte(b',');
    Place::of(text, n.first, line).json(out);
    other(out, text, n, line);
    out.byte(b'}');
}

// The diagnostics.
pub fn diagnostics(out: &mut Out, notes: &[Note], text: &[u8], line: usize) {
    out.bytes(b",\"diagnostics\":[");
    for (i, n) in notes.iter().enumerate() {
        comma(out, i == 0);
        note(out, text, *n, line);
    }
    out.byte(b']');
}

// ---- The rest

// The end: its token, half and place, and whether the text has nothing more.
pub fn end(out: &mut Out, token: usize, half: usize, place: Place, whole: bool) {
    numbered(out, b",\"end\":{\"token\":", token);
    numbered(out, b",\"half\":", half);
    out.byte(b',');
    place.json(out);
    flag(out, b",\"whole\":", whole);
    out.byte(b'}');
}

// The key.
pub fn key(out: &mut Out, key: &[u8]) {
    out.bytes(b"{\"ok\":true,\"key\":\"");
    copy(out, key, 0, key.len(), Shape::Hex);
    out.byte(b'"');
}

// How an answer begins that is none: its side if there are two.
pub fn failed(out: &mut Out, side: Option<Side>) {
    out.bytes(b"{\"ok\":false,");
    match side {
        Some(Side::Left) => out.bytes(b"\"side\":\"left\","),
        Some(Side::Right) => out.bytes(b"\"side\":\"right\","),
        None => {}
    }
}

// How a refusal begins: its side if there are two, its number, its name and what it means.
pub fn refusal(out: &mut Out, side: Option<Side>, why: Refusal, ends: bool) {
    failed(out, side);
    numbered(out, b"\"refused\":{\"number\":", why.number());
    out.bytes(b",\"name\":\"");
    say::refusal(out, why);
    out.bytes(b"\",\"why\":\"");
    say::why(out, why, ends);
    out.byte(b'"');
}
