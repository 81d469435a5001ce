// A node or a name of a tree on one line: its tag unless its spelling says it, its choices in words and its spellings, and
// in brackets its children.
use crate::known::{Known, Lead, Open};
use crate::say;
use crate::seen::Seen;
use crate::tag::Tag;
use lines::line::Out;
use speech::put::Shape;
use visits::visits::{CHOICE, NAME, NODE, Visit};

// The most visits of a node that are shown.
const MOST: usize = 100;

// A node on its way to the line: what is seen of its tree, the shape of its spellings, the open nodes, whether a blank is due
// before the next word, and the depth of the last node.
#[derive(Drop)]
struct Shown<'a> {
    seen: Seen<'a>,
    shape: Shape,
    open: Open,
    due: bool,
    deep: usize,
}

// What stands before a child, and what it is to the node above.
fn before(out: &mut Out, k: Known, tag: Tag) {
    out.bytes(if k.any { b", " } else { b" (" });
    say::word(out, k.role(tag));
}

// A choice by its word behind a comma, if its node has a child; the words that are said of a mapped type's mark have no blank of
// their own.
fn said(out: &mut Out, k: Known, word: &str) {
    if k.any && !word.is_empty() {
        out.byte(b',');
        if !word.starts_with(' ') {
            out.byte(b' ');
        }
    }
    say::word(out, word);
}

// The words of a keyword, and of a literal that is not said by its spelling.
fn plain(out: &mut Out, tag: Tag, number: usize) {
    match (tag, number) {
        (Tag::Keyword, _) => say::keyword(out, number),
        (_, 3) => out.bytes(b"true"),
        (_, 4) => out.bytes(b"false"),
        (_, 5 | 6) => out.byte(b'-'),
        _ => {}
    }
}

impl<'a> Shown<'a> {
    fn node(&mut self, out: &mut Out, v: Visit, tag: Tag, first: bool) {
        let k = self.open.entered(v, tag);
        if !first {
            before(out, k, tag);
        }
        if !tag.is_plain() {
            say::word(out, tag.name());
        }
        self.due = !tag.is_plain();
        self.deep = v.depth;
    }

    // A choice says which keyword or what literal, or has a word of its own.
    fn choice(&mut self, out: &mut Out, v: Visit) {
        let k = self.open.choosing(v);
        if k.phase == 1 && matches!(k.tag, Tag::Keyword | Tag::Literal) {
            plain(out, k.tag, v.number);
            self.due = false;
        } else {
            said(out, k, k.choice(v.number));
        }
    }

    // What stands before a name: a comma behind a child, a dot, nothing, or a blank if one is due.
    fn lead(&self, out: &mut Out, k: Known) {
        match k.lead() {
            _ if k.any => out.bytes(b", "),
            Lead::Dot => out.byte(b'.'),
            Lead::Space if self.due => out.byte(b' '),
            _ => {}
        }
    }

    fn name(&mut self, out: &mut Out, v: Visit) {
        let k = self.open.naming(v);
        self.lead(out, k);
        self.seen.spell(out, v.number, self.shape);
        self.due = true;
    }

    // The brackets of the open nodes from a depth on end.
    fn close(&self, out: &mut Out, from: usize) {
        for d in from..self.deep.saturating_add(1) {
            if self.open.at(d).any {
                out.byte(b')');
            }
        }
    }

    // A visit, behind the brackets of all nodes that it does not stand under.
    fn visit(&mut self, out: &mut Out, i: usize, first: bool) {
        let v = self.seen.visit(i);
        if !first {
            self.close(out, v.depth);
            self.deep = self.deep.min(v.depth.saturating_sub(1));
        }
        match v.kind {
            NODE => self.node(out, v, self.seen.tag(i), first),
            CHOICE => self.choice(out, v),
            _ => self.name(out, v),
        }
    }

    // Whether a visit stands under a node of a depth.
    fn is_under(&self, i: usize, depth: usize) -> bool {
        depth < self.seen.visit(i).depth
    }

    // The visits of a node from one on that stand under its depth, up to an end.
    fn visits(&mut self, out: &mut Out, from: usize, end: usize, depth: usize) {
        for i in from..end {
            if i != from && !self.is_under(i, depth) {
                return;
            }
            self.visit(out, i, i == from);
        }
    }

    // A node, and dots where it is not shown whole.
    fn whole(&mut self, out: &mut Out, i: usize, depth: usize) {
        let end = i.saturating_add(MOST);
        self.visits(out, i, end, depth);
        if self.is_under(end, depth) {
            if out.last() != Some(b' ') {
                out.byte(b' ');
            }
            out.bytes(b"...");
        }
        self.close(out, depth);
    }
}

// What a visit stands for: a node or a name.
pub fn brief(out: &mut Out, seen: Seen, i: usize, shape: Shape) {
    let v = seen.visit(i);
    if v.kind == NAME {
        seen.spell(out, v.number, shape);
        return;
    }
    let mut b = Shown {
        seen,
        shape,
        open: Open::new(),
        due: false,
        deep: v.depth,
    };
    b.whole(out, i, v.depth);
}
