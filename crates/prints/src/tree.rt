// A tree printed by its visits: a line for each node, indented, with its tag, its bytes, its choices in words and its spellings.
use crate::known::{Known, Lead, Open};
use crate::say;
use crate::seen::{Seen, Whole};
use crate::tag::Tag;
use lines::line::Out;
use speech::put::{Shape, times};
use visits::visits::{CHOICE, NODE, Visit, WORDS};

// The lines so far: the open nodes, and whose line is being written, by the depth of its names.
#[derive(Drop)]
struct Lines {
    open: Open,
    of: Option<usize>,
}

impl Lines {
    // The line that is being written ends.
    fn end(&self, out: &mut Out) {
        if self.of.is_some() {
            out.byte(b'\n');
        }
    }

    // A new line for a depth, unless it is that one's already; on a new line a text leads.
    fn on_line(&mut self, out: &mut Out, depth: usize, lead: &[u8], else_lead: &[u8]) {
        if self.of == Some(depth) {
            out.bytes(else_lead);
            return;
        }
        self.end(out);
        times(out, b"  ", depth);
        out.bytes(lead);
        self.of = Some(depth);
    }

    fn node(&mut self, out: &mut Out, t: Whole, v: Visit, tag: Tag) {
        self.end(out);
        let above = self.open.entered(v, tag);
        times(out, b"  ", v.depth);
        say::word(out, above.role(tag));
        say::word(out, tag.name());
        t.span(out, v.number, b" ", b"..");
        self.of = Some(v.depth.saturating_add(1));
    }

    fn choice(&mut self, out: &mut Out, v: Visit) {
        let k = self.open.choosing(v);
        if k.tag == Tag::Keyword && k.phase == 1 {
            out.byte(b' ');
            say::keyword(out, v.number);
            return;
        }
        let word = k.choice(v.number);
        if !word.is_empty() {
            self.on_line(out, v.depth, b"", b"");
            say::word(out, word);
        }
    }

    fn lead(&mut self, out: &mut Out, depth: usize, k: Known) {
        match k.lead() {
            Lead::Dot => self.on_line(out, depth, b"piece ", b"."),
            Lead::Nothing => self.on_line(out, depth, b"piece ", b""),
            Lead::Space => self.on_line(out, depth, b"piece ", b" "),
        }
    }

    fn name(&mut self, out: &mut Out, seen: Seen, v: Visit) {
        let k = self.open.naming(v);
        self.lead(out, v.depth, k);
        seen.spell(out, v.number, Shape::Shown);
    }

    // A visit by its kind.
    fn visit(&mut self, out: &mut Out, t: Whole, i: usize) {
        let v = t.seen.visit(i);
        match v.kind {
            NODE => self.node(out, t, v, t.seen.tag(i)),
            CHOICE => self.choice(out, v),
            _ => self.name(out, t.seen, v),
        }
    }
}

// The lines of a tree, of whose visits some may be left out.
pub fn tree(out: &mut Out, t: Whole) {
    let shown = t.size.min(t.seen.visits.len()) / WORDS;
    let mut lines = Lines {
        open: Open::new(),
        of: None,
    };
    for i in 0..shown {
        lines.visit(out, t, i);
    }
    lines.end(out);
    if shown < t.size / WORDS {
        out.bytes(b"... the rest of the tree is too long to be shown\n");
    }
}
