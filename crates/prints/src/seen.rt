// A tree as those who print it see it: by its visits.
use crate::tag::Tag;
use keys::store::{name_at, place_at};
use lines::line::Out;
use speech::put::{Shape, copy, numbered};
use visits::visits::{CHOICE, NAME, NODE, Visit, visit_at};

// What is seen of a tree: its visits, its names, and the bytes that these are spelled by.
#[derive(Clone, Copy)]
pub struct Seen<'a> {
    pub visits: &'a [u64],
    pub names: &'a [u64],
    pub text: &'a [u8],
}

impl<'a> Seen<'a> {
    // A tree with these visits and names.
    pub fn of(visits: &'a [u64], names: &'a [u64], text: &'a [u8]) -> Seen<'a> {
        Seen {
            visits,
            names,
            text,
        }
    }

    // The visit of an index; its kind is a number, since visits stand in words that are lent.
    pub fn visit(self, i: usize) -> Visit {
        visit_at(self.visits, i)
    }

    // The number of the node, the choice or the name that is visited.
    pub fn number(self, i: usize) -> usize {
        self.visit(i).number
    }

    // Whether a node is visited.
    pub fn is_node(self, i: usize) -> bool {
        self.visit(i).kind == NODE
    }

    // Whether a choice is visited.
    pub fn is_choice(self, i: usize) -> bool {
        self.visit(i).kind == CHOICE
    }

    // Whether a name is visited.
    pub fn is_name(self, i: usize) -> bool {
        self.visit(i).kind == NAME
    }

    // The tag of the node that is visited: that of the next visit; a parameter goes on with a choice, a type parameter with a name.
    pub fn tag(self, i: usize) -> Tag {
        match self.number(i.saturating_add(1)) {
            0 if self.is_choice(i.saturating_add(2)) => Tag::Parameter,
            0 => Tag::TypeParameter,
            n => Tag::from(n),
        }
    }

    // The spelling of a name.
    pub fn spell(self, out: &mut Out, number: usize, shape: Shape) {
        let n = name_at(self.names, number);
        copy(out, self.text, n.start, n.start + n.size, shape);
    }
}

// A tree that is printed: what is seen of it, its nodes where they were read from a text, and how many words its visits have in all.
#[derive(Clone, Copy)]
pub struct Whole<'a> {
    pub seen: Seen<'a>,
    pub nodes: Option<&'a [u64]>,
    pub size: usize,
}

impl<'a> Whole<'a> {
    // A tree whose nodes were not read from a text.
    pub fn of(seen: Seen<'a>, size: usize) -> Whole<'a> {
        Whole {
            seen,
            nodes: None,
            size,
        }
    }

    // A node's first and end byte, each behind a text, if it was read from one.
    pub fn span(self, out: &mut Out, number: usize, first: &[u8], end: &[u8]) {
        if let Some(nodes) = self.nodes {
            let place = place_at(nodes, number);
            numbered(out, first, place.first);
            numbered(out, end, place.end);
        }
    }
}
