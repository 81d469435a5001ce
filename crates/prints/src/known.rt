// What is known of the open nodes of a tree while its visits are gone through: how far each one's choices are, and what is said of them.
use crate::tag::Tag;
use visits::visits::Visit;

// How many nodes may be open at once.
pub const DEEPEST: usize = 260;

// What is known of an open node: its tag, how far its choices are, as the place of the next among all that a node of its tag may
// have, whether it has a child yet, its children and its names since the last choice.
#[derive(Clone, Copy)]
pub struct Known {
    pub tag: Tag,
    pub phase: usize,
    pub any: bool,
    pub kids: usize,
    pub names: usize,
}

// What stands before a name on its node's line.
#[derive(Clone, Copy)]
pub enum Lead {
    Space,
    // behind another name
    Dot,
    // behind a minus
    Nothing,
}

// A way that a choice leaves out if it is 0.
fn way(number: usize, without: usize, with: usize) -> usize {
    if number == 0 { without } else { with }
}

impl Known {
    // A fresh node of a tag.
    pub fn fresh(tag: Tag) -> Known {
        Known {
            tag,
            phase: 0,
            any: false,
            kids: 0,
            names: 0,
        }
    }

    // Where the choices of a node go on behind the choice of a number. Behind a method's key and its mark all is as in a call signature.
    fn next_phase(self, number: usize) -> usize {
        match (self.tag, self.phase) {
            (_, 0) => 1,
            (Tag::Literal, _) => if number < 5 { 2 } else { 3 },
            (Tag::Method, 1) => 11,
            (Tag::Method, 11) => 2,
            (Tag::Function | Tag::CallSignature, 1) | (Tag::Method, 2) => way(number, 5, 3),
            (Tag::Function | Tag::CallSignature | Tag::Method, 3) => 5,
            (Tag::Function | Tag::CallSignature | Tag::Method, 5) => way(number, 7, 6),
            (Tag::Constructor, 2) | (Tag::ConstructSignature, 1 | 2) => way(number, 7, 3),
            (Tag::Constructor | Tag::ConstructSignature, 3) => 7,
            (Tag::Import, 3) => way(number, 5, 4),
            (Tag::IndexSignature, 2) => way(number, 3, 4),
            (_, phase) => phase.saturating_add(1),
        }
    }

    // A choice in words; most have none.
    pub fn choice(self, number: usize) -> &'static str {
        match (self.tag, self.phase, number) {
            (_, 0, _) => "",
            (Tag::Reference | Tag::Typeof, 3, 0) | (Tag::Import, 4, 0) => " with empty arguments",
            (Tag::Literal, _, _) => literal_word(number),
            (Tag::Operator, _, _) => operator_word(number),
            (Tag::Constructor, 1, 1) => " abstract",
            (Tag::Predicate, 1, 1) => " asserts",
            (Tag::Import, 1, 1) => " typeof",
            (Tag::Mapped, 1, _) => readonly_word(number),
            (Tag::Mapped, 3, _) => question_word(number),
            (Tag::Parameter, 1, 1) => " rest",
            (Tag::Property | Tag::IndexSignature, 1, 1) => " readonly",
            (Tag::Named, _, 1)
            | (Tag::Parameter, 2, 1)
            | (Tag::Property, 3, 1)
            | (Tag::Method, 11, 1) => " ?",
            (Tag::Predicate, 2, 1) => " this",
            _ => self.signature_choice(number),
        }
    }

    // A choice of a signature in words.
    fn signature_choice(self, number: usize) -> &'static str {
        match (self.phase, number) {
            _ if !self.tag.is_signature() => "",
            (3, 0) => " with empty type parameters",
            (6, 0) => " this",
            _ => "",
        }
    }

    // What a child of a tag is to this node, in words; most need none.
    pub fn role(self, child: Tag) -> &'static str {
        match (self.tag, self.phase, self.kids) {
            (Tag::Indexed, _, 1) | (Tag::IndexSignature, 4, 0) => "index: ",
            (Tag::Conditional, _, 0) => "check: ",
            (Tag::Conditional, _, 1) | (Tag::Infer, _, _) | (Tag::TypeParameter, 2, _) => {
                "extends: "
            }
            (Tag::Conditional, _, 2) => "then: ",
            (Tag::Conditional, _, 3) => "else: ",
            (Tag::TypeParameter, _, _) => "default: ",
            (Tag::Mapped, 2, _) => "in: ",
            (Tag::Mapped, 3, _) => "as: ",
            (Tag::Mapped | Tag::IndexSignature, _, _) => "value: ",
            (Tag::Predicate, _, _) => "is: ",
            _ => self.signature_role(child),
        }
    }

    // What a child of a tag is to a signature.
    fn signature_role(self, child: Tag) -> &'static str {
        match child {
            _ if !self.tag.is_signature() => "",
            Tag::TypeParameter | Tag::Parameter => "",
            _ if self.phase == 7 => "this: ",
            _ => "returns: ",
        }
    }

    // What stands before a name of this node.
    pub fn lead(self) -> Lead {
        match (self.tag, self.phase) {
            (Tag::Reference | Tag::Typeof, _) if self.names != 0 => Lead::Dot,
            (Tag::Import, 3) => Lead::Dot,
            (Tag::Literal, 3) => Lead::Nothing,
            _ => Lead::Space,
        }
    }
}

// The sort of a literal; what follows a minus is its spelling.
fn literal_word(number: usize) -> &'static str {
    match number {
        0 => " string",
        1 => " number",
        2 => " bigint",
        3 => " true",
        4 => " false",
        5 => " number -",
        6 => " bigint -",
        _ => "",
    }
}

fn operator_word(number: usize) -> &'static str {
    match number {
        0 => " keyof",
        1 => " unique",
        2 => " readonly",
        _ => "",
    }
}

// A mapped type's first mark.
fn readonly_word(number: usize) -> &'static str {
    match number {
        1 => " readonly",
        2 => " +readonly",
        3 => " -readonly",
        _ => "",
    }
}

// A mapped type's second mark, which has a word before it in place of a blank.
fn question_word(number: usize) -> &'static str {
    match number {
        1 => "mark ?",
        2 => "mark +?",
        3 => "mark -?",
        _ => "",
    }
}

// ---- Open nodes

// The open nodes, one for each depth.
#[derive(Drop)]
pub struct Open {
    nodes: [Known; DEEPEST],
}

impl Open {
    // None.
    pub fn new() -> Open {
        Open {
            nodes: [Known::fresh(Tag::Nothing); DEEPEST],
        }
    }

    // The node of a depth.
    pub fn at(&self, depth: usize) -> Known {
        let nothing = Known::fresh(Tag::Nothing);
        self.nodes.get(depth).copied().unwrap_or(nothing)
    }

    fn keep(&mut self, depth: usize, k: Known) {
        if let Some(place) = self.nodes.get_mut(depth) {
            *place = k;
        }
    }

    // The node above a depth, which gets a child; at the top there is none.
    fn above(&mut self, depth: usize) -> Known {
        if depth == 0 {
            return Known::fresh(Tag::Nothing);
        }
        let k = self.at(depth - 1);
        self.keep(
            depth - 1,
            Known {
                any: true,
                kids: k.kids.saturating_add(1),
                ..k
            },
        );
        k
    }

    // A node is met; what is known of the one above.
    pub fn entered(&mut self, v: Visit, tag: Tag) -> Known {
        let k = self.above(v.depth);
        self.keep(v.depth, Known::fresh(tag));
        k
    }

    // The node that a choice or a name belongs to.
    pub fn owner(&self, v: Visit) -> Known {
        self.at(v.depth.saturating_sub(1))
    }

    // A choice is met; what is known of its node so far.
    pub fn choosing(&mut self, v: Visit) -> Known {
        let k = self.owner(v);
        self.keep(
            v.depth.saturating_sub(1),
            Known {
                phase: k.next_phase(v.number),
                kids: 0,
                names: 0,
                ..k
            },
        );
        k
    }

    // A name is met; what is known of its node so far.
    pub fn naming(&mut self, v: Visit) -> Known {
        let k = self.owner(v);
        self.keep(
            v.depth.saturating_sub(1),
            Known {
                names: k.names.saturating_add(1),
                ..k
            },
        );
        k
    }
}
