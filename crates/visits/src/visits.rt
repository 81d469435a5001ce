// Visits: what a tree that stands in the store holds, in the key's order, for a program that prints it.
ghost use Rattle.std.specs.Prelude.{◌≡◌, ◌*◌, ◌≤◌, ◌<◌, length, set};
ghost use Rattle.keys.specs.Limits.{half_word};
ghost use Rattle.keys.specs.Store.{visit};
ghost use Rattle.fields.specs.Put.{far};
ghost use Rattle.visits.specs.Visits.{VisitAt, Listed, Visited};

use fields::put;
use node_table::moves::Mark;
use node_table::walk;
use node_table::walk::Sink;

// The kind of a visit to a node. Kinds are numbers and no enum: lent words may hold any, and VisitAt gives them as they are.
pub const NODE: u64 = 1;

// The kind of a visit to a choice; a node's first is its tag, which is 0 in a parameter and in a type parameter.
pub const CHOICE: u64 = 2;

// The kind of a visit to a name.
pub const NAME: u64 = 3;

// A visit's words: its kind; the number of the node, of the choice, or of the name; how many nodes it stands under.
pub const WORDS: usize = 3;

// A word, where there is such a place.
fn set_word(words: &mut [u64], at: usize, word: u64)
    ensures { words.new ≡ set words.old at word }
{
    if at < words.len() {
        words[at] = word;
    }
}

// A visit at a place; the next place.
fn put_visit(visits: &mut [u64], to: usize, kind: u64, number: u64, depth: usize) -> usize
    requires { (length visits.old * 8 ≤ far) × (to ≤ far) }
    ensures { Listed to (visit kind number depth) result visits.old visits.new }
{
    set_word(visits, to, kind);
    set_word(visits, to + 1, number);
    set_word(visits, to + 2, depth as u64);
    put::on_by(to, WORDS)
}

// A tree's names, as a walk lists them among its visits, with its nodes and their choices.
#[derive(Clone, Copy)]
struct Names<'a> {
    names: &'a [u64],
}

impl Sink for Names<'_> {
    ghost use Rattle.std.specs.Prelude.{length, false};
    ghost use Rattle.visits.specs.Visits.{visit_words, Named};
    ghost use Rattle.visits.specs.Sound.{visits_sound};

    type Item = u64;

    ghost out = { visit_words };

    ghost asks = { λ s. Named s.names.now };

    ghost most = { λ s. length s.names.now };

    ghost seen = { λ visits. visits };

    ghost known = { λ class word. false };

    ghost sound = { visits_sound };

    fn under(self, depth: usize) -> usize {
        depth + 1
    }

    fn node(self, visits: &mut [u64], to: usize, at: usize, depth: usize) -> usize {
        put_visit(visits, to, NODE, at as u64, depth)
    }

    fn choice(
        self,
        visits: &mut [u64],
        to: usize,
        _width: usize,
        number: usize,
        depth: usize,
    ) -> usize {
        put_visit(visits, to, CHOICE, number as u64, depth)
    }

    fn name(self, visits: &mut [u64], _width: usize, depth: usize, o: Mark) -> Mark {
        if self.names.len() <= o.name {
            return o;
        }
        Mark {
            to: put_visit(visits, o.to, NAME, o.name as u64, depth),
            name: o.name + 1,
        }
    }

    fn knows(self, _class: usize, _word: u64) -> bool {
        false
    }

    fn at_once(
        self,
        _visits: &mut [u64],
        _class: usize,
        _word: u64,
        _depth: usize,
        o: Mark,
    ) -> Mark {
        o
    }
}

// The visits of the type whose root is the node `root` and which is at most `tall` high, as many of their words as fit, and zeros; how many words they have.
pub fn walk(nodes: &[u64], names: &[u64], root: usize, tall: usize, visits: &mut [u64]) -> usize
    requires { (length visits.old * 8 ≤ far) × (root < half_word) }
    ensures { Visited nodes.now names.now root tall (length visits.old) result visits.new }
{
    visits.fill(0);
    walk::put_tree(Names { names }, nodes, visits, root, tall, 0).to
}

// A visit as a printer meets it; all 0 past the last.
#[derive(Clone, Copy, Default)]
pub struct Visit {
    pub kind: u64,
    pub number: usize,
    pub depth: usize,
}

// The visit of a number.
pub fn visit_at(visits: &[u64], at: usize) -> Visit
    ensures { VisitAt visits.now at result.kind result.number result.depth }
{
    if visits.len() / WORDS <= at {
        return Visit::default();
    }
    let from = at * WORDS;
    Visit {
        kind: visits[from],
        number: visits[from + 1] as usize,
        depth: visits[from + 2] as usize,
    }
}
