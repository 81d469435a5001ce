// The visits of a tree for those who print it: a member, which has a sort in the place of a tag, gets a tag there that no other node has.
ghost use Rattle.std.specs.Prelude.{◌*◌, ◌<◌, ◌≤◌, length};
ghost use Rattle.keys.specs.Limits.{half_word};
ghost use Rattle.fields.specs.Put.{far};

use crate::known::DEEPEST;
use crate::tag::Tag;
use visits::visits::{NODE, WORDS, visit_at};

// The tag of a node with a tag or a sort.
fn tag_for(number: usize, member: bool) -> usize {
    if member {
        Tag::Property as usize + number % 8
    } else {
        number
    }
}

// A visit, which may be a node; the next one has its tag or sort. For each depth it is known whether the node above is an object.
fn met(visits: &mut [u64], i: usize, objects: &mut [bool; DEEPEST])
    requires { i * 24 < far }
{
    let v = visit_at(visits, i);
    if v.kind != NODE || DEEPEST - 1 <= v.depth {
        return;
    }
    let next = visit_at(visits, i + 1);
    let tag = tag_for(next.number, objects[v.depth]);
    objects[v.depth + 1] = tag == Tag::Object as usize;
    if let Some(word) = visits.get_mut(WORDS * (i + 1) + 1) {
        *word = tag as u64;
    }
}

// All members get their tags.
fn tag_members(visits: &mut [u64], n: usize)
    requires { n * 24 ≤ far }
{
    let mut objects = [false; DEEPEST];
    for i in 0..n {
        met(visits, i, &mut objects);
    }
}

// The visits of the type whose root is a node; how many words they have.
pub fn walk(nodes: &[u64], names: &[u64], root: usize, tall: usize, visits: &mut [u64]) -> usize
    requires { (length visits.old * 8 ≤ far) × (root < half_word) }
{
    let size = visits::visits::walk(nodes, names, root, tall, visits);
    tag_members(visits, size.min(visits.len()) / WORDS);
    size
}
