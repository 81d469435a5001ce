// The walk of two sound keys together.
ghost use Rattle.std.specs.Prelude.{◌≡◌, ◌+◌, ◌*◌, ◌^◌, ◌<◌, ◌≤◌, length};
ghost use Rattle.walks.specs.Walk as walk;

use crate::sides::Sides;
use node_table::forms;
use node_table::forms::Jump;
use sound_keys::sound::Spot;
use sound_keys::source::Source;

// Where a walk is: the bits in both keys, and how many pairs were found.
#[derive(Clone, Copy)]
pub struct Both {
    pub left: usize,
    pub right: usize,
    pub found: usize,
}

// How many bits there are on each side.
#[derive(Clone, Copy)]
pub struct Widths {
    pub left: usize,
    pub right: usize,
}

impl Both {
    // The place behind so many bits.
    fn past(self, w: Widths) -> Both
        requires { (self.left + w.left < 2 ^ 64) × (self.right + w.right < 2 ^ 64) }
        ensures { result ≡ walk.past self w }
    {
        Both {
            left: self.left + w.left,
            right: self.right + w.right,
            ..self
        }
    }
}

// A pair of first bits at the next place of the list; nothing is stored where there is no room for it.
fn put_pair(list: &mut [u64], p: Both)
    requires { p.found < 2 ^ 60 }
    ensures { walk.Puts list.old p.found p.left p.right list.new }
{
    let to = p.found * 2;
    if to + 1 < list.len() {
        list[to] = p.left as u64;
        list[to + 1] = p.right as u64;
    }
}

// Where what is left of a node ends on a side, from a form on; it is there.
fn end_of(side: &Source, high: usize, steps: usize, bit: usize, j: Jump) -> usize
    requires { walk.AsksEnd side.now high steps bit j }
    ensures { walk.Ends side.now high steps bit j result }
{
    let from = Spot {
        bit,
        form: j.form,
        n: j.n,
    };
    side.check_rest(high, steps, from).unwrap()
}

// Each walks what stands at a place on both sides, to the place behind it.
impl Sides<'_, '_> {
    // Whether two spellings of so many bytes are the same.
    fn same_bytes(&self, at: Both, count: usize) -> bool
        requires { (at.left + count * 8 ≤ length self.now.left.key.now * 8) × (at.right + count * 8 ≤ length self.now.right.key.now * 8) }
        ensures { result ≡ walk.same_at self.now at count count }
    {
        for i in 0..count {
            if self.left.number(at.left + i * 8, 8) != self.right.number(at.right + i * 8, 8) {
                return false;
            }
        }
        true
    }

    // Whether two spellings, of n and m bytes, are the same.
    fn same_spelling(&self, at: Both, n: usize, m: usize) -> bool
        requires { (at.left + n * 8 ≤ length self.now.left.key.now * 8) × (at.right + m * 8 ≤ length self.now.right.key.now * 8) }
        ensures { result ≡ walk.same_at self.now at n m }
    {
        n == m && self.same_bytes(at, n)
    }

    // Two spellings, with lengths of so many bits: a pair where they differ.
    fn walk_spelling(&self, list: &mut [u64], w: Widths, p: Both) -> Both
        requires { walk.AsksSpelling self.now w p }
        ensures { walk.Spells self.now w p result list.old list.new }
    {
        let n = self.left.number(p.left, w.left);
        let m = self.right.number(p.right, w.right);
        let from = p.past(w);
        let end = from.past(Widths {
            left: n * 8,
            right: m * 8,
        });
        if self.same_spelling(from, n, m) {
            return end;
        }
        put_pair(list, p);
        Both {
            found: p.found + 1,
            ..end
        }
    }

    // n spellings on each side.
    fn walk_spellings(&self, list: &mut [u64], w: Widths, n: usize, p: Both) -> Both
        requires { walk.AsksSpellings self.now w n p }
        ensures { walk.SpellsAll self.now w n p result list.old list.new }
    {
        let mut q = p;
        for _ in 0..n {
            q = self.walk_spelling(list, w, q);
        }
        q
    }

    // The spellings after two children, if their lengths have any bits.
    fn walk_after(&self, list: &mut [u64], w: Widths, p: Both) -> Both
        requires { walk.AsksAfter self.now w p }
        ensures { walk.SpellsAfter self.now w p result list.old list.new }
    {
        if w.left == 0 {
            return p;
        }
        self.walk_spelling(list, w, p)
    }

    // Two nodes one of whose choices differs: each side passes its own rest over, and what was found inside gives way to one pair.
    fn apart(
        &self,
        list: &mut [u64],
        high: usize,
        steps: usize,
        at: Both,
        j: Jump,
        k: Jump,
        first: Both,
    ) -> Both
        requires { walk.AsksApart self.now high steps at j k first }
        ensures { walk.Parts self.now high steps at j k first result list.old list.new }
    {
        put_pair(list, first);
        Both {
            left: end_of(&self.left, high, steps, at.left, j),
            right: end_of(&self.right, high, steps, at.right, k),
            found: first.found + 1,
        }
    }

    // Two nodes of a class, with room for `high` nodes one above the other.
    #[cycle(walk)]
    pub fn walk_node(&self, list: &mut [u64], class: usize, high: usize, p: Both) -> Both
        requires { walk.AsksNode self.now class high p }
        ensures { walk.Walks self.now high class p result list.old list.new }
    {
        let steps = forms::word_at(self.left.forms, 1);
        let (tags, marks) = self.tags(class);
        let t = self.left.number(p.left, tags.w);
        let u = self.right.number(p.right, marks.w);
        let j = forms::listed_at(self.left.forms, tags, t);
        let at = p.past(Widths {
            left: tags.w,
            right: marks.w,
        });
        if t != u {
            let k = forms::listed_at(self.right.forms, marks, u);
            return self.apart(list, high - 1, steps, at, j, k, p);
        }
        self.walk_rest(list, high - 1, steps, j, at, p)
    }

    // What is left of two nodes whose choices so far are the same, from a form on; the nodes begin at `first`.
    #[cycle(walk)]
    fn walk_rest(
        &self,
        list: &mut [u64],
        high: usize,
        steps: usize,
        from: Jump,
        at: Both,
        first: Both,
    ) -> Both
        requires { walk.AsksRest self.now high steps from at first }
        ensures { walk.Rests self.now high steps from at first result list.old list.new }
    {
        let mut p = at;
        let mut f = from;
        for depth in (0..steps).rev() {
            let (r, q) = self.rows(f.form);
            let w = Widths {
                left: r.w,
                right: q.w,
            };
            match r.op {
                forms::END => return p,
                forms::SPELLINGS => {
                    p = self.walk_spellings(list, w, f.n, p);
                    f = Jump { form: r.b, n: 1 };
                }
                forms::NODES => {
                    p = self.walk_nodes(list, high, r.a, w, f.n, p);
                    f = Jump { form: r.b, n: 1 };
                }
                forms::CHOICE.. => {
                    let t = self.left.number(p.left, r.w);
                    let u = self.right.number(p.right, q.w);
                    let j = forms::jump_at(self.left.forms, r, t);
                    let next = p.past(w);
                    if t != u {
                        let k = forms::jump_at(self.right.forms, q, u);
                        return self.apart(list, high, depth, next, j, k, first);
                    }
                    p = next;
                    f = j;
                }
                _ => {
                    p = self.walk_spelling(list, w, p);
                    f = Jump { form: r.b, n: f.n };
                }
            }
        }
        p
    }

    // n nodes on each side, one after the other, a spelling after each if its length has any bits.
    #[cycle(walk)]
    fn walk_nodes(
        &self,
        list: &mut [u64],
        high: usize,
        class: usize,
        w: Widths,
        n: usize,
        p: Both,
    ) -> Both
        requires { walk.AsksNodes self.now high class w n p }
        ensures { walk.WalksAll self.now high class w n p result list.old list.new }
    {
        let mut q = p;
        for _ in 0..n {
            q = self.walk_node(list, class, high, q);
            q = self.walk_after(list, w, q);
        }
        q
    }
}
