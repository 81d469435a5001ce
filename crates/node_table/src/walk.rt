// The walk of a tree that stands in the store, node by node and by the node table, whatever it puts out.
ghost use Rattle.std.specs.Prelude.{◌≡◌, List, ℕ, ◌+◌, ◌*◌, ◌≤◌, ◌<◌, ◌^◌, length, Bool, true};
ghost use Rattle.keys.specs.Limits.{widest, half_word, count_width};
ghost use Rattle.fields.specs.Put.{far};
ghost use Rattle.node_table.specs.Forms.{entry_at, IsRow, Narrow, grammar_of, table_words, table_most};
ghost use Rattle.node_table.specs.Moves.{Output, Sound, Spelled, Noded, NodedOnce, Ready, OwnStep, After, Begun, MayPut, MayGoOn};

use crate::forms::{Row, TABLE};
use crate::moves::{Mark, Walk};
use crate::{forms, moves};
use keys::store;

// What a walk puts out, into lent items: a key's bits, or visits. Each method answers the place behind what it put.
pub trait Sink: Copy {
    type Item: Copy;

    // The output, what it asks of a name's spelling, how many names there are, the items as numbers, and of which nodes class and word say all.
    ghost out: { Output };

    ghost asks: { Self → ℕ → List ℕ → Type 0 };

    ghost most: { Self → ℕ };

    ghost seen: { List Self.Item → List ℕ };

    ghost known: { (class word : ℕ) → Bool };

    // The depth of what a node holds.
    fn under(self, depth: usize) -> usize
        requires { depth + 1 < 2 ^ 64 }
        ensures { (result ≡ out.under depth) × (result ≤ depth + 1) };

    // What stands before the node `at`.
    fn node(self, items: &mut [Self::Item], to: usize, at: usize, depth: usize) -> usize
        requires { MayPut (seen items.old) to }
        ensures { out.Puts to (out.node at depth) result (seen items.old) (seen items.new) };

    // A choice of a width.
    fn choice(
        self,
        items: &mut [Self::Item],
        to: usize,
        width: usize,
        number: usize,
        depth: usize,
    ) -> usize
        requires { MayPut (seen items.old) to × (width ≤ widest) × (number < 2 ^ 31) }
        ensures { out.Puts to (out.choice width number depth) result (seen items.old) (seen items.new) };

    // The next name, whose length has a width; the next name behind it.
    fn name(self, items: &mut [Self::Item], width: usize, depth: usize, o: Mark) -> Mark
        requires { MayPut (seen items.old) o.to × (width ≤ widest) × (o.name ≤ most self) }
        ensures { Spelled out (asks self) (most self) width depth o.name o.to (seen items.old) result.name result.to (seen items.new) };

    // Do a node's class and its word alone say what it holds?
    fn knows(self, class: usize, word: u64) -> bool
        ensures { result ≡ known class word };

    // All of such a node; of another nothing is promised.
    fn at_once(
        self,
        items: &mut [Self::Item],
        class: usize,
        word: u64,
        depth: usize,
        o: Mark,
    ) -> Mark
        requires { MayPut (seen items.old) o.to × (o.name ≤ most self) }
        ensures { known class word ≡ true → NodedOnce out (asks self) (most self) depth class word o (seen items.old) result (seen items.new) };

    ghost sound: { Sound out };
}

// What the functions of a walk share stays in their parameters: behind a reference to a struct of it key out takes an eighth longer.

// A step that is a choice.
fn chosen<S: Sink>(
    sink: S,
    forms: &[u16; TABLE],
    items: &mut [S::Item],
    depth: usize,
    r: Row,
    s: Walk,
) -> Walk
    requires { Ready (S.most sink) (S.seen items.old) s × IsRow (entry_at forms.now s.form) r × (r.w ≤ widest) × (0 < s.steps) × (5 ≤ r.op) }
    ensures { OwnStep S.out forms.now (S.asks sink) (S.most sink) depth s (S.seen items.old) result (S.seen items.new) }
{
    let c = moves::choice_of(s.word, r.w);
    let to = sink.choice(items, s.mark.to, r.w, c.number, depth);
    let j = forms::jump_at(forms, r, c.number);
    Walk {
        mark: Mark { to, ..s.mark },
        word: c.word,
        form: j.form,
        n: j.n,
        steps: s.steps - 1,
        ..s
    }
}

// A step that is no choice and goes into no child: a name, or on to the next form.
fn said<S: Sink>(
    sink: S,
    forms: &[u16; TABLE],
    items: &mut [S::Item],
    depth: usize,
    r: Row,
    s: Walk,
) -> Walk
    requires { Ready (S.most sink) (S.seen items.old) s × IsRow (entry_at forms.now s.form) r × (r.w ≤ widest) × (0 < s.steps) × (r.op < 5) × (r.op ≡ 1 → ⊥) × (r.op ≡ 3 → s.n ≡ 0) }
    ensures { OwnStep S.out forms.now (S.asks sink) (S.most sink) depth s (S.seen items.old) result (S.seen items.new) }
{
    if r.op == forms::SPELLING {
        let q = sink.name(items, r.w, depth, s.mark);
        s.moved(q, r.b, s.n, s.steps - 1)
    } else if s.n == 0 {
        s.moved(s.mark, r.b, 1, s.steps - 1)
    } else if r.op == forms::SPELLINGS {
        let q = sink.name(items, r.w, depth, s.mark);
        s.moved(q, s.form, s.n - 1, s.steps)
    } else {
        s.moved(s.mark, s.form, s.n, 0)
    }
}

// A step of a node that goes into no child.
fn own<S: Sink>(
    sink: S,
    forms: &[u16; TABLE],
    items: &mut [S::Item],
    depth: usize,
    r: Row,
    s: Walk,
) -> Walk
    requires { Ready (S.most sink) (S.seen items.old) s × IsRow (entry_at forms.now s.form) r × (r.w ≤ widest) × (0 < s.steps) × (r.op ≡ 1 → ⊥) × (r.op ≡ 3 → s.n ≡ 0) }
    ensures { OwnStep S.out forms.now (S.asks sink) (S.most sink) depth s (S.seen items.old) result (S.seen items.new) }
{
    if forms::CHOICE <= r.op {
        chosen(sink, forms, items, depth, r, s)
    } else {
        said(sink, forms, items, depth, r, s)
    }
}

// The walk after a child, with the name that follows it if its length has any bits.
fn after_child<S: Sink>(
    sink: S,
    nodes: &[u64],
    items: &mut [S::Item],
    w: usize,
    depth: usize,
    s: Walk,
    o: Mark,
) -> Walk
    requires { MayGoOn (S.most sink) (S.seen items.old) w s o }
    ensures { After S.out nodes.now (S.asks sink) (S.most sink) w depth s o (S.seen items.old) result (S.seen items.new) }
{
    let next = store::next_of(nodes, s.child);
    if w == 0 {
        return s.beside(o, next);
    }
    let q = sink.name(items, w, depth, o);
    s.beside(q, next)
}

// What stands before a node, its tag, and the walk behind them.
fn begun<S: Sink>(
    sink: S,
    forms: &[u16; TABLE],
    nodes: &[u64],
    items: &mut [S::Item],
    class: usize,
    depth: usize,
    at: usize,
    o: Mark,
) -> Walk
    requires { MayPut (S.seen items.old) o.to × (class < table_most) × (depth + 1 < 2 ^ 64) × (at < half_word) × Narrow forms.now }
    ensures { Begun S.out forms.now nodes.now (S.asks sink) depth class at o (S.seen items.old) result (S.seen items.new) }
{
    let own = store::node_at(nodes, at);
    let tags = forms::class_at(forms, class);
    let tag = moves::choice_of(own.word, tags.w);
    let inside = sink.node(items, o.to, at, depth);
    let under = sink.under(depth);
    let to = sink.choice(items, inside, tags.w, tag.number, under);
    let row = forms::listed_at(forms, tags, tag.number);
    Walk {
        mark: Mark { to, ..o },
        word: tag.word,
        child: own.child,
        form: row.form,
        n: 1,
        steps: forms::word_at(forms, forms::STEPS),
    }
}

// The node `at`, of a class, by its form, and its children, each at once if it can be; `left` is how many levels there may be.
fn put_node<S: Sink>(
    sink: S,
    forms: &[u16; TABLE],
    nodes: &[u64],
    items: &mut [S::Item],
    class: usize,
    depth: usize,
    left: usize,
    at: usize,
    o: Mark,
) -> Mark
    requires { MayPut (S.seen items.old) o.to × (o.name ≤ S.most sink) × (class < table_most) × (depth + left < 2 ^ 64) × (at < half_word) × Narrow forms.now × (forms.now ≡ table_words count_width) }
    ensures { Noded S.out (grammar_of forms.now) nodes.now (S.asks sink) left depth (S.most sink) class at o.name o.to (S.seen items.old) result.name result.to (S.seen items.new) }
{
    if left == 0 {
        return o;
    }
    let under = sink.under(depth);
    let mut s = begun(sink, forms, nodes, items, class, depth, at, o);
    while 0 < s.steps {
        let r = forms::row_at(forms, s.form);
        if r.op == forms::END {
            return s.mark;
        }
        if s.into_child(r) {
            let child = store::node_at(nodes, s.child);
            let q = if sink.knows(r.a, child.word) {
                sink.at_once(items, r.a, child.word, under, s.mark)
            } else {
                put_node(
                    sink,
                    forms,
                    nodes,
                    items,
                    r.a,
                    under,
                    left - 1,
                    s.child,
                    s.mark,
                )
            };
            s = after_child(sink, nodes, items, r.w, under, s, q).past_last(r);
        } else {
            s = own(sink, forms, items, under, r, s);
        }
    }
    s.mark
}

// The tree whose root is the node `root` and which is at most `tall` high, by our node table.
pub fn put_tree<S: Sink>(
    sink: S,
    nodes: &[u64],
    items: &mut [S::Item],
    root: usize,
    tall: usize,
    to: usize,
) -> Mark
    requires { MayPut (S.seen items.old) to × (root < half_word) }
    ensures { Noded S.out (grammar_of (table_words count_width)) nodes.now (S.asks sink) tall 0 (S.most sink) 0 root 0 to (S.seen items.old) result.name result.to (S.seen items.new) }
{
    let forms = forms::words();
    let start = Mark { to, name: 0 };
    let own = store::node_at(nodes, root);
    if sink.knows(forms::TYPE, own.word) {
        return sink.at_once(items, forms::TYPE, own.word, 0, start);
    }
    put_node(
        sink,
        &forms,
        nodes,
        items,
        forms::TYPE,
        0,
        tall,
        root,
        start,
    )
}
