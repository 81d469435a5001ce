// Where a walk of a tree is, and its moves: what key out and the visits share.
ghost use Rattle.std.specs.Prelude.{◌≡◌, true, false, ◌-◌, ◌/◌, ◌%◌, ◌≤◌, ◌<◌, ◌^◌};
ghost use Rattle.keys.specs.Limits.{widest};
ghost use Rattle.node_table.specs.Moves.{moved_to, beside_to};

use crate::forms;
use crate::forms::Row;

// Where a walk is: the next place in its output and the next name.
#[derive(Clone, Copy)]
pub struct Mark {
    pub to: usize,
    pub name: usize,
}

// The same inside a node: its choices still to come, its next child, its form, how often the form's first step is done, and the steps left.
#[derive(Clone, Copy)]
pub struct Walk {
    pub mark: Mark,
    pub word: u64,
    pub child: usize,
    pub form: usize,
    pub n: usize,
    pub steps: usize,
}

impl Walk {
    // The walk with what was put out of it, at another form.
    pub fn moved(self, mark: Mark, form: usize, n: usize, steps: usize) -> Walk
        ensures { result ≡ moved_to self mark form n steps }
    {
        Walk {
            mark,
            form,
            n,
            steps,
            ..self
        }
    }

    // The walk with what was put out of it, at the next child.
    pub fn beside(self, mark: Mark, next: usize) -> Walk
        requires { 0 < self.n }
        ensures { result ≡ beside_to self mark next }
    {
        Walk {
            mark,
            child: next,
            n: self.n - 1,
            ..self
        }
    }

    // The walk behind the last of its children, or as it is.
    pub fn past_last(self, r: Row) -> Walk
        requires { 0 < self.steps }
        ensures { (self.n ≡ 0 → result ≡ moved_to self self.mark r.b 1 (self.steps - 1)) × ((self.n ≡ 0 → ⊥) → result ≡ self) }
    {
        if 0 < self.n {
            self
        } else {
            self.moved(self.mark, r.b, 1, self.steps - 1)
        }
    }

    // Does the next step go into a child?
    pub fn into_child(self, r: Row) -> bool
        ensures { (result ≡ true → (r.op ≡ 3) × (0 < self.n)) × (result ≡ false → r.op ≡ 3 → self.n ≡ 0) }
    {
        r.op == forms::NODES && 0 < self.n
    }
}

// The first of a node's own choices: its number, and the choices after it.
#[derive(Clone, Copy)]
pub struct Chosen {
    pub number: usize,
    pub word: u64,
}

// The next of a node's own choices, of w bits.
pub fn choice_of(word: u64, w: usize) -> Chosen
    requires { w ≤ widest }
    ensures { (result.number ≡ word % 2 ^ w) × (result.word ≡ word / 2 ^ w) × (result.number < 2 ^ 31) }
{
    let rest = word >> w;
    let number = word - (rest << w);
    Chosen {
        number: number as usize,
        word: rest,
    }
}
