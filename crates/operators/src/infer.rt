// Infer: its trial, without the constraint's type.
ghost use Rattle.std.specs.Prelude.{◌≡◌, false, ◌+◌, ◌≤◌, ◌<◌, length, leb};
ghost use Rattle.words.specs.Kind as kind;
ghost use Rattle.words.specs.Limits.{most_trials};
ghost use Rattle.words.specs.Test.{◌and◌};
ghost use Rattle.rules.specs.Infer.{with_trial};
ghost use Rattle.marks.specs.State.{Stepped, Reached, place_of, next_mark};
ghost use Rattle.marks.specs.Told.{told, told_mark};
ghost use Rattle.marks.specs.Names.{MayBind};
ghost use Rattle.marks.specs.List.{here};
ghost use Rattle.operators.specs.Infer.{Infers, MayPutInfer, StartsInfer};

use marks::names::bound;
use marks::node::{Tag, put, put_about};
use marks::notes::Noting;
use marks::state::{Begin, Given, Kids, Mark, Read, Stop, kind_at, next};
use words::kind::Kind;
use words::limits::Trials;

// Past infer and the name that is bound.
pub fn infer_head(
    words: &[u64],
    names: &mut [u64],
    notes: &mut [u64; Noting::WORDS],
    given: Given,
    m: Mark,
) -> Result<Mark, Stop>
    requires { MayBind words.now given m × (m.at < length words.now) }
    ensures starts_infer { StartsInfer words.now given m names.old notes.old (told_mark result) names.new notes.new }
    ensures stepped { Stepped (length words.now) given (next_mark m) (told_mark result) }
{
    bound(words, names, notes, given, next(m))
}

// Whether a constraint would be one trial too many: it is a trial only where a conditional may stand.
pub fn many_trials(on: bool, trials: usize) -> bool
    ensures { result ≡ (on and leb most_trials trials) }
{
    on && Trials::MOST <= trials
}

// How many trials are open while a constraint is read.
pub fn with_trial(on: bool, trials: usize) -> usize
    requires { (on and leb most_trials trials) ≡ false }
    ensures { result ≡ with_trial on trials }
{
    trials + usize::from(on)
}

// Whether a constraint that was read up to q is put back: a `?` behind it, where a conditional may stand, undoes the trial.
pub fn dropped(words: &[u64], on: bool, q: Mark) -> bool
    ensures { result ≡ (on and here words.now kind.Question q) }
{
    on && kind_at(words, q) == Kind::QUESTION
}

// The node after a trial from m to q, which read a constraint of a height: all is put back where it was dropped.
pub fn infer_node(
    words: &[u64],
    nodes: &mut [u64],
    given: Given,
    b: Begin,
    is_dropped: bool,
    high: usize,
    m: Mark,
    q: Mark,
) -> Result<Read, Stop>
    requires { MayPutInfer words.now nodes.old given b high m q }
    ensures infers { Infers words.now given b is_dropped high m q nodes.old (told result) nodes.new }
    ensures reached { Reached (length words.now) given (place_of m) (m.used + 1) (told result).high (told result).why (told result).m }
{
    if is_dropped {
        return put(words, nodes, given, b, Tag::Infer as usize, Kids::none(), m);
    }
    put_about(
        words,
        nodes,
        given,
        b,
        Tag::Infer as usize + Tag::ALL,
        high,
        q,
    )
}
