// The steps of a node's walk: past choices and spellings, and past a child. Each takes just the slices that it reads or writes, so that no step may touch the others.
ghost use Rattle.std.specs.Prelude.{◌*◌, ◌<◌, ◌≤◌, length};
ghost use Rattle.keys.specs.Limits.{record_words};
ghost use Rattle.key_parts.specs.Spelling.{AsksSpelling};
ghost use Rattle.key_parts.specs.Step.{AsksPlain, TakesPlain, Linked, TakesAfter};

use crate::place::{Fill, Pos};
use crate::refusal::{Refusal, Stop};
use crate::{choice, spelling};
use keys::store;
use node_table::forms;
use node_table::forms::{Row, TABLE};

// A step that goes into no child.
pub fn take_plain(
    forms: &[u16; TABLE],
    key: &[u8],
    names: &mut [u64],
    text: &mut [u8],
    steps: usize,
    r: Row,
    s: Fill,
) -> Result<Fill, Stop>
    requires { AsksPlain forms.now key.now names.old text.old steps r s }
    ensures { TakesPlain forms key names text steps r s result }
{
    let op = r.op;
    if forms::CHOICE <= op {
        let c = choice::take_choice(forms, key, steps, r, s.at.bit)?;
        return Ok(choice::choose(s, r.w, c));
    }
    if op == forms::SPELLINGS {
        let at = spelling::take_spellings(key, names, text, r.w, s.n, s.at)?;
        return Ok(Fill {
            at,
            form: r.b,
            n: 1,
            ..s
        });
    }
    if op == forms::SPELLING {
        let at = spelling::take_spelling(key, names, text, r.w, s.at)?;
        return Ok(Fill { at, form: r.b, ..s });
    }
    Err(Stop {
        why: Refusal::BadKey,
        bit: s.at.bit,
    })
}

// The walk after a child: it is the first, or the next of the child before it.
pub fn link_child(nodes: &mut [u64], s: Fill, at: Pos) -> Fill
    requires { (s.base ≤ s.at.used) × (s.at.used < at.used) × (at.used * record_words ≤ length nodes.old) × (s.child * record_words ≤ length nodes.old) }
    ensures { Linked nodes.old s at result nodes.new }
{
    let used = s.at.used;
    let last = at.used - 1;
    if s.base < used {
        store::link_node(nodes, used - 1, last);
        return Fill { at, ..s };
    }
    Fill {
        at,
        child: last,
        ..s
    }
}

// The spelling after a child, if its length has any bits.
pub fn take_after(
    key: &[u8],
    names: &mut [u64],
    text: &mut [u8],
    w: usize,
    s: Fill,
) -> Result<Fill, Stop>
    requires { AsksSpelling key.now names.old text.old w s.at }
    ensures { TakesAfter key names text w s result }
{
    if w == 0 {
        return Ok(s);
    }
    let at = spelling::take_spelling(key, names, text, w, s.at)?;
    Ok(Fill { at, ..s })
}
