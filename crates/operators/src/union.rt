// Unions and intersections, without their parts.
ghost use Rattle.std.specs.Prelude.{◌≡◌, ◌*◌, ◌≤◌, ◌<◌, length};
ghost use Rattle.words.specs.Limits.{most_tokens, tallest};
ghost use Rattle.keys.specs.Limits.{record_words};
ghost use Rattle.marks.specs.State.{Sound, Fine, Under};
ghost use Rattle.marks.specs.Told.{told};
ghost use Rattle.operators.specs.Union.{is_alone, Joins, JoinedAt};

use marks::node::{link, put_list};
use marks::state::{Begin, Given, Kids, Mark, Read, Stop, kind_at};

// Whether a part is alone behind those before it: there are none, and no mark stood before it.
fn alone(words: &[u64], mark: usize, k: Kids, m: Mark) -> bool
    ensures { result ≡ is_alone words.now mark k m }
{
    k.count == 0 && kind_at(words, m) != mark
}

// A part as one that was read: a refused one has no height.
fn as_read(a: Result<Read, Stop>) -> Read
    ensures { result ≡ record { high = (told a).high; m = (told a).m } }
{
    match a {
        Ok(r) => r,
        Err(e) => Read { high: 0, m: e.m },
    }
}

// The last part: alone it is just that, a refused one too, unless a mark stood before it; else it ends the list of a node, whose tag is any number: docs/PROMISES names `joined`.
pub fn joined(
    words: &[u64],
    nodes: &mut [u64],
    given: Given,
    mark: usize,
    tag: usize,
    k: Kids,
    before: usize,
    m: Mark,
    a: Result<Read, Stop>,
) -> Result<Read, Stop>
    requires sound { Sound words.now × (given.room * record_words ≤ length nodes.old) × Fine (length words.now) given (told a).m × Under before k × (before < (told a).m.used) }
    requires high_le_tallest { ((told a).high ≤ tallest) × (m.half ≤ 1) × (m.named ≤ most_tokens) × (tag < 64) }
    ensures joins { Joins words.now given mark tag k before m nodes.old (told a) (told result) nodes.new }
    ensures joined_at { JoinedAt given (told a) (told result) }
{
    if alone(words, mark, k, m) {
        return a;
    }
    let r = as_read(a);
    let l = link(nodes, k, before, r.m.used, r.high);
    put_list(words, nodes, given, Begin::at(words, m), tag, l, r.m)
}
