// Spellings taken from a key: their bytes go into the text, and where they stand into the names.
ghost use Rattle.key_parts.specs.Spelling.{AsksSpelling, TakesSpelling, TakesSpellings};

use crate::place::Pos;
use crate::refusal::{Refusal, Stop};
use fields::{reader, take};
use keys::store;

// A spelling: 10 where it is cut short or has no byte, 11 where there is no room for its bytes or its name.
pub fn take_spelling(
    key: &[u8],
    names: &mut [u64],
    text: &mut [u8],
    w: usize,
    p: Pos,
) -> Result<Pos, Stop>
    requires { AsksSpelling key.now names.old text.old w p }
    ensures { TakesSpelling key names text w p result }
{
    let bit = p.bit;
    let bad = Stop {
        why: Refusal::BadKey,
        bit,
    };
    let Some((n, from)) = reader::field_at(key, bit, w) else {
        return Err(bad);
    };
    let count = n as usize;
    if count == 0 || (key.len() * 8 - from) / 8 < count {
        return Err(bad);
    }
    if text.len() - p.chars < count || names.len() <= p.names {
        return Err(Stop {
            why: Refusal::NoSpace,
            bit,
        });
    }
    take::copy_bytes(key, from, text, p.chars, count);
    store::append_name(names, p.names, p.chars, count);
    Ok(Pos {
        bit: from + count * 8,
        names: p.names + 1,
        chars: p.chars + count,
        ..p
    })
}

// n spellings.
pub fn take_spellings(
    key: &[u8],
    names: &mut [u64],
    text: &mut [u8],
    w: usize,
    n: usize,
    p: Pos,
) -> Result<Pos, Stop>
    requires { AsksSpelling key.now names.old text.old w p }
    ensures { TakesSpellings key names text w n p result }
{
    let mut q = p;
    for _ in 0..n {
        q = take_spelling(key, names, text, w, q)?;
    }
    Ok(q)
}
