// Lists: what stands between entries, and their end.
ghost use Rattle.std.specs.Prelude.{◌*◌, ◌≤◌, ◌<◌, length};
ghost use Rattle.marks.specs.State.{Sound, Inside, Fine, Moved, Under};
ghost use Rattle.marks.specs.Told.{told_mark, told_list};
ghost use Rattle.marks.specs.List.{Follows, Ends, EndsAt};

use crate::notes::{Noting, report_if};
use crate::state::{Entries, Given, Kids, Mark, Stop, end_byte, kind_at, next};
use words::kind::Kind;
use words::refusal::Refusal;

// After an entry: at the closing mark, or past a comma, which may be the last thing before it.
pub fn past_comma(words: &[u64], close: usize, m: Mark) -> Result<Mark, Stop>
    requires { Sound words.now × Inside (length words.now) m }
    ensures follows { Follows words.now close m (told_mark result) }
    ensures moved { Moved (length words.now) m (told_mark result).m }
{
    let kind = kind_at(words, m);
    if kind == close {
        return Ok(m);
    }
    if kind != Kind::COMMA {
        return Err(Stop {
            why: Refusal::Unexpected,
            m,
        });
    }
    Ok(next(m))
}

// At the closing mark: a diagnostic, whose number is any, from byte `first` on if nothing is in the list.
pub fn list_end(
    words: &[u64],
    notes: &mut [u64; Noting::WORDS],
    given: Given,
    number: usize,
    first: usize,
    k: Kids,
    m: Mark,
) -> Result<Entries, Stop>
    requires { Sound words.now × Fine (length words.now) given m × (m.at < length words.now) × Under m.used k }
    ensures ends { Ends words.now given number first k m notes.old (told_list result) notes.new }
    ensures ends_at { EndsAt given m (told_list result) }
{
    let p = next(m);
    let m = report_if(
        k.count == 0,
        notes,
        given,
        number,
        first,
        end_byte(words, p),
        p,
    )?;
    Ok(Entries {
        there: true,
        kids: k,
        m,
    })
}
