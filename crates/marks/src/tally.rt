// What a reading counts, in the first words of its diagnostics: the type rules that were entered, and the trials that are open.
ghost use Rattle.std.specs.Prelude.{◌≡◌, ◌<◌, length, set};
ghost use Rattle.rules.specs.State.{one_more};
ghost use Rattle.marks.specs.State.{tally_of};
ghost use Rattle.marks.specs.Tally.{Tallied};

use crate::notes::Noting;
use words::limits::Entered;

// A word of the tally. The array comes as a slice: lending it so is what tells the proof how long it is.
fn put_tally(notes: &mut [u64], at: usize, n: usize)
    requires { at < length notes.old }
    ensures notes_after { notes.new ≡ set notes.old at n }
    ensures at_in_bounds { at < length notes.old }
{
    notes[at] = n as u64;
}

// How many type rules were entered.
pub fn entered(notes: &[u64; Noting::WORDS]) -> usize
    ensures { result ≡ (tally_of notes.now).entered }
{
    notes[Noting::ENTERED] as usize
}

// One type rule more is entered; at its limit the count stays.
pub fn enter(notes: &mut [u64; Noting::WORDS])
    ensures { Tallied notes.old (one_more (tally_of notes.old).entered) (tally_of notes.old).trials notes.new }
{
    let n = entered(notes);
    if n < Entered::MOST {
        put_tally(notes, Noting::ENTERED, n + 1);
    }
}

// How many trials are open.
pub fn open_trials(notes: &[u64; Noting::WORDS]) -> usize
    ensures { result ≡ (tally_of notes.now).trials }
{
    notes[Noting::TRIALS] as usize
}

// So many trials are open now.
pub fn set_trials(notes: &mut [u64; Noting::WORDS], open: usize)
    ensures { Tallied notes.old (tally_of notes.old).entered «open» notes.new }
{
    put_tally(notes, Noting::TRIALS, open);
}
