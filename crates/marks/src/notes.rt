// Diagnostics: their numbers, and the records that hold them.
ghost use Rattle.std.specs.Prelude.{◌≡◌, true, [], ◌∷◌, ◌++◌, ◌+◌, ◌*◌, ◌≤◌, ◌<◌, length};
ghost use Rattle.words.specs.Limits.{most_notes};
ghost use Rattle.keys.specs.Store.{filled};
ghost use Rattle.rules.specs.Notes.{note, note_both, note_width, note_words};
ghost use Rattle.marks.specs.State.{note_at, notes_of, tally_of};
ghost use Rattle.marks.specs.Number.{number_of};
ghost use Rattle.marks.specs.Told.{told_mark};
ghost use Rattle.marks.specs.Notes.{Reports, Noted};

use crate::state::{Given, Mark, Stop};
use keys::store::{Place, clear};
use words::limits::Notes;
use words::refusal::Refusal;

// The diagnostics, under what they say.
#[derive(Clone, Copy, Debug, PartialEq, Eq)]
pub enum Note {
    EmptyTypeParameters = 1,
    EmptyArguments = 2,
    ThisOnConstructor = 3,
    RequiredAfterOptional = 4,
    RestAfterLabel = 5,
    AskedAfterLabel = 6,
    OptionalAndRest = 7,
    AskedIndex = 8,
    CommaAfterIndex = 9,
    LiteralIndex = 10,
    KeywordIndex = 11,
    NotOneIndex = 12,
    ReservedName = 13,
}

impl Note {
    // Its number.
    pub fn number(self) -> usize
        ensures { result ≡ number_of self }
    {
        self as usize
    }
}

// How diagnostics stand in the words of a reading: first some for tallies, then a record each.
#[derive(Clone, Copy)]
pub struct Noting {}

impl Noting {
    pub const TALLIES: usize = 8;

    // Where the type rules that were entered are counted.
    pub const ENTERED: usize = 0;

    // Where the trials that are open are counted.
    pub const TRIALS: usize = 1;

    pub const RECORD: usize = 5;

    // With as many records as there may be diagnostics.
    pub const WORDS: usize = 168;
}

// The words of a record. The array comes as a slice: lending it so is what tells the proof how long it is.
fn append_note(notes: &mut [u64], at: usize, number: usize, place: Place, other: Place)
    requires { note_at (at + 1) ≤ length notes.old }
    ensures at_after { notes_of notes.new (at + 1) ≡ notes_of notes.old at ++ (note_both number place.first place.end other.first other.end ∷ []) }
    ensures notes_unchanged { tally_of notes.new ≡ tally_of notes.old }
{
    let to = Noting::TALLIES + at * Noting::RECORD;
    notes[to] = number as u64;
    notes[to + 1] = place.first as u64;
    notes[to + 2] = place.end as u64;
    notes[to + 3] = other.first as u64;
    notes[to + 4] = other.end as u64;
}

// A diagnostic of two places, by its number, which is any: docs/MAP names `report_both`. 9 where it would be one too many or has no record.
pub fn report_both(
    notes: &mut [u64; Noting::WORDS],
    given: Given,
    number: usize,
    place: Place,
    other: Place,
    m: Mark,
) -> Result<Mark, Stop>
    requires { m.noted ≤ given.records }
    ensures reports { Reports true given (note_both number place.first place.end other.first other.end) m notes.old (told_mark result) notes.new }
    ensures noted { Noted given m (told_mark result) }
{
    if Notes::MOST <= m.noted || given.records <= m.noted {
        return Err(Stop {
            why: Refusal::ManyNotes,
            m,
        });
    }
    append_note(notes, m.noted, number, place, other);
    Ok(Mark {
        noted: m.noted + 1,
        ..m
    })
}

// A diagnostic of one place: the second has no bytes.
pub fn report(
    notes: &mut [u64; Noting::WORDS],
    given: Given,
    number: usize,
    first: usize,
    end: usize,
    m: Mark,
) -> Result<Mark, Stop>
    requires { m.noted ≤ given.records }
    ensures reports { Reports true given (note number first end) m notes.old (told_mark result) notes.new }
    ensures noted { Noted given m (told_mark result) }
{
    let place = Place { first, end };
    let none = Place { first: 0, end: 0 };
    report_both(notes, given, number, place, none, m)
}

// A diagnostic where a test holds.
pub fn report_if(
    holds: bool,
    notes: &mut [u64; Noting::WORDS],
    given: Given,
    number: usize,
    first: usize,
    end: usize,
    m: Mark,
) -> Result<Mark, Stop>
    requires { m.noted ≤ given.records }
    ensures reports { Reports holds given (note number first end) m notes.old (told_mark result) notes.new }
    ensures noted { Noted given m (told_mark result) }
{
    if holds {
        return report(notes, given, number, first, end, m);
    }
    Ok(m)
}

// The first diagnostics of a reading as records in words lent, then zeros.
pub fn copy_notes(noting: &[u64; Noting::WORDS], count: usize, notes: &mut [u64])
    requires { (count ≤ most_notes) × (count * note_width ≤ length notes.old) }
    ensures { notes.new ≡ filled (length notes.old) (note_words (notes_of noting.now count)) }
{
    let words = count * Noting::RECORD;
    notes[..words].copy_from_slice(&noting[Noting::TALLIES..Noting::TALLIES + words]);
    clear(notes, words, 0);
}
