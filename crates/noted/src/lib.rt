// Diagnostics as structs: each stored at the next place of a slice that the caller lends.
#![tactic(auto)]

ghost use Rattle.std.specs.Prelude.{◌≡◌, length};
ghost use Rattle.noted.specs.Structs.{struct_at, structs_of, store_at, place_after, store_from};

use words::cursor::word_at;
use words::limits::Notes;

// A diagnostic: its number, its first byte and its end byte, and those of a second place; an end of 0 where there is none.
#[derive(Clone, Copy, Default)]
pub struct Note {
    pub number: usize,
    pub first: usize,
    pub end: usize,
    pub other_first: usize,
    pub other_end: usize,
}

// How many words a diagnostic has.
const WORDS: usize = 5;

// The diagnostic of an index among the words of diagnostics.
pub fn note_at(words: &[u64], i: usize) -> Note
    ensures { result ≡ struct_at words.now i }
{
    if words.len() <= i {
        return Note::default();
    }
    let at = i * WORDS;
    Note {
        number: word_at(words, at) as usize,
        first: word_at(words, at + 1) as usize,
        end: word_at(words, at + 2) as usize,
        other_first: word_at(words, at + 3) as usize,
        other_end: word_at(words, at + 4) as usize,
    }
}

// Stores a diagnostic at the next place, and answers the place after it; where no place is left, nothing is stored.
pub fn store_note(notes: &mut [Note], at: usize, n: Note) -> usize
    ensures { (result ≡ place_after notes.old at) × (notes.new ≡ store_at notes.old at n) }
{
    if at < notes.len() {
        notes[at] = n;
        return at + 1;
    }
    at
}

// Stores the first diagnostics of words, one after the other.
pub fn store_notes(words: &[u64], count: usize, notes: &mut [Note])
    ensures { notes.new ≡ store_from words.now 0 0 count notes.old }
{
    let mut at = 0;
    for i in 0..count {
        at = store_note(notes, at, note_at(words, i));
    }
}

// The first diagnostics of words, as many as are counted and at most 32; the rest of the array holds zeros.
pub fn notes_of(words: &[u64], count: usize) -> [Note; Notes::MOST]
    ensures { result ≡ structs_of words.now count }
{
    let mut list = [Note::default(); Notes::MOST];
    store_notes(words, count.min(Notes::MOST), &mut list);
    list
}
