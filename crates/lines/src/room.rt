// Room for the largest record.
ghost use Rattle.std.specs.Prelude.{◌≡◌, ◌<◌, length, take, MatchResult};

use crate::record::Cut;

// How many words there is room for: one more than a list may have.
pub const WORDS: usize = 16385;

// The words of as many nodes as a key may have, of ten bits each.
pub const NODES: usize = 838860;

// Two bytes more than a key may have.
pub const KEY: usize = 262146;

// Bytes for the spellings of a key that is taken back, or for the longest argument that there can be.
pub const LETTERS: usize = 131072;

// Words for the longest list.
pub fn word_room() -> [u64; WORDS]
    ensures { 16385 ≡ length result }
{
    [0; WORDS]
}

// Bytes for all spellings.
pub fn letter_room() -> [u8; LETTERS]
    ensures { 131072 ≡ length result }
{
    [0; LETTERS]
}

// The first part of a room, as long as a record asks for, unless that is too large.
pub fn lent<T>(room: &mut [T], asked: u32) -> Result<&mut [T], Cut>
    ensures { MatchResult result (λ part. (length part.now ≡ asked) × (part.now ≡ take asked room.old)) (λ _. length room.old < asked) }
{
    room.get_mut(..asked as usize).ok_or(Cut)
}
