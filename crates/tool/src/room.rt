// Room for the largest reading and key.
ghost use Rattle.std.specs.Prelude.{◌≡◌, ◌≤◌, length, vec_len, IfOk};

use intake::cut::cut;
use std::alloc::{AllocError, Global};

// Room for the tokens of a text, for its tree of 65,536 nodes, its names and their letters, for 32 diagnostics and 131,072 visits,
// and for the key that the longest text with the most tokens can need.
#[derive(Drop)]
pub struct Room {
    pub words: Vec<u64>,
    pub nodes: Vec<u64>,
    pub names: Vec<u64>,
    pub letters: Vec<u8>,
    pub notes: Vec<u64>,
    pub visits: Vec<u64>,
    pub key: Vec<u8>,
}

// What is lent to a reading: a text's tokens, and of each room as much as they can need.
#[derive(Drop)]
pub struct Lent<'a> {
    pub tokens: &'a [u64],
    pub nodes: &'a mut [u64],
    pub names: &'a mut [u64],
    pub notes: &'a mut [u64],
    pub visits: &'a mut [u64],
    pub key: &'a mut [u8],
}

// The first part of a room, as much as there is.
pub fn up_to<T>(n: usize, room: &mut [T]) -> &mut [T]
    ensures { length result.now ≤ n }
{
    let most = n.min(room.len());
    &mut room[..most]
}

// The words for nodes that so many tokens can need.
fn node_words(tokens: usize, room: usize) -> usize {
    4 * (tokens.min(1_000_000) + 4).min(room.min(1_000_000))
}

// The bytes for a key that a text and its tokens can need.
fn key_bytes(text: usize, tokens: usize, space: usize) -> usize {
    (text.min(1_000_000) + 12 * tokens.min(1_000_000) + 16).min(space)
}

impl Room {
    pub fn new(alloc: Global) -> Result<Room, AllocError>
        ensures words { IfOk result (λ r. vec_len r.words ≡ 16385) }
        ensures nodes { IfOk result (λ r. vec_len r.nodes ≡ 262144) }
        ensures names { IfOk result (λ r. vec_len r.names ≡ 21846) }
        ensures letters { IfOk result (λ r. vec_len r.letters ≡ 131072) }
        ensures notes { IfOk result (λ r. vec_len r.notes ≡ 160) }
        ensures visits { IfOk result (λ r. vec_len r.visits ≡ 393216) }
        ensures key { IfOk result (λ r. vec_len r.key ≡ 262160) }
    {
        Ok(Room {
            words: vec![in alloc; 0; 16_385]?,
            nodes: vec![in alloc; 0; 262_144]?,
            names: vec![in alloc; 0; 21_846]?,
            letters: vec![in alloc; 0; 131_072]?,
            notes: vec![in alloc; 0; 160]?,
            visits: vec![in alloc; 0; 393_216]?,
            key: vec![in alloc; 0; 262_160]?,
        })
    }

    // Cuts a text, and lends what its reading can need, but no more than so many nodes and bytes of key.
    pub fn lend(&mut self, text: &[u8], nodes: usize, space: usize) -> Lent<'_> {
        let n = cut(text, &mut self.words);
        Lent {
            tokens: &self.words[..n],
            nodes: up_to(node_words(n, nodes), &mut self.nodes),
            names: up_to(n, &mut self.names),
            notes: &mut self.notes,
            visits: &mut self.visits,
            key: up_to(key_bytes(text.len(), n, space), &mut self.key),
        }
    }
}
