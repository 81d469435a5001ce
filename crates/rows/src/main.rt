// Runs the two open calls on each record of the file that the first argument names, and counts the answers that are not
// as the record says. A line for each of them, and at the end one with how many records there were and how many differ.
// A record begins with one byte: 4 if it takes a key back, else it reads, with 1 for preserve_parens; plus 2 to see all
// that is lent where it differs. Then, in 4 bytes each, lowest first: the start, the text's length, the number of token
// words, how many words are lent for nodes, names and diagnostics, the bytes lent for the key, or the key's length, and
// those lent for letters; and the twelve numbers of the answer. Then the text and the words (8 bytes each, lowest first),
// or the key. A length for which there is no room counts as the room there is. The key of a granted reading is taken back
// too, into what the record lends, and written again from there: it must be the same. All that is lent is dirty before
// each call. A record that the file cuts short prints `cut` and ends the run.
#![tactic(auto)]

mod answer;
mod head;
mod lent;

ghost use Rattle.std.specs.Prelude.{◌≤◌, length};

use crate::head::Head;
use crate::lent::Lent;
use lines::line::Out;
use lines::record::{self, Cut};
use lines::room;
use std::alloc::{AllocError, Global};
use std::io::{self, BufReader, Read};

// Room for the largest record.
#[derive(Drop)]
struct Rooms {
    text: Vec<u8>,
    words: Vec<u64>,
    nodes: Vec<u64>,
    names: Vec<u64>,
    notes: Vec<u64>,
    key: Vec<u8>,
    letters: Vec<u8>,
    again: Vec<u8>,
}

impl Rooms {
    // For diagnostics, words for ten more than there may be, and two words.
    fn new(alloc: Global) -> Result<Rooms, AllocError> {
        Ok(Rooms {
            text: vec![in alloc; 0; 65536]?,
            words: vec![in alloc; 0; room::WORDS]?,
            nodes: vec![in alloc; 0; room::NODES]?,
            names: vec![in alloc; 0; room::WORDS]?,
            notes: vec![in alloc; 0; 212]?,
            key: vec![in alloc; 0; room::KEY]?,
            letters: vec![in alloc; 0; room::LETTERS]?,
            again: vec![in alloc; 0; room::KEY]?,
        })
    }
}

// The first part of a room, as long as a record asks for, or all of a smaller room.
fn most<T>(room: &mut [T], asked: u32) -> &mut [T]
    ensures { length result.now ≤ asked }
{
    let n = room.len().min(asked as usize);
    &mut room[..n]
}

// The records so far, and those that differ.
#[derive(Clone, Copy)]
struct Total {
    run: u64,
    different: u64,
}

impl Total {
    // A record after its head, on what it lends.
    fn show<R: Read>(
        &mut self,
        rooms: &mut Rooms,
        file: &mut R,
        head: &Head,
        out: &mut Out,
    ) -> Result<(), Cut> {
        let mut lent = Lent {
            text: most(&mut rooms.text, head.text),
            words: most(&mut rooms.words, head.words),
            nodes: most(&mut rooms.nodes, head.nodes),
            names: most(&mut rooms.names, head.names),
            notes: most(&mut rooms.notes, head.notes),
            key: most(&mut rooms.key, head.key),
            letters: most(&mut rooms.letters, head.letters),
            again: most(&mut rooms.again, head.key),
        };
        lent.load(file, head)?;
        if !lent.holds(out, self.run, head) {
            self.different = self.different.saturating_add(1);
        }
        self.run = self.run.saturating_add(1);
        Ok(())
    }

    // The last line.
    fn end(&self, out: &mut Out) {
        out.number(self.run);
        out.bytes(b" vectors,");
        out.next(self.different);
        out.bytes(b" different\n");
        out.flush();
    }
}

fn main(rt: HostRuntime) -> io::Result<()> {
    let mut rooms = Rooms::new(rt.alloc())?;
    let Some(file) = record::opened(&rt) else {
        return Ok(());
    };
    let mut file = BufReader::new(rt.alloc(), file)?;
    let mut out = Out::new();
    let mut total = Total {
        run: 0,
        different: 0,
    };
    let run = record::each(&mut file, &mut out, |file, head: Head, out| {
        total.show(&mut rooms, file, &head, out)
    });
    if run.is_err() {
        out.bytes(b"cut\n");
    }
    total.end(&mut out);
    Ok(())
}
