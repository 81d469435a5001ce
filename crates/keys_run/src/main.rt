// Runs the crates `key_in`, `key_out` and `visits` on each record of the file that the first argument names, and prints a line for each.
// A record: op (1 byte), the words lent for nodes and for names, the bytes lent for text and for the key written again,
// the key's length (4 bytes each, lowest first), the key. A record that the file cuts short, or that is too large,
// prints `cut`.
#![tactic(auto)]

mod answer;
mod head;

use crate::answer::Lent;
use crate::head::Head;
use lines::line::Out;
use lines::record::{self, Cut};
use lines::room::{self, lent};
use std::alloc::{AllocError, Global};
use std::io::{self, Read};

// Room for the largest record.
#[derive(Drop)]
struct Rooms {
    key: Vec<u8>,
    nodes: Vec<u64>,
    names: Vec<u64>,
    text: Vec<u8>,
    again: Vec<u8>,
}

impl Rooms {
    fn new(alloc: Global) -> Result<Rooms, AllocError> {
        Ok(Rooms {
            key: vec![in alloc; 0; room::KEY]?,
            nodes: vec![in alloc; 0; room::NODES]?,
            names: vec![in alloc; 0; room::WORDS - 1]?,
            text: vec![in alloc; 0; room::LETTERS]?,
            again: vec![in alloc; 0; room::KEY]?,
        })
    }

    // A record after its head: its key is read, and its line is gathered.
    fn show<R: Read>(&mut self, file: &mut R, head: Head, out: &mut Out) -> Result<(), Cut> {
        let key = lent(&mut self.key, head.key)?;
        let mut given = Lent {
            nodes: lent(&mut self.nodes, head.nodes)?,
            names: lent(&mut self.names, head.names)?,
            text: lent(&mut self.text, head.text)?,
            again: lent(&mut self.again, head.again)?,
        };
        record::load(file, key)?;
        given.answer(out, head.op, key);
        out.byte(b'\n');
        Ok(())
    }
}

fn main(rt: HostRuntime) -> io::Result<()> {
    let mut rooms = Rooms::new(rt.alloc())?;
    record::run(&rt, |file, head, out| rooms.show(file, head, out))
}
