// Runs the crate `differs` on each record of the file that the first argument names, and prints a line for each.
// A record: op (1 byte), the words lent for the list, the lengths of the left and of the right key (4 bytes each, lowest first),
// the left key, the right key. A record that the file cuts short, or that is too large, prints `cut`.
#![tactic(auto)]

mod answer;
mod head;

use crate::answer::answer;
use crate::head::Head;
use lines::line::Out;
use lines::record::{self, Cut};
use lines::room::{self, lent};
use std::alloc::{AllocError, Global};
use std::io::{self, Read};

// Room for the largest record: two keys, and the words of a list that is not large.
#[derive(Drop)]
struct Rooms {
    left: Vec<u8>,
    right: Vec<u8>,
    list: Vec<u64>,
}

impl Rooms {
    fn new(alloc: Global) -> Result<Rooms, AllocError> {
        Ok(Rooms {
            left: vec![in alloc; 0; room::KEY]?,
            right: vec![in alloc; 0; room::KEY]?,
            list: vec![in alloc; 0; 65536]?,
        })
    }

    // A record after its head: its keys are read, and its line is gathered.
    fn show<R: Read>(&mut self, file: &mut R, head: Head, out: &mut Out) -> Result<(), Cut> {
        let list = lent(&mut self.list, head.list)?;
        let left = lent(&mut self.left, head.left)?;
        let right = lent(&mut self.right, head.right)?;
        record::load(file, left)?;
        record::load(file, right)?;
        answer(out, head.op, left, right, list);
        out.byte(b'\n');
        Ok(())
    }
}

fn main(rt: HostRuntime) -> io::Result<()> {
    let mut rooms = Rooms::new(rt.alloc())?;
    record::run(&rt, |file, head, out| rooms.show(file, head, out))
}
