// Runs the crates `words` and `checks` on each record of the file that the first argument names, and prints a line for each.
// A record: op (1 byte), a, b, the text's length, the number of words (4 bytes each, lowest first), the text, the
// words (8 bytes each, lowest first). A record that the file cuts short, or that is too large, prints `cut`.
#![tactic(auto)]

mod answer;
mod head;

use crate::answer::answer;
use crate::head::Head;
use lines::line::Out;
use lines::record::{self, Cut};
use lines::room::{self, lent};
use std::alloc::{AllocError, Global};
use std::io::{self, Read};

// Room for the largest record.
#[derive(Drop)]
struct Rooms {
    text: Vec<u8>,
    words: Vec<u64>,
}

impl Rooms {
    fn new(alloc: Global) -> Result<Rooms, AllocError> {
        Ok(Rooms {
            text: vec![in alloc; 0; 65536]?,
            words: vec![in alloc; 0; room::WORDS]?,
        })
    }

    // A record after its head: text and words are read, and its line is gathered.
    fn show<R: Read>(&mut self, file: &mut R, head: Head, out: &mut Out) -> Result<(), Cut> {
        let text = lent(&mut self.text, head.text)?;
        let words = lent(&mut self.words, head.words)?;
        record::load(file, text)?;
        record::load_words(file, words)?;
        answer(out, &head, text, words);
        out.byte(b'\n');
        Ok(())
    }
}

fn main(rt: HostRuntime) -> io::Result<()> {
    let mut rooms = Rooms::new(rt.alloc())?;
    record::run(&rt, |file, head, out| rooms.show(file, head, out))
}
