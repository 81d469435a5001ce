// A text read by the library, and printed.
use crate::room::Lent;
use crate::work::Work;
use prints::reading::{granted, refused};
use typekey::reading::read;

impl Work {
    // Reads a type, and prints what it came to.
    pub fn show(&mut self, text: &[u8]) {
        let Work { out, room, job } = self;
        let Lent {
            tokens,
            nodes,
            names,
            notes,
            visits,
            key,
        } = room.lend(text, job.room, job.space);
        match read(text, tokens, 0, job.parens, nodes, names, notes, key) {
            Ok(c) => granted(out, text, tokens, nodes, names, visits, notes, key, c, *job),
            Err(x) => refused(out, text, tokens, x, *job),
        }
    }
}
