// A key that is given in hex, taken back by the library, and printed.
use crate::room::{Room, up_to};
use crate::work::Work;
use prints::taking::{granted, refused};
use speech::hex::digits;
use typekey::taking::take_back;

// The words for the nodes that a key of so many bytes can have, and no more than asked: none has fewer than six bits.
fn node_words(n: usize, room: usize) -> usize {
    4 * (n.min(1_000_000) * 8 / 6 + 1).min(room.min(1_000_000))
}

impl Work {
    // Takes the first bytes of the room for a key back, and prints what it came to.
    fn show_tree(&mut self, n: usize) {
        let Work { out, room, job } = self;
        let key = up_to(n, &mut room.key);
        let nodes = up_to(node_words(n, job.room), &mut room.nodes);
        let names = up_to(n, &mut room.names);
        let letters = up_to(n.min(job.space), &mut room.letters);
        match take_back(key, nodes, names, letters) {
            Ok(u) => granted(
                out,
                key,
                nodes,
                names,
                letters,
                &mut room.visits,
                u.nodes,
                u.names,
                job.form,
            ),
            Err(x) => refused(out, key, x.why, x.bit, job.form, None),
        }
    }

    // Takes the key back that a text of hex stands for, and prints what it came to; if it is no hex, a line on that.
    pub fn show_key(&mut self, text: &[u8]) {
        match digits(text, &mut self.room.key) {
            Ok(n) => self.show_tree(n),
            Err(error) => error.complain(),
        }
    }
}
