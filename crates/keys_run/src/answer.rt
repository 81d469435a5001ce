// A record's line: what taking its key back answers and leaves in the buffers, the key written again, and the tree's visits.
ghost use Rattle.std.specs.Prelude.{◌≡◌, ◌*◌, ◌≤◌, length};
ghost use Rattle.fields.specs.Put.{far};

use key_in::back::take_back;
use key_out::out::put_key;
use lines::line::Out;
use lines::sum::{self, Sum, dirty, is_key, root};
use visits::visits::walk;
use words::limits::Tree;

// How many words are lent for visits at most, which is enough for a tree that is not large.
const VISITS: usize = 4096;

// What a record lends: for a tree, for its names and its text, and for the key written again.
#[derive(Drop)]
pub struct Lent<'a> {
    pub nodes: &'a mut [u64],
    pub names: &'a mut [u64],
    pub text: &'a mut [u8],
    pub again: &'a mut [u8],
    ghost near: { length again.now * 8 ≤ far },
}

impl Lent<'_> {
    // A record's line, without its end. All that is lent is dirty before.
    pub fn answer(&mut self, out: &mut Out, op: u8, key: &[u8]) {
        dirty(self.nodes, self.names, self.text, self.again);
        match take_back(key, self.nodes, self.names, self.text) {
            Err(stop) => {
                out.bytes(b"refused");
                out.next(stop.why.number() as u64);
                out.next(stop.bit as u64);
                self.left(out);
            }
            Ok((count, named, chars)) => {
                out.bytes(b"taken");
                out.three(count as u64, named as u64, chars as u64);
                self.left(out);
                if op == 1 {
                    self.displace();
                }
                self.written(out, key, count);
                self.visited(out, count);
            }
        }
    }

    // All of the lent nodes, names and text as one number.
    fn left(&self, out: &mut Out) {
        let sum = Sum::new().with(self.nodes).with(self.names).with(self.text);
        out.next(sum.word());
    }

    // Dirt in the second of each four words, where a node has its position: no key holds it.
    fn displace(&mut self) {
        for position in self.nodes.iter_mut().skip(1).step_by(4) {
            *position = u64::MAX;
        }
    }

    // The length of the key written again, whether it is the key, and its buffer as a number.
    fn written(&mut self, out: &mut Out, key: &[u8], count: usize) {
        let size = put_key(
            self.nodes,
            self.names,
            self.text,
            root(count),
            Tree::TALLEST,
            self.again,
        );
        out.next(size as u64);
        out.next(u64::from(is_key(self.again, size, key)));
        out.next(sum::of(self.again));
    }

    // How many words the tree's visits have, and their buffer, dirty before, as a number. The words lent for them are as
    // many as the bytes lent for the key.
    fn visited(&self, out: &mut Out, count: usize) {
        let mut room = [u64::MAX; VISITS];
        let visits = &mut room[..self.again.len().min(VISITS)];
        let size = walk(self.nodes, self.names, root(count), Tree::TALLEST, visits);
        out.next(size as u64);
        out.next(sum::of(visits));
    }
}
