// What a record lends, and what the calls do with it.
ghost use Rattle.std.specs.Prelude.{◌≡◌, ◌*◌, ◌≤◌, length};
ghost use Rattle.fields.specs.Put.{far};

use crate::answer::{Answer, of_reading, of_taking};
use crate::head::Head;
use key_out::out::put_key;
use lines::line::Out;
use lines::record::{self, Cut};
use lines::sum::{dirty, is_key, root};
use std::io::Read;
use typekey::reading::read;
use typekey::taking::take_back;
use words::limits::Tree;

// The first part of each room. The key is what is read or taken back, and `again` is for the key of what was taken.
#[derive(Drop)]
pub struct Lent<'a> {
    pub text: &'a mut [u8],
    pub words: &'a mut [u64],
    pub nodes: &'a mut [u64],
    pub names: &'a mut [u64],
    pub notes: &'a mut [u64],
    pub key: &'a mut [u8],
    pub letters: &'a mut [u8],
    pub again: &'a mut [u8],
    ghost near: { length again.now * 8 ≤ far },
}

impl Lent<'_> {
    // What a record holds after its head: a key, or text and words.
    pub fn load<R: Read>(&mut self, file: &mut R, head: &Head) -> Result<(), Cut> {
        if head.takes_back {
            return record::load(file, self.key);
        }
        record::load(file, self.text)?;
        record::load_words(file, self.words)
    }

    // Whether a record's answer is as it says, and so is its key taken back and written again; a line if not.
    pub fn holds(&mut self, out: &mut Out, run: u64, head: &Head) -> bool {
        if head.takes_back {
            self.takes(out, run, head)
        } else {
            self.reads(out, run, head)
        }
    }

    // The same of a record that reads. All that is lent is dirty before.
    fn reads(&mut self, out: &mut Out, run: u64, head: &Head) -> bool {
        self.nodes.fill(u64::MAX);
        self.names.fill(u64::MAX);
        self.notes.fill(u64::MAX);
        self.key.fill(u8::MAX);
        let reading = read(
            self.text,
            self.words,
            head.start as usize,
            head.preserve_parens,
            self.nodes,
            self.names,
            self.notes,
            self.key,
        );
        let got = of_reading(reading, self.nodes, self.names, self.notes, self.key);
        if got != head.want {
            self.tell(out, run, head, &got);
            return false;
        }
        match reading {
            Ok(c) => self.comes_back(out, run, c.key),
            Err(_) => true,
        }
    }

    // The same of a record that takes a key back.
    fn takes(&mut self, out: &mut Out, run: u64, head: &Head) -> bool {
        self.nodes.fill(u64::MAX);
        self.names.fill(u64::MAX);
        self.letters.fill(u8::MAX);
        let taking = take_back(self.key, self.nodes, self.names, self.letters);
        let got = of_taking(taking, self.nodes, self.names, self.letters);
        if got != head.want {
            self.tell(out, run, head, &got);
            return false;
        }
        true
    }

    // Whether a key of so many bytes is the same when it is taken back and written again; a line if not.
    fn comes_back(&mut self, out: &mut Out, run: u64, size: usize) -> bool {
        let size = size.min(self.key.len());
        let key = &self.key[..size];
        dirty(self.nodes, self.names, self.letters, self.again);
        let is_back = match take_back(key, self.nodes, self.names, self.letters) {
            Ok(u) => {
                let size = put_key(
                    self.nodes,
                    self.names,
                    self.letters,
                    root(u.nodes),
                    Tree::TALLEST,
                    self.again,
                );
                is_key(self.again, size, key)
            }
            Err(_) => false,
        };
        if !is_back {
            out.bytes(b"different");
            out.next(run);
            out.bytes(b" in its key taken back and written again\n");
        }
        is_back
    }

    // The line of a record that has another answer: its number among all, from 0, the answer, and all that is lent where
    // the record asks for it.
    fn tell(&self, out: &mut Out, run: u64, head: &Head, got: &Answer) {
        out.bytes(b"different");
        out.next(run);
        for number in got.said {
            out.next(number as u64);
        }
        words(out, &got.left);
        if head.shows_all {
            out.bytes(b" |");
            words(out, self.nodes);
            out.bytes(b" |");
            words(out, self.names);
            out.bytes(b" |");
            words(out, self.notes);
            out.bytes(b" |");
            let bytes = if head.takes_back {
                &self.letters[..]
            } else {
                &self.key[..]
            };
            for b in bytes {
                out.next(u64::from(*b));
            }
        }
        out.byte(b'\n');
    }
}

// Words, each after a space.
fn words(out: &mut Out, words: &[u64]) {
    for word in words {
        out.next(*word);
    }
}
