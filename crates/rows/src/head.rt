// A record's head: what it asks for, and the answer that it must have.
ghost use Rattle.std.specs.Prelude.{◌<◌};

use crate::answer::Answer;
use lines::record::four;
use std::array::from_fn;

// What a record asks for: its call and options, the start, the lengths of all that is lent, and the answer.
#[derive(Clone, Copy)]
pub struct Head {
    pub takes_back: bool,
    pub preserve_parens: bool,
    pub shows_all: bool,
    pub start: u32,
    pub text: u32,
    pub words: u32,
    pub nodes: u32,
    pub names: u32,
    pub notes: u32,
    pub key: u32,
    pub letters: u32,
    pub want: Answer,
}

impl From<[u8; 81]> for Head {
    fn from(bytes: [u8; 81]) -> Head {
        let op = bytes[0];
        Head {
            takes_back: 4 <= op,
            preserve_parens: op % 2 == 1,
            shows_all: 2 <= op % 4,
            start: four(&bytes, 1),
            text: four(&bytes, 5),
            words: four(&bytes, 9),
            nodes: four(&bytes, 13),
            names: four(&bytes, 17),
            notes: four(&bytes, 21),
            key: four(&bytes, 25),
            letters: four(&bytes, 29),
            want: Answer {
                said: from_fn(
                    |k: usize|
                        requires { k < 8 }
                    { four(&bytes, 33 + 4 * k) as usize },
                ),
                left: from_fn(
                    |k: usize|
                        requires { k < 4 }
                    { u64::from(four(&bytes, 65 + 4 * k)) },
                ),
            },
        }
    }
}
