// A record's head.
ghost use Rattle.std.specs.Prelude.{◌≡◌, ◌<◌, ◌≤◌, ◌^◌};

use lines::record::four;
use words::cursor::Cursor;

// What a record's head says: op, two numbers, the text's length and the number of words.
#[derive(Clone, Copy)]
pub struct Head {
    pub op: u8,
    pub a: u32,
    pub b: u32,
    pub text: u32,
    pub words: u32,
}

impl From<[u8; 17]> for Head {
    fn from(bytes: [u8; 17]) -> Head {
        Head {
            op: bytes[0],
            a: four(&bytes, 1),
            b: four(&bytes, 5),
            text: four(&bytes, 9),
            words: four(&bytes, 13),
        }
    }
}

impl Head {
    // A cursor at a token, or at its second half.
    pub fn cursor(&self) -> Cursor
        ensures { (result.at ≡ self.now.a) × (result.at < 2 ^ 32) × (result.half ≤ 1) }
    {
        Cursor {
            at: self.a as usize,
            half: usize::from(self.b != 0),
        }
    }
}
