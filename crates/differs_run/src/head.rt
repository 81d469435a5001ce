// A record's head.
use lines::record::four;

// What a record asks for: the words that it lends, and the lengths of its keys.
#[derive(Clone, Copy)]
pub struct Head {
    pub op: u8,
    pub list: u32,
    pub left: u32,
    pub right: u32,
}

impl From<[u8; 13]> for Head {
    fn from(bytes: [u8; 13]) -> Head {
        Head {
            op: bytes[0],
            list: four(&bytes, 1),
            left: four(&bytes, 5),
            right: four(&bytes, 9),
        }
    }
}
