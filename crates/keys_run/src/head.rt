// A record's head.
use lines::record::four;

// What a record asks for: how much it lends, and its key's length.
#[derive(Clone, Copy)]
pub struct Head {
    pub op: u8,
    pub nodes: u32,
    pub names: u32,
    pub text: u32,
    pub again: u32,
    pub key: u32,
}

impl From<[u8; 21]> for Head {
    fn from(bytes: [u8; 21]) -> Head {
        Head {
            op: bytes[0],
            nodes: four(&bytes, 1),
            names: four(&bytes, 5),
            text: four(&bytes, 9),
            again: four(&bytes, 13),
            key: four(&bytes, 17),
        }
    }
}
