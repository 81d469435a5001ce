// An answer as twelve numbers.
use lines::sum;
use typekey::reading::{Counts, Refused};
use typekey::taking::{NotTaken, Used};

// The numbers that a call answers, and a sum over each of the lent slices.
#[derive(Clone, Copy, PartialEq, Eq)]
pub struct Answer {
    pub said: [usize; 8],
    pub left: [u64; 4],
}

// 0, the counts of nodes, names, diagnostics and bytes of key, the end's token and half, and the type rules entered; or the
// refusal's number, token, half and byte, and four zeros.
pub fn of_reading(
    reading: Result<Counts, Refused>,
    nodes: &[u64],
    names: &[u64],
    notes: &[u64],
    key: &[u8],
) -> Answer {
    let said = match reading {
        Ok(c) => [0, c.nodes, c.names, c.notes, c.key, c.at, c.half, c.entered],
        Err(x) => [x.why.number(), x.token, x.half, x.byte, 0, 0, 0, 0],
    };
    Answer {
        said,
        left: [sum::of(nodes), sum::of(names), sum::of(notes), sum::of(key)],
    }
}

// 0, the counts of nodes, names and letters; or the refusal's number and bit; and zeros.
pub fn of_taking(
    taking: Result<Used, NotTaken>,
    nodes: &[u64],
    names: &[u64],
    letters: &[u8],
) -> Answer {
    let said = match taking {
        Ok(u) => [0, u.nodes, u.names, u.letters, 0, 0, 0, 0],
        Err(x) => [x.why.number(), x.bit, 0, 0, 0, 0, 0, 0],
    };
    Answer {
        said,
        left: [sum::of(nodes), sum::of(names), sum::of(letters), 0],
    }
}
