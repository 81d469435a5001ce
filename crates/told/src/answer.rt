// What each of the three calls answers, in eight words: 0 and what it counts, or a refusal's number and place. The other words are 0.
ghost use Rattle.std.specs.Prelude.{◌≡◌, [], ◌∷◌};
ghost use Rattle.told.specs.Answer.{told, told_back, told_difference};
ghost use Rattle.told.specs.Denied.{denied_by, back_by, difference_by, answer_by, answer_back_by, answer_difference_by};

use answers::reading::{Counts, Refused};
use comparing::differ::Undiffered;
use taking_back::call::{NotTaken, Used};

// Why a text is refused, by any number; its token, the half used of it, and the first byte not used.
#[derive(Clone, Copy, Debug, PartialEq, Eq)]
pub struct Denied {
    pub number: usize,
    pub token: usize,
    pub half: usize,
    pub byte: usize,
}

impl From<Refused> for Denied {
    ghost from_gives = { λ r d. d ≡ denied_by r };

    fn from(r: Refused) -> Denied {
        Denied {
            number: r.why.number(),
            token: r.token,
            half: r.half,
            byte: r.byte,
        }
    }
}

// Why a key is not taken back, by any number; and its bit.
#[derive(Clone, Copy, Debug, PartialEq, Eq)]
pub struct DeniedBack {
    pub number: usize,
    pub bit: usize,
}

impl From<NotTaken> for DeniedBack {
    ghost from_gives = { λ n d. d ≡ back_by n };

    fn from(n: NotTaken) -> DeniedBack {
        DeniedBack {
            number: n.why.number(),
            bit: n.bit,
        }
    }
}

// Why two keys are not compared, and whose key it is, both by any number; and its bit there.
#[derive(Clone, Copy, Debug, PartialEq, Eq)]
pub struct DeniedDifference {
    pub number: usize,
    pub side: usize,
    pub bit: usize,
}

impl From<Undiffered> for DeniedDifference {
    ghost from_gives = { λ u d. d ≡ difference_by u };

    fn from(u: Undiffered) -> DeniedDifference {
        DeniedDifference {
            number: u.why.number(),
            side: u.side.number(),
            bit: u.bit,
        }
    }
}

// Four words, and zeros behind them.
fn four(a: usize, b: usize, c: usize, d: usize) -> [u64; 8]
    ensures { result ≡ a ∷ b ∷ c ∷ d ∷ 0 ∷ 0 ∷ 0 ∷ 0 ∷ [] }
{
    [a as u64, b as u64, c as u64, d as u64, 0, 0, 0, 0]
}

// 0, then nodes, names, notes, bytes of key, the end's token and half, and type rules entered; or the refusal's number, token, half and byte.
pub fn tell_reading(r: Result<Counts, Denied>, answer: &mut [u64; 8])
    ensures { answer.new ≡ told (answer_by r) }
{
    *answer = match r {
        Ok(c) => [
            0,
            c.nodes as u64,
            c.names as u64,
            c.notes as u64,
            c.key as u64,
            c.at as u64,
            c.half as u64,
            c.entered as u64,
        ],
        Err(x) => four(x.number, x.token, x.half, x.byte),
    };
}

// 0, then nodes, names and bytes of text; or the refusal's number and bit.
pub fn tell_taking(r: Result<Used, DeniedBack>, answer: &mut [u64; 8])
    ensures { answer.new ≡ told_back (answer_back_by r) }
{
    *answer = match r {
        Ok(u) => four(0, u.nodes, u.names, u.letters),
        Err(x) => four(x.number, x.bit, 0, 0),
    };
}

// 0 and how many pairs there are; or the refusal's number, side and bit.
pub fn tell_difference(r: Result<usize, DeniedDifference>, answer: &mut [u64; 8])
    ensures { answer.new ≡ told_difference (answer_difference_by r) }
{
    *answer = match r {
        Ok(pairs) => four(0, pairs, 0, 0),
        Err(x) => four(x.number, x.side, x.bit, 0),
    };
}
