// Bytes that are given in hex, and how they are shown.
ghost use Rattle.std.specs.Prelude.{◌<◌, IfSome, IfOk};
ghost use Rattle.io.specs.Counts.{IsPrefixLen};

use crate::put::{Shape, blanks, copy};
use lines::line::Out;

// Why a text is no key in hex.
#[derive(Clone, Copy, Debug, PartialEq, Eq)]
pub enum HexError {
    NotHex,
    HalfByte,
}

impl HexError {
    // A line on that.
    pub fn complain(self) {
        let line: &[u8] = match self {
            HexError::NotHex => {
                b"typekey: the key is not in hex; typekey --help says how it is used\n"
            }
            HexError::HalfByte => {
                b"typekey: the key has half a byte; typekey --help says how it is used\n"
            }
        };
        io::write_all(2, line);
    }
}

// The value of a digit.
fn digit(b: u8) -> Option<u8>
    ensures { IfSome result (λ d. d < 16) }
{
    match b {
        b'0'..=b'9' => Some(b - b'0'),
        b'A'..=b'F' => Some(b - b'A' + 10),
        b'a'..=b'f' => Some(b - b'a' + 10),
        _ => None,
    }
}

// The bytes that a text of digits stands for, two for a byte, blanks aside; how many there are, as far as there is room.
pub fn digits(text: &[u8], key: &mut [u8]) -> Result<usize, HexError>
    ensures { IfOk result (λ n. IsPrefixLen n key.new) }
{
    let mut made: usize = 0;
    let mut high = None;
    for &b in text {
        if matches!(b, b' ' | 9..=13) {
            continue;
        }
        let d = digit(b).ok_or(HexError::NotHex)?;
        let Some(h) = high.take() else {
            high = Some(d);
            continue;
        };
        if made < key.len() {
            key[made] = h * 16 + d;
            made += 1;
        }
    }
    match high {
        Some(_) => Err(HexError::HalfByte),
        None => Ok(made),
    }
}

// The key again, and a caret under the digit of a bit: at most 30 bytes of it before and behind.
pub fn pointed(out: &mut Out, key: &[u8], bit: usize) {
    let here = bit / 8;
    let before = here.min(30);
    let behind = here.min(key.len()).saturating_add(30).min(key.len());
    out.bytes(b"  ");
    copy(out, key, here - before, behind, Shape::Hex);
    out.bytes(b"\n  ");
    blanks(out, 2 * before + bit % 8 / 4);
    out.bytes(b"^\n");
}
