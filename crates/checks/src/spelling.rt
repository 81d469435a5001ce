// The fixed spellings, and what a token's bytes must be.
ghost use Rattle.std.specs.Prelude.{◌≡◌, ◌≤◌, ◌<◌, length, get_or};
ghost use Rattle.words.specs.Test.{among, same};
ghost use Rattle.words.specs.Spelling.{fixed_guesses, fixed_letters, fixed_places, guess_place_of, backslash, spelled_as_any, spelled_right, spelling};

use crate::tables::{GUESSES, LETTERS, PLACES};
use words::kind::{Class, Kind, in_class};

pub fn spelling_places() -> &'static [u16; 128]
    ensures { result.now ≡ fixed_places }
{
    &PLACES
}

pub fn spelling_letters() -> &'static [u8; 189]
    ensures { result.now ≡ fixed_letters }
{
    &LETTERS
}

pub fn spelling_guesses() -> &'static [u8; 128]
    ensures { result.now ≡ fixed_guesses }
{
    &GUESSES
}

// The fixed spelling of a kind: no bytes where none is fixed.
fn spelling(kind: usize) -> &'static [u8]
    requires { kind < 107 }
    ensures { result.now ≡ spelling kind }
{
    let place = spelling_places()[kind] as usize;
    let from = place / 16;
    &spelling_letters()[from..from + place % 16]
}

// Whether bytes are the fixed spelling of a kind.
pub fn spelled(bytes: &[u8], kind: usize) -> bool
    requires { kind < 107 }
    ensures { result ≡ same (spelling kind) bytes.now }
{
    spelling(kind) == bytes
}

// The one kind whose fixed spelling some bytes can be, by how many they are and the first and the last of them: 0 if they can be none.
// No fixed spelling has 16 bytes.
fn guess(bytes: &[u8]) -> usize
    requires { 1 ≤ length bytes.now }
    ensures { (result ≡ get_or fixed_guesses (guess_place_of bytes.now) 0) × (result < 107) }
{
    let n = bytes.len();
    let first = bytes[0] as usize;
    let last = bytes[n - 1] as usize;
    spelling_guesses()[(8 * (n % 16) + 13 * first + 46 * last) % 128] as usize
}

// Whether some bytes are the fixed spelling of any kind: only the guessed one is compared.
pub fn spelled_as_any(bytes: &[u8]) -> bool
    requires { 1 ≤ length bytes.now }
    ensures { result ≡ spelled_as_any bytes.now }
{
    spelled(bytes, guess(bytes))
}

// Whether a backslash is among some bytes.
fn has_backslash(bytes: &[u8]) -> bool
    ensures { result ≡ among bytes.now backslash }
{
    bytes.contains(&b'\\')
}

// Whether some bytes may stand for a token of a kind.
pub fn spelled_right(bytes: &[u8], kind: usize) -> bool
    requires { (1 ≤ length bytes.now) × (kind < 256) }
    ensures { result ≡ spelled_right kind bytes.now }
{
    if in_class(kind, Class::Fixed) {
        spelled(bytes, kind)
    } else if in_class(kind, Class::Other) {
        !spelled_as_any(bytes) && (kind != Kind::WORD || !has_backslash(bytes))
    } else {
        true
    }
}
