// The records of a file: their bytes, numbers of four and eight bytes, lowest first, and how a run ends.
ghost use Rattle.std.specs.Prelude.{◌≡◌, ◌+◌, ◌*◌, ◌^◌, ◌<◌, ◌≤◌, length, take, [], OnOk, IfOk, MatchOption, flat_map};
ghost use Rattle.std.specs.Int.{to_le_bytes, w64};
ghost use Rattle.io.specs.Counts.{IsPrefixLen};
ghost use Rattle.std.specs.Io.KnownBytes.{Consumes};

use crate::given::{complain, file};
use crate::line::Out;
use std::env::FillError;
use std::io::{BufReader, Read};
use std::rt::{Env, Files};

// How many words are read at once.
const AT_ONCE: usize = 128;

// A record that the file cuts short, or that is too large.
#[derive(Clone, Copy)]
pub struct Cut;

// A number of four bytes.
pub fn four(bytes: &[u8], i: usize) -> u32
    requires { i + 4 ≤ length bytes.now }
{
    u32::from_le_bytes([bytes[i], bytes[i + 1], bytes[i + 2], bytes[i + 3]])
}

// Fills a buffer from a reader, and gives back how many bytes it put there: fewer where the reader ends or fails.
// It counts them itself: after an error the library's own reading does not say how many there were.
pub fn filled<R: Read>(from: &mut R, bytes: &mut [u8]) -> usize
    ensures in_bounds { IsPrefixLen result bytes.new }
    ensures read { Consumes (R.remaining from.old) (R.remaining from.new) (take result bytes.new) }
{
    let mut done = 0;
    while done < bytes.len() {
        match from.read(&mut bytes[done..]) {
            Ok(0) | Err(_) => break,
            Ok(n) => done += n,
        }
    }
    done
}

// The head of the next record; none where the reader has no more.
pub fn head<R: Read, const N: usize>(from: &mut R) -> Result<Option<[u8; N]>, Cut>
    ensures { IfOk result (λ o. MatchOption o (Consumes (R.remaining from.old) (R.remaining from.new) []) (λ h. Consumes (R.remaining from.old) (R.remaining from.new) h)) }
{
    let mut head = [0u8; N];
    match filled(from, &mut head) {
        0 => Ok(None),
        n if n < N => Err(Cut),
        _ => Ok(Some(head)),
    }
}

// A buffer of the next bytes of a reader.
pub fn load<R: Read>(from: &mut R, bytes: &mut [u8]) -> Result<(), Cut>
    ensures len { length bytes.new ≡ length bytes.old }
    ensures read { OnOk result (Consumes (R.remaining from.old) (R.remaining from.new) bytes.new) }
{
    if filled(from, bytes) < bytes.len() {
        return Err(Cut);
    }
    Ok(())
}

// The word of eight bytes.
fn word_of(eight: [u8; 8]) -> u64
    ensures { to_le_bytes w64 result ≡ eight }
{
    u64::from_le_bytes(eight)
}

// Words out of their bytes.
fn put_words(bytes: &[u8], words: &mut [u64])
    requires { length bytes.now ≡ 8 * length words.old }
    ensures { flat_map (to_le_bytes w64) words.new ≡ bytes.now }
{
    let (eights, _) = bytes.as_chunks::<8>();
    for (i, word) in words.iter_mut().enumerate() {
        *word = word_of(eights[i]);
    }
}

// The next words of a reader, no more than are read at once.
fn load_part<R: Read>(from: &mut R, words: &mut [u64]) -> Result<(), Cut>
    requires { length words.old ≤ 128 }
    ensures len { length words.new ≡ length words.old }
    ensures read { OnOk result (Consumes (R.remaining from.old) (R.remaining from.new) (flat_map (to_le_bytes w64) words.new)) }
{
    let mut buffer = [0u8; 8 * AT_ONCE];
    let bytes = &mut buffer[..8 * words.len()];
    load(from, bytes)?;
    put_words(bytes, words);
    Ok(())
}

// The next words of a reader. The last part may be shorter.
pub fn load_words<R: Read>(from: &mut R, words: &mut [u64]) -> Result<(), Cut>
    ensures len { length words.new ≡ length words.old }
    ensures read { OnOk result (Consumes (R.remaining from.old) (R.remaining from.new) (flat_map (to_le_bytes w64) words.new)) }
{
    let mut done = 0;
    while done < words.len() {
        let end = words.len().min(done + AT_ONCE);
        load_part(from, &mut words[done..end])?;
        done = end;
    }
    Ok(())
}

// Shows each record of a reader by its head, at most a thousand million.
pub fn each<
    R: Read,
    H: From<[u8; N]>,
    F: FnMut(&mut R, H, &mut Out) -> Result<(), Cut>,
    const N: usize,
>(from: &mut R, out: &mut Out, mut show: F) -> Result<(), Cut>
where
    F: Drop,
    requires size { N < 2 ^ 63 }
    requires callable { F.IsAlwaysCallable show }
{
    for _ in 0..1_000_000_000 {
        let Some(head) = head(from)? else {
            break;
        };
        show(from, H::from(head), out)?;
    }
    Ok(())
}

// The file that the first argument names, open to be read; none where it cannot be, after a line that says so.
pub fn opened<R: Env + Files>(rt: &R) -> Option<R::File> {
    let mut path = io::buffer();
    match rt.arg(1, &mut path) {
        Ok(k) => file(rt, &path[..k]),
        Err(FillError::NotPresent) => {
            complain(b"path", b"Invalid argument");
            None
        }
        Err(FillError::TooLong) => {
            complain(b"path", b"File name too long");
            None
        }
    }
}

// What is gathered goes out at the end of a run, after a line where a record is cut.
pub fn ended(out: &mut Out, run: Result<(), Cut>)
    ensures { out.new.len ≡ 0 }
{
    match run {
        Ok(()) => out.flush(),
        Err(Cut) => out.cut(),
    }
}

// Runs a program over the records of the file that the first argument names.
pub fn run<
    R: Env + Files + AllocGlobal,
    H: From<[u8; N]>,
    F: FnMut(&mut BufReader<R::File>, H, &mut Out) -> Result<(), Cut>,
    const N: usize,
>(rt: &R, show: F) -> std::io::Result<()>
where
    F: Drop,
    requires size { N < 2 ^ 63 }
    requires callable { F.IsAlwaysCallable show }
{
    let Some(file) = opened(rt) else {
        return Ok(());
    };
    let mut file = BufReader::new(rt.alloc(), file)?;
    let mut out = Out::new();
    let run = each(&mut file, &mut out, show);
    ended(&mut out, run);
    Ok(())
}
