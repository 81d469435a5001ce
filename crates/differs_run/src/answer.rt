// A record's line: whether its left key is one; or what differs between its keys, and the list that was lent.
use comparing::differ::{Undiffered, Whose, differ};
use key_parts::refusal::Stop;
use lines::line::Out;
use lines::sum;
use sound_keys::sound::sound;

// A refusal's number, side and bit.
fn refused(out: &mut Out, x: Undiffered) {
    out.bytes(b"refused");
    out.three(x.why.number() as u64, x.side.number() as u64, x.bit as u64);
}

// Whether the left key is one.
fn checked(out: &mut Out, left: &[u8]) {
    match sound(left) {
        Ok(()) => out.bytes(b"key"),
        Err(Stop { why, bit }) => refused(
            out,
            Undiffered {
                why,
                side: Whose::Left,
                bit,
            },
        ),
    }
}

// What differs, and all of the list as one number. The list is dirty before.
fn compared(out: &mut Out, left: &[u8], right: &[u8], list: &mut [u64]) {
    list.fill(u64::MAX);
    match differ(left, right, list) {
        Err(x) => refused(out, x),
        Ok(count) => {
            out.bytes(b"found");
            out.next(count as u64);
        }
    }
    out.next(sum::of(list));
}

// A record's line, without its end: op 1 checks the left key, any other compares both.
pub fn answer(out: &mut Out, op: u8, left: &[u8], right: &[u8], list: &mut [u64]) {
    match op {
        1 => checked(out, left),
        _ => compared(out, left, right, list),
    }
}
