// Bits put into lent bytes, most significant first. Where the bytes end nothing is written, and the position counts on.
ghost use Rattle.std.specs.Prelude.{◌≡◌, ◌+◌, ◌-◌, ◌*◌, ◌/◌, ◌%◌, ◌≤◌, ◌<◌, ◌^◌, length};
ghost use Rattle.std.proofs.lemmas.List.Edits.{sets};
ghost use Rattle.keys.specs.Limits.{widest};
ghost use Rattle.keys.specs.Bits.{bits_of, bits_of_bytes};
ghost use Rattle.keys.specs.Store.{part};
ghost use Rattle.fields.specs.Put.{far, onward, Put};

use crate::take;

// Where a position stands still: further than any key.
pub const FAR: usize = 1 << 60;

// The position n bits on.
pub fn on_by(bit: usize, n: usize) -> usize
    requires { (bit ≤ far) × (n ≤ far) }
    ensures { result ≡ onward bit n }
{
    (bit + n).min(FAR)
}

// A number with `width` of its bits, before the last `rest`, replaced.
fn replaced(old: u64, width: usize, rest: usize, number: u64) -> u64
    requires { (old < 2 ^ 32) × (width + rest ≤ 32) × (number < 2 ^ width) }
    ensures { result ≡ (old / 2 ^ rest / 2 ^ width * 2 ^ width + number) * 2 ^ rest + old % 2 ^ rest }
{
    let part = take::lowest(old >> rest, width);
    old - (part << rest) + (number << rest)
}

// A few bits that stand in one byte.
fn put_part(key: &mut [u8], bit: usize, size: usize, part: u64)
    requires { (bit % 8 + size ≤ 8) × (part < 2 ^ size) }
    ensures { bits_of_bytes key.new ≡ sets (bits_of_bytes key.old) bit (bits_of size part) }
{
    let at = bit / 8;
    if at < key.len() {
        key[at] = replaced(u64::from(key[at]), size, 8 - bit % 8 - size, part) as u8;
    }
}

// Of `left` bits, those that still stand in the byte of the position.
fn first_of(bit: usize, left: usize) -> usize
    requires { 0 < left }
    ensures { (0 < result) × (result ≤ left) × (bit % 8 + result ≤ 8) }
{
    left.min(8 - bit % 8)
}

// A number, part by part.
fn put_parts(key: &mut [u8], bit: usize, width: usize, number: u32)
    requires { (length key.old * 8 ≤ far) × (bit ≤ far) × (width ≤ widest) }
    ensures { bits_of_bytes key.new ≡ sets (bits_of_bytes key.old) bit (bits_of width number) }
{
    let mut at = bit;
    let mut left = width;
    // no `for`: the parts differ in width
    while 0 < left {
        let size = first_of(at, left);
        let part = u64::from(number) >> (left - size);
        put_part(key, at, size, take::lowest(part, size));
        at += size;
        left -= size;
    }
}

// A number that stands in four bytes.
fn put_window(key: &mut [u8], bit: usize, width: usize, number: u32)
    requires { (bit / 8 + 4 ≤ length key.old) × (length key.old * 8 ≤ far) × (width ≤ widest) }
    ensures { bits_of_bytes key.new ≡ sets (bits_of_bytes key.old) bit (bits_of width number) }
{
    let at = bit / 8;
    let rest = 32 - bit % 8 - width;
    let number = take::lowest(u64::from(number), width);
    let new = replaced(take::four_at(key, at), width, rest, number);
    key[at..at + 4].copy_from_slice(&(new as u32).to_be_bytes());
}

// A number of any width to 24 bits, at any bit; the next position.
pub fn put_number(key: &mut [u8], bit: usize, width: usize, number: u32) -> usize
    requires { (length key.old * 8 ≤ far) × (bit ≤ far) × (width ≤ widest) }
    ensures { Put bit (bits_of width number) result key.old key.new }
{
    if bit / 8 + 4 <= key.len() {
        put_window(key, bit, width, number);
        return on_by(bit, width);
    }
    put_parts(key, bit, width, number);
    on_by(bit, width)
}

// Bytes that stand as bytes of the key.
fn put_whole(bytes: &[u8], key: &mut [u8], at: usize)
    requires { (length key.old * 8 ≤ far) × (at + length bytes.now ≤ length key.old) }
    ensures { bits_of_bytes key.new ≡ sets (bits_of_bytes key.old) (at * 8) (bits_of_bytes bytes.now) }
{
    take::copy(bytes, &mut key[at..at + bytes.len()]);
}

// Bytes that stand across bytes of the key, behind `skip` bits.
fn put_across(bytes: &[u8], key: &mut [u8], at: usize, skip: usize)
    requires { (length key.old * 8 ≤ far) × (at + length bytes.now < length key.old) × (skip ≤ 8) }
    ensures { bits_of_bytes key.new ≡ sets (bits_of_bytes key.old) (at * 8 + skip) (bits_of_bytes bytes.now) }
{
    let mut last = (u32::from(key[at]) >> (8 - skip)) as u8;
    for (i, byte) in bytes.iter().enumerate() {
        key[at + i] = take::between(last, *byte, skip);
        last = *byte;
    }
    let end = (at + bytes.len()) * 8;
    put_part(key, end, skip, take::lowest(u64::from(last), skip));
}

// Bytes that fit.
fn put_within(bytes: &[u8], key: &mut [u8], bit: usize)
    requires { (length key.old * 8 ≤ far) × (bit + length bytes.now * 8 ≤ length key.old * 8) }
    ensures { bits_of_bytes key.new ≡ sets (bits_of_bytes key.old) bit (bits_of_bytes bytes.now) }
{
    if bit % 8 == 0 {
        put_whole(bytes, key, bit / 8);
    } else {
        put_across(bytes, key, bit / 8, bit % 8);
    }
}

// The same where they may not fit; the next position.
fn put_bytes(bytes: &[u8], key: &mut [u8], bit: usize) -> usize
    requires { (length key.old * 8 ≤ far) × (bit ≤ far) }
    ensures { Put bit (bits_of_bytes bytes.now) result key.old key.new }
{
    let mut at = bit;
    for byte in bytes {
        at = put_number(key, at, 8, u32::from(*byte));
    }
    at
}

// `count` bytes of a text; the next position.
pub fn put_text(text: &[u8], from: usize, count: usize, key: &mut [u8], bit: usize) -> usize
    requires { (length key.old * 8 ≤ far) × (bit ≤ far) × (from + count ≤ length text.now) }
    ensures { Put bit (bits_of_bytes (part text.now from count)) result key.old key.new }
{
    let bytes = &text[from..from + count];
    if count <= key.len() && bit <= (key.len() - count) * 8 {
        put_within(bytes, key, bit);
        return on_by(bit, count * 8);
    }
    put_bytes(bytes, key, bit)
}
