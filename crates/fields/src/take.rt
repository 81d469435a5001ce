// Taking from a key: a field from any bit, by the four bytes that it stands in, and the bytes of a spelling.
ghost use Rattle.std.specs.Prelude.{◌≡◌, ◌+◌, ◌-◌, ◌*◌, ◌/◌, ◌%◌, ◌^◌, ◌<◌, ◌≤◌, length, drop, get_or, Some};
ghost use Rattle.keys.specs.Limits.{longest_key, widest};
ghost use Rattle.keys.specs.Bits.{bits_of_bytes, take_field};
ghost use Rattle.fields.specs.Put.{far};
ghost use Rattle.fields.specs.Take.{answered, Four, Copied};

// The four bytes from a place on, as one number.
pub fn four_at(key: &[u8], at: usize) -> u64
    requires { (at + 4 ≤ length key.now) × (length key.now ≤ far) }
    ensures { Four key.now at result }
{
    u64::from(u32::from_be_bytes([key[at], key[at + 1], key[at + 2], key[at + 3]]))
}

// A byte of the key, 0 past the end.
fn byte_or_zero(key: &[u8], at: usize) -> u8
    ensures { result ≡ get_or key.now at 0 }
{
    key.get(at).copied().unwrap_or(0)
}

// The same where the key ends before the fourth.
fn last_at(key: &[u8], at: usize) -> u64
    requires { (length key.now < at + 4) × (at ≤ length key.now) × (length key.now ≤ longest_key) }
    ensures { Four key.now at result }
{
    u64::from(u32::from_be_bytes([
        byte_or_zero(key, at),
        byte_or_zero(key, at + 1),
        byte_or_zero(key, at + 2),
        0,
    ]))
}

// The same wherever the key ends.
fn window_at(key: &[u8], at: usize) -> u64
    requires { (at ≤ length key.now) × (length key.now ≤ longest_key) }
    ensures { Four key.now at result }
{
    if at + 4 <= key.len() {
        four_at(key, at)
    } else {
        last_at(key, at)
    }
}

// The lowest k bits of a number.
pub(crate) fn lowest(x: u64, k: usize) -> u64
    requires { k ≤ 32 }
    ensures { result ≡ x % 2 ^ k }
{
    x & ((1 << k) - 1)
}

// A field of any width to 24 bits, from any bit of the key.
pub fn take_field(key: &[u8], bit: usize, width: usize) -> Option<u32>
    requires { (length key.now ≤ longest_key) × (bit ≤ length key.now * 8) × (width ≤ widest) }
    ensures { result ≡ answered (take_field width (drop bit (bits_of_bytes key.now))) }
{
    if key.len() * 8 - bit < width {
        return None;
    }
    let window = window_at(key, bit / 8);
    Some(lowest(window >> (32 - bit % 8 - width), width) as u32)
}

// A field that is there.
pub fn number_at(key: &[u8], bit: usize, width: usize) -> u32
    requires { (length key.now ≤ longest_key) × (bit + width ≤ length key.now * 8) × (width ≤ widest) }
    ensures { Some result ≡ answered (take_field width (drop bit (bits_of_bytes key.now))) }
{
    take_field(key, bit, width).unwrap()
}

// The eight bits of two bytes that stand before their last `behind`.
pub(crate) fn between(first: u8, second: u8, behind: usize) -> u8
    requires { behind ≤ 8 }
    ensures { result ≡ (first * 256 + second) / 2 ^ behind % 256 }
{
    (((u32::from(first) * 256 + u32::from(second)) >> behind) % 256) as u8
}

// Bytes one by one: for a copy of a whole slice C would have to bring `memmove` too.
pub(crate) fn copy(from: &[u8], to: &mut [u8])
    requires { length from.now ≡ length to.old }
    ensures { to.new ≡ from.now }
{
    for (i, byte) in to.iter_mut().enumerate() {
        *byte = from[i];
    }
}

// The bytes of a spelling that begins with a byte.
fn copy_whole(key: &[u8], from: usize, to: &mut [u8])
    requires { (length key.now ≤ longest_key) × (from + length to.old ≤ length key.now) }
    ensures { Copied (bits_of_bytes key.now) (from * 8) to.old 0 (length to.old) to.new }
{
    copy(&key[from..from + to.len()], to);
}

// The bytes of a spelling that begins inside a byte, behind `skip` bits.
fn copy_across(key: &[u8], from: usize, skip: usize, to: &mut [u8])
    requires { (length key.now ≤ longest_key) × (from + length to.old < length key.now) × (skip ≤ 8) }
    ensures { Copied (bits_of_bytes key.now) (from * 8 + skip) to.old 0 (length to.old) to.new }
{
    for (i, byte) in to.iter_mut().enumerate() {
        *byte = between(key[from + i], key[from + i + 1], 8 - skip);
    }
}

// The bytes of a spelling, copied to the text.
pub fn copy_bytes(key: &[u8], bit: usize, text: &mut [u8], to: usize, count: usize)
    requires { (length key.now ≤ longest_key) × (bit + count * 8 ≤ length key.now * 8) × (to + count ≤ length text.old) }
    ensures { Copied (bits_of_bytes key.now) bit text.old to count text.new }
{
    let bytes = &mut text[to..to + count];
    if bit % 8 == 0 {
        copy_whole(key, bit / 8, bytes);
    } else {
        copy_across(key, bit / 8, bit % 8, bytes);
    }
}
