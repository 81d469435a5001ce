// The last bits of a key.
ghost use Rattle.std.specs.Prelude.{◌*◌, ◌≤◌, length};
ghost use Rattle.keys.specs.Limits.{longest_key};
ghost use Rattle.keys.specs.Bits.{bits_of_bytes};
ghost use Rattle.key_parts.specs.Padding.{Ends};

use fields::take;

// The first bit after a tree that may not stand there: a set one before the next byte, or that byte's first; the end if there is none.
pub fn pad_end(key: &[u8], bit: usize) -> usize
    requires { (length key.now ≤ longest_key) × (bit ≤ length key.now * 8) }
    ensures { Ends (bits_of_bytes key.now) bit result }
{
    let end = bit.div_ceil(8) * 8;
    for at in bit..end {
        if take::number_at(key, at, 1) == 1 {
            return at;
        }
    }
    end
}
