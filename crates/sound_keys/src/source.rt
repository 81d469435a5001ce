// What is read as a key: its bytes, and the table of words that they are read by.
ghost use Rattle.std.specs.Prelude.{◌≡◌, ◌+◌, ◌*◌, ◌^◌, ◌<◌, ◌≤◌, length, drop};
ghost use Rattle.std.proofs.Props.{props};
ghost use Rattle.keys.specs.Limits.{longest_key, widest};
ghost use Rattle.keys.specs.Bits.{bits_of_bytes, take_field};
ghost use Rattle.fields.specs.Take.{answered};
ghost use Rattle.node_table.specs.Forms.{Narrow};

use fields::take;

// Bytes that are not too many for a key, and their table.
#[derive(Clone, Copy)]
pub struct Source<'a> {
    pub forms: &'a [u16],
    pub key: &'a [u8],
    ghost short: { length key.now ≤ longest_key },
    ghost narrow: { Narrow forms.now } by { Prim.hlevel props },
}

impl Source<'_> {
    // A field that is there.
    pub fn number(&self, bit: usize, w: usize) -> usize
        requires { (bit + w ≤ length self.now.key.now * 8) × (w ≤ widest) }
        ensures { (Some result ≡ answered (take_field w (drop bit (bits_of_bytes self.now.key.now)))) × (result < 2 ^ 32) }
    {
        take::number_at(self.key, bit, w) as usize
    }
}
