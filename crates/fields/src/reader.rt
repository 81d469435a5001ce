// A reader that holds a key and remembers its bit. It takes each field by a function that takes the key and the bit.
ghost use Rattle.std.specs.Prelude.{◌≡◌, ◌+◌, ◌*◌, ◌^◌, ◌<◌, ◌≤◌, length, drop};
ghost use Rattle.keys.specs.Limits.{longest_key, widest};
ghost use Rattle.keys.specs.Bits.{bits_of_bytes, take_field};
ghost use Rattle.fields.specs.Take.{answered};
ghost use Rattle.fields.specs.Reader.{remembered};

use crate::take;

// A key, and the bit of it that is taken next.
#[derive(Clone, Copy)]
pub struct KeyReader<'a> {
    pub key: &'a [u8],
    pub bit: usize,
}

impl<'a> KeyReader<'a> {
    // A reader of a key from a bit on.
    pub fn new(key: &'a [u8], bit: usize) -> KeyReader<'a>
        ensures { (result.key ≡ key.entry) × (result.bit ≡ bit) }
    {
        KeyReader { key, bit }
    }

    // The field at the reader's bit.
    pub fn field(self, width: usize) -> Option<u32>
        requires { (length self.key.now ≤ longest_key) × (self.bit ≤ length self.key.now * 8) × (width ≤ widest) }
        ensures { result ≡ answered (take_field width (drop self.entry.bit (bits_of_bytes self.entry.key.now))) }
    {
        take::take_field(self.key, self.bit, width)
    }

    // The reader past a field.
    pub fn past(self, width: usize) -> KeyReader<'a>
        requires { self.bit + width < 2 ^ 64 }
        ensures { (result.key ≡ self.entry.key) × (result.bit ≡ self.entry.bit + width) }
    {
        KeyReader {
            bit: self.bit + width,
            ..self
        }
    }
}

// A field of any width to 24 bits, taken through a reader at any bit of the key, and the bit that the reader remembers after it.
pub fn field_at(key: &[u8], bit: usize, width: usize) -> Option<(u32, usize)>
    requires { (length key.now ≤ longest_key) × (bit ≤ length key.now * 8) × (width ≤ widest) }
    ensures { result ≡ remembered (answered (take_field width (drop bit (bits_of_bytes key.now)))) (bit + width) }
{
    let reader = KeyReader::new(key, bit);
    let number = reader.field(width)?;
    Some((number, reader.past(width).bit))
}
