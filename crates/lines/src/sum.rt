// Buffers of words and of bytes: filled with dirt, summed up, compared with a key.
ghost use Rattle.std.specs.Prelude.{◌≡◌, ◌<◌, length};

// The largest prime below 2^32: sums are numbers below it.
const PRIME: u64 = 4294967291;

// Numbers one after the other as one number.
#[derive(Clone, Copy)]
pub struct Sum {
    value: u64,
    ghost below_prime: { value < 4294967291 },
}

// What can be summed up.
pub trait Summed: Copy {
    // The sum with this one more.
    fn onto(self, sum: Sum) -> Sum;
}

// A byte is one number.
impl Summed for u8 {
    fn onto(self, sum: Sum) -> Sum {
        sum.more(u32::from(self))
    }
}

// A word is two: its lower half, then its upper.
impl Summed for u64 {
    fn onto(self, sum: Sum) -> Sum {
        let low = (self % 4294967296) as u32;
        let high = (self / 4294967296) as u32;
        sum.more(low).more(high)
    }
}

impl Sum {
    // No number yet.
    pub fn new() -> Sum {
        Sum::begun(1)
    }

    // The sum that a word tells: what comes next goes on from there.
    pub fn begun(value: u64) -> Sum
        requires { value < 4294967291 }
        ensures { result.value ≡ value }
    {
        Sum { value }
    }

    // With one number more: 1,000,003 times the sum, and the number.
    fn more(self, x: u32) -> Sum {
        Sum {
            value: (self.value * 1000003 + u64::from(x)) % PRIME,
        }
    }

    // With bytes or words more.
    pub fn with<T: Summed>(self, numbers: &[T]) -> Sum {
        let mut sum = self;
        for x in numbers {
            sum = x.onto(sum);
        }
        sum
    }

    // The sum as a word.
    pub fn word(self) -> u64
        ensures below { result < 4294967291 }
        ensures value { result ≡ self.value }
    {
        self.value
    }
}

// The bytes or words one after the other as one number.
pub fn of<T: Summed>(numbers: &[T]) -> u64
    ensures { result < 4294967291 }
{
    Sum::new().with(numbers).word()
}

// Whether what was written, of so many bytes, is the key.
pub fn is_key(again: &[u8], size: usize, key: &[u8]) -> bool {
    again.get(..size) == Some(key)
}

// All that a key taken back and written again is lent is dirty.
pub fn dirty(nodes: &mut [u64], names: &mut [u64], letters: &mut [u8], again: &mut [u8]) {
    nodes.fill(u64::MAX);
    names.fill(u64::MAX);
    letters.fill(u8::MAX);
    again.fill(u8::MAX);
}

// The last node of so many: the root.
pub fn root(count: usize) -> usize
    ensures { result < 4294967296 }
{
    count.saturating_sub(1) % 4294967296
}
