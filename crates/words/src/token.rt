// The five fields of a token word, and the word that five fields make.
ghost use Rattle.std.specs.Prelude.{◌≡◌, ◌%◌, ◌^◌};
ghost use Rattle.words.specs.Word as five;

pub fn kind(word: u64) -> usize
    ensures { result ≡ five.kind word }
{
    (word / 0x100_0000_0000_0000 % 0x100) as usize
}

// 1 where a line break stands before the token.
pub fn newline(word: u64) -> usize
    ensures { result ≡ five.newline word }
{
    (word / 0x80_0000_0000_0000 % 0x2) as usize
}

pub fn zeros(word: u64) -> usize
    ensures { result ≡ five.zeros word }
{
    (word / 0x2_0000_0000_0000 % 0x40) as usize
}

pub fn length(word: u64) -> usize
    ensures { result ≡ five.size word }
{
    (word / 0x1_0000_0000 % 0x2_0000) as usize
}

pub fn start(word: u64) -> usize
    ensures { result ≡ five.start word }
{
    (word % 0x1_0000_0000) as usize
}

// Where the token ends.
pub fn end(word: u64) -> usize
    ensures { result ≡ five.end word }
{
    start(word) + length(word)
}

// The word of five fields, of each as many bits as it has.
pub fn word(kind: u64, newline: u64, zeros: u64, length: u64, start: u64) -> u64
    ensures { result ≡ five.word (kind % 2 ^ 8) (newline % 2 ^ 1) (zeros % 2 ^ 6) (length % 2 ^ 17) (start % 2 ^ 32) }
{
    let line = kind % 0x100 * 0x2 + newline % 0x2;
    let before = line * 0x40 + zeros % 0x40;
    (before * 0x2_0000 + length % 0x2_0000) * 0x1_0000_0000 + start % 0x1_0000_0000
}
