// Lines that are gathered in a buffer, which is written out where it is full.
ghost use Rattle.std.specs.Prelude.{◌≡◌, ◌<◌, length};

// How many bytes are gathered.
const ROOM: usize = 65536;

// Bytes on their way to standard output. There is always room for one more.
#[derive(Drop)]
pub struct Out {
    buffer: [u8; ROOM],
    len: usize,
    ghost roomy: { len < 65536 },
}

impl Out {
    // Nothing is gathered yet.
    pub fn new() -> Out {
        Out {
            buffer: [0; ROOM],
            len: 0,
        }
    }

    // A byte.
    pub fn byte(&mut self, b: u8) {
        self.buffer[self.len] = b;
        if self.len < ROOM - 1 {
            self.len += 1;
        } else {
            io::write_all(1, &self.buffer);
            self.len = 0;
        }
    }

    // Bytes one after the other.
    pub fn bytes(&mut self, text: &[u8]) {
        for &b in text {
            self.byte(b);
        }
    }

    // A number in decimal.
    pub fn number(&mut self, n: u64) {
        let mut digits = [0u8; 20];
        let k = io::decimal(n, &mut digits);
        self.bytes(&digits[..k]);
    }

    // A space and a number.
    pub fn next(&mut self, n: u64) {
        self.byte(b' ');
        self.number(n);
    }

    // Three numbers, each after a space.
    pub fn three(&mut self, a: u64, b: u64, c: u64) {
        self.next(a);
        self.next(b);
        self.next(c);
    }

    // The last byte, if it did not go out yet.
    pub fn last(&self) -> Option<u8> {
        if 0 < self.len {
            Some(self.buffer[self.len - 1])
        } else {
            None
        }
    }

    // What is gathered goes out, to an open file; nothing is then left to go out.
    pub fn flush_to(&mut self, fd: i32)
        ensures { self.new.len ≡ 0 }
    {
        io::write_all(fd, &self.buffer[..self.len]);
        self.len = 0;
    }

    // The same, to standard output.
    pub fn flush(&mut self)
        ensures { self.new.len ≡ 0 }
    {
        self.flush_to(1);
    }

    // The last line, of a record that is cut.
    pub fn cut(&mut self)
        ensures { self.new.len ≡ 0 }
    {
        self.bytes(b"cut\n");
        self.flush();
    }
}
