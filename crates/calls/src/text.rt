// A text that is put together from its front, a line that is read or one that is written. What finds no room is left out.
// An array with its length beside it: no heap.
use std::fmt;

#[derive(Drop)]
pub struct Text<const N: usize> {
    bytes: [u8; N],
    length: usize,
}

// A line of output.
pub type Output = Text<16384>;

impl<const N: usize> Text<N> {
    pub fn new() -> Text<N> {
        Text {
            bytes: [0; N],
            length: 0,
        }
    }

    // The bytes so far. (`min`, since no clause says that the length is at most N: an invariant for this one place would be no plainer.)
    pub fn as_bytes(&self) -> &[u8] {
        &self.bytes[..self.length.min(N)]
    }

    // Whether there is no room for a byte more.
    pub fn is_full(&self) -> bool {
        self.length >= N
    }

    pub fn clear(&mut self) {
        self.length = 0;
    }

    // A byte more.
    pub fn put(&mut self, byte: u8) {
        if self.length < N {
            self.bytes[self.length] = byte;
            self.length += 1;
        }
    }

    // A text with `/` for each 0A.
    pub fn put_shown(&mut self, text: &[u8]) {
        for byte in text {
            self.put(if *byte == b'\n' { b'/' } else { *byte });
        }
    }
}

impl<const N: usize> fmt::Write for Text<N> {
    fn write_str(&mut self, text: &str) -> fmt::Result {
        for byte in text.as_bytes() {
            self.put(*byte);
        }
        Ok(())
    }
}
