// Writing a line where it is to stand: a byte or a number as digits, and the closing 0A. Each function answers the next place.
// (Buffer and place stand apart, as frame_put says. By hand and not by `write!`: each clause says which bytes stand in the buffer, `overwritten`.)
ghost use Rattle.std.specs.Prelude.{◌≡◌, [], ◌∷◌, ◌+◌, ◌*◌, ◌<◌, ◌≤◌, length};
ghost use Rattle.model.specs.Line.{digit_of, digits_of, two, four};
ghost use Rattle.lines.specs.Write.{overwritten};

// The two digits of a byte.
pub fn put_byte(buffer: &mut [u8], at: usize, byte: u8) -> usize
    requires { at + 2 ≤ length buffer.old }
    ensures { (result ≡ at + 2) × (buffer.new ≡ overwritten buffer.old at (digits_of (byte ∷ []))) }
{
    buffer[at] = digit_of(byte / 16);
    buffer[at + 1] = digit_of(byte % 16);
    at + 2
}

// The byte 0A, which closes a line.
pub fn put_end(buffer: &mut [u8], at: usize) -> usize
    requires { at + 1 ≤ length buffer.old }
    ensures { (result ≡ at + 1) × (buffer.new ≡ overwritten buffer.old at (10 ∷ [])) }
{
    buffer[at] = 10;
    at + 1
}

// A number of two bytes, high byte first.
pub fn put_two(buffer: &mut [u8], at: usize, number: u16) -> usize
    requires { at + 4 ≤ length buffer.old }
    ensures { (result ≡ at + 4) × (buffer.new ≡ overwritten buffer.old at (digits_of (two number))) }
{
    put_bytes(buffer, at, &number.to_be_bytes())
}

// A number of four bytes, high byte first.
pub fn put_four(buffer: &mut [u8], at: usize, number: u32) -> usize
    requires { at + 8 ≤ length buffer.old }
    ensures { (result ≡ at + 8) × (buffer.new ≡ overwritten buffer.old at (digits_of (four number))) }
{
    put_bytes(buffer, at, &number.to_be_bytes())
}

// The digits of bytes, one behind the other.
fn put_bytes(buffer: &mut [u8], at: usize, bytes: &[u8]) -> usize
    requires { at + 2 * length bytes.now ≤ length buffer.old }
    ensures { (result ≡ at + 2 * length bytes.now) × (buffer.new ≡ overwritten buffer.old at (digits_of bytes.now)) }
{
    let mut next = at;
    for byte in bytes {
        next = put_byte(buffer, next, *byte);
    }
    next
}

// The digit of a value: 48 is the character 0, and 55 is 10 less than A.
fn digit_of(v: u8) -> u8
    requires { v < 16 }
    ensures { result ≡ digit_of v }
{
    if v < 10 { v + 48 } else { v + 55 }
}
