// Reading a line where it stands: where it ends, if it is a line at all, and the byte of two of its digits.
// (File and place stand apart, here and in the rooms that read files: a struct of both would be made anew for each line, and the clauses would
// speak of the rest of the file, `drop at file.now`, all the same.)
// (By hand and not by `from_str_radix`, which takes a sign and small letters.)
ghost use Rattle.std.specs.Prelude.{◌≡◌, ◌+◌, ◌<◌, length};
ghost use Rattle.lines.specs.Read.{line_at, byte_at, value, is_digit, digits_end, closes};

// The place of the 0A of the line that starts at a place, judged in one pass over its digits; nothing for a line without 0A, without
// digits, with an odd count, or with another byte.
pub fn line_at(file: &[u8], at: usize) -> Option<usize>
    ensures { result ≡ line_at file.now at }
{
    let end = digits_end(file, at);
    let count = end - at;
    if count < 1 || count % 2 == 1 || !closes(file, end) {
        return None;
    }
    Some(end)
}

// The byte of the two digits at a place; another character counts as 0.
pub fn byte_at(file: &[u8], at: usize) -> u8
    requires { at + 1 < length file.now }
    ensures { result ≡ byte_at file.now at }
{
    let high = digit_value(file[at]);
    let low = digit_value(file[at + 1]);
    high * 16 + low
}

// The first place at or after `at` without a digit. (`at` may lie past the file's end: so `position` over the rest of the file is no plainer.)
fn digits_end(file: &[u8], at: usize) -> usize
    ensures { result ≡ digits_end file.now at }
{
    for i in at..file.len() {
        if !is_digit(file[i]) {
            return i;
        }
    }
    at.max(file.len())
}

// Whether a 0A stands at a place.
fn closes(file: &[u8], at: usize) -> bool
    ensures { result ≡ closes file.now at }
{
    at < file.len() && file[at] == 10
}

// Whether a character is a digit: 0 to 9, A to F.
fn is_digit(c: u8) -> bool
    ensures { result ≡ is_digit c }
{
    matches!(c, b'0'..=b'9' | b'A'..=b'F')
}

// The value of a digit; 0 for another character, and no None, as the definition `byte_at` has it.
fn digit_value(c: u8) -> u8
    ensures { result ≡ value c }
{
    match c {
        b'0'..=b'9' => c - b'0',
        b'A'..=b'F' => c - b'A' + 10,
        _ => 0,
    }
}
