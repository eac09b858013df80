// Digits, and the bytes of a file that they give two by two.
use crate::text::Text;

// The file whose digits stand behind the letter of a line and a blank, or the empty file, read into the room that is lent: a text of 64 KB handed over by
// value would be copied. None where there are other bytes, a single digit or more than a file here can have.
pub fn read_file<'a>(line: &[u8], file: &'a mut Text<65536>) -> Option<&'a [u8]> {
    file.clear();
    if line.len() < 2 {
        return Some(file.as_bytes());
    }
    if line[1] != b' ' || line.len() > 131074 {
        return None;
    }
    for pair in line[2..].chunks(2) {
        let [high, low] = pair else {
            return None;
        };
        file.put(digit(*high)? << 4 | digit(*low)?);
    }
    Some(file.as_bytes())
}

// The value of a digit, 0 to 9 and A to F. (Not lines' own, which gives another character 0, as the definition `byte_at` has it.)
pub fn digit(byte: u8) -> Option<u8> {
    match byte {
        b'0'..=b'9' => Some(byte - b'0'),
        b'A'..=b'F' => Some(byte - b'A' + 10),
        _ => None,
    }
}
