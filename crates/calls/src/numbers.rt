// The decimal numbers behind the letter of a line, each after a blank.
use crate::digits::digit;

// The N numbers of a line; none where there are more or fewer, or other bytes.
pub fn numbers_of<const N: usize>(line: &[u8]) -> Option<[u32; N]> {
    let (_, rest) = line.split_first()?;
    let mut words = rest.split(|byte| *byte == b' ');
    if !words.next()?.is_empty() {
        return None;
    }
    let mut numbers = [0; N];
    for number in numbers.iter_mut() {
        *number = number_of(words.next()?)?;
    }
    if words.next().is_some() {
        return None;
    }
    Some(numbers)
}

// The number of decimal digits, at least one; none past the largest of 32 bits. (Not by `parse`, which takes a sign.)
fn number_of(word: &[u8]) -> Option<u32> {
    if word.is_empty() {
        return None;
    }
    let mut number: u32 = 0;
    for byte in word {
        let digit = digit(*byte).filter(|digit| *digit < 10)?;
        number = number.checked_mul(10)?.checked_add(u32::from(digit))?;
    }
    Some(number)
}
