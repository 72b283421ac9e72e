// Numbers as they are written: decimal digits and nothing else.
use crate::faults::Fault;
use crate::words::FromWord;

// The number with a digit more, while it is not too high.
fn with_digit(number: Option<u32>, digit: u32) -> Option<u32> {
    number?.checked_mul(10)?.checked_add(digit)
}

impl FromWord for u32 {
    // Reads all of a word, so that a wrong byte is told even after too many digits.
    fn from_word(word: &[u8]) -> Result<u32, Fault> {
        if word.is_empty() {
            return Err(Fault::NotANumber);
        }
        let mut number = Some(0);
        for byte in word {
            let digit = char::from(*byte).to_digit(10).ok_or(Fault::NotANumber)?;
            number = with_digit(number, digit);
        }
        number.ok_or(Fault::NumberAbove)
    }
}
