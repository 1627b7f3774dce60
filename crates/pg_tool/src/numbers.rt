//! Numbers as decimal digits, no more of them than the greatest of their range has.

/// The most digits that a number of 32 bits has.
const DIGITS_OF_32_BITS: usize = 10;

/// The most digits that a number of 16 bits has.
const DIGITS_OF_16_BITS: usize = 5;

/// The most digits that a number of 8 bits has.
const DIGITS_OF_8_BITS: usize = 3;

/// The number that a word of one to ten decimal digits spells, where it has 32 bits.
pub fn u32_of(word: &str) -> Option<u32> {
    if !is_digits(word, DIGITS_OF_32_BITS) {
        return None;
    }
    word.parse::<u32>().ok()
}

/// The number that a word of one to five decimal digits spells, where it has 16 bits.
pub fn u16_of(word: &str) -> Option<u16> {
    if !is_digits(word, DIGITS_OF_16_BITS) {
        return None;
    }
    word.parse::<u16>().ok()
}

/// The number that one to ten decimal digits spell, with a `-` before them or without, where it has 32
/// bits with its sign.
pub fn i32_of(word: &str) -> Option<i32> {
    if !is_digits(without_sign(word), DIGITS_OF_32_BITS) {
        return None;
    }
    word.parse::<i32>().ok()
}

/// The number that one to five decimal digits spell, with a `-` before them or without, where it has 16
/// bits with its sign.
pub fn i16_of(word: &str) -> Option<i16> {
    if !is_digits(without_sign(word), DIGITS_OF_16_BITS) {
        return None;
    }
    word.parse::<i16>().ok()
}

/// The number that one to three decimal digits spell, with a `-` before them or without, where it has 8
/// bits with its sign.
pub fn i8_of(word: &str) -> Option<i8> {
    if !is_digits(without_sign(word), DIGITS_OF_8_BITS) {
        return None;
    }
    word.parse::<i8>().ok()
}

// `parse` takes a sign `+` and zeros without end too.
fn is_digits(word: &str, most: usize) -> bool {
    word.len() <= most && word.bytes().all(|byte| byte.is_ascii_digit())
}

fn without_sign(word: &str) -> &str {
    word.strip_prefix('-').unwrap_or(word)
}
