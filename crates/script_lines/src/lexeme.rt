ghost use Rattle.std.specs.Prelude.{◌≡◌, ◌^◌, ◌≤◌, position};
ghost use Rattle.std.specs.Str.{bytes_eq};
ghost use Rattle.script_lines.specs.Lexemes.{numeral as numeral_of, decimal_u32 as decimal_u32_of, decimal_u64 as decimal_u64_of, decimal_i64 as decimal_i64_of, hexadecimal_u32 as hexadecimal_u32_of, control_id as control_id_of, elements as elements_of, pairs_of_digits as pairs_of_digits_of, value_of};

use crate::control_words::ControlWords;
use ctrl_types::{ByteRow, CtrlId, CtrlValue, MAX_ELEMENTS};

/// The number that a word of at least one and at most `most` digits writes.
pub fn numeral(word: &[u8], radix: u32, most: usize) -> Option<u64>
    requires low { 2 ≤ radix }
    requires high { radix ≤ 36 }
    requires fits { radix ^ most ≤ 2 ^ 64 }
    ensures { result ≡ numeral_of radix most word.now }
{
    if word.is_empty() || word.len() > most {
        return None;
    }
    let mut number = 0u64;
    for byte in word {
        let digit = char::from(*byte).to_digit(radix)?;
        number = number * u64::from(radix) + u64::from(digit);
    }
    Some(number)
}

/// A decimal number of 32 bits, of at most 10 digits.
pub fn decimal_u32(word: &[u8]) -> Option<u32>
    ensures { result ≡ decimal_u32_of word.now }
{
    u32::try_from(numeral(word, 10, 10)?).ok()
}

/// A decimal number of 64 bits without a sign, of at most 20 digits.
pub fn decimal_u64(word: &[u8]) -> Option<u64>
    ensures { result ≡ decimal_u64_of word.now }
{
    match word {
        // 19 digits fit in any case
        [front @ .., last] if front.len() == 19 => {
            let digit = char::from(*last).to_digit(10)?;
            numeral(front, 10, 19)?
                .checked_mul(10)?
                .checked_add(u64::from(digit))
        }
        _ => numeral(word, 10, 19),
    }
}

/// A decimal number of 64 bits with a sign, of at most 19 digits; a `-` may stand before them.
pub fn decimal_i64(word: &[u8]) -> Option<i64>
    ensures { result ≡ decimal_i64_of word.now }
{
    match word.strip_prefix(b"-") {
        Some(digits) => 0i64.checked_sub_unsigned(numeral(digits, 10, 19)?),
        None => i64::try_from(numeral(word, 10, 19)?).ok(),
    }
}

/// The number of an id: `0x`, and at most 8 hexadecimal digits of either case.
pub fn hexadecimal_u32(word: &[u8]) -> Option<u32>
    ensures { result ≡ hexadecimal_u32_of word.now }
{
    let digits = word.strip_prefix(b"0x")?;
    u32::try_from(numeral(digits, 16, 8)?).ok()
}

/// A value: the elements of an array, which are `x` and two hexadecimal digits of either case for each of 1 to 32, or a decimal number of 64 bits.
pub fn value(word: &[u8]) -> Option<CtrlValue>
    ensures { result ≡ value_of word.now }
{
    match elements(word) {
        Some(row) => Some(CtrlValue::Bytes(row)),
        None => decimal_i64(word).map(CtrlValue::Number),
    }
}

// The elements of an array.
fn elements(word: &[u8]) -> Option<ByteRow>
    ensures { result ≡ elements_of word.now }
{
    pairs_of_digits(word.strip_prefix(b"x")?)
}

// The bytes that some digits write, two each.
fn pairs_of_digits(digits: &[u8]) -> Option<ByteRow>
    ensures { result ≡ pairs_of_digits_of digits.now }
{
    if digits.is_empty() || digits.len() > 2 * MAX_ELEMENTS {
        return None;
    }
    let mut cells = [0; MAX_ELEMENTS];
    let row = &mut cells[..digits.len() / 2];
    match hex::decode_to_slice(digits, row) {
        Ok(()) => ByteRow::from_slice(row),
        Err(_) => None,
    }
}

/// The id that a word names a control by: that of a known word, or the id itself.
pub fn control_id(known: &ControlWords, word: &[u8]) -> Option<CtrlId>
    ensures { result ≡ control_id_of known.now word.now }
{
    match known.id_of(word) {
        Some(id) => Some(id),
        None => hexadecimal_u32(word).map(CtrlId),
    }
}
