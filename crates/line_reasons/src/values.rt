//! What is wrong with a control and its value in one word, and with numbers.

use crate::names::Names;
use crate::reason::{Fault, Rule};
use ctrl_calls::Driver;
use ctrl_types::{CtrlId, Kind};

// How many items a menu has at most.
const MOST_ITEMS: u32 = 64;

/// Why a value isn't one that a control is given.
///
/// - `id`: the id that the control is named by, if it is.
/// - `control`: what names it.
pub fn in_value<'a, D: Driver>(
    names: &Names<'a, D>,
    control: &[u8],
    id: Option<CtrlId>,
    value: &[u8],
) -> Fault<'a> {
    if value.is_empty() {
        return Fault::Against(Rule::Entry);
    }
    let Some(control) = names.control(control, id) else {
        return Fault::Against(Rule::AnyValue);
    };
    match names.ctrl(control) {
        Some(ctrl) if ctrl.is_array() => Fault::Bytes(ctrl.elems()),
        Some(ctrl) => in_number_for(names, control, ctrl.kind(), value),
        None => Fault::Against(Rule::AnyValue),
    }
}

// Why a value isn't a number that a control is given.
fn in_number_for<'a, D: Driver>(
    names: &Names<'a, D>,
    control: u32,
    kind: Kind,
    value: &[u8],
) -> Fault<'a> {
    if let Some((sign, number)) = in_hexadecimal(value) {
        if i64::try_from(number).is_ok() {
            return Fault::Hexadecimal(sign, number);
        }
    }
    match kind {
        Kind::Menu => match item_named(names, control, value) {
            Some((name, index)) => Fault::Item(name, index),
            None => Fault::Against(Rule::Index),
        },
        Kind::IntegerMenu => Fault::Against(Rule::Index),
        _ if is_quoted(value) => Fault::Against(Rule::Quotes),
        _ if value.contains(&b',') => Fault::Against(Rule::Comma),
        Kind::Boolean => Fault::Against(Rule::ZeroOrOne),
        _ => Fault::Against(Rule::Value),
    }
}

// The item of a menu that has this name, but for capitals, and its index.
fn item_named<'a, D: Driver>(
    names: &Names<'a, D>,
    control: u32,
    value: &[u8],
) -> Option<(&'a str, u32)> {
    for index in 0..MOST_ITEMS {
        if let Some(name) = names.item(control, index) {
            if name.as_bytes().eq_ignore_ascii_case(value) {
                return Some((name, index));
            }
        }
    }
    None
}

/// Whether a word begins with a quotation mark.
pub fn is_quoted(word: &[u8]) -> bool {
    matches!(word, [b'"' | b'\'', ..])
}

/// The item of a menu, and its index, whose name begins with these two words, but for capitals.
pub fn item_begun<'a, D: Driver>(
    names: &Names<'a, D>,
    control: u32,
    first: &[u8],
    second: &[u8],
) -> Option<(&'a str, u32)> {
    for index in 0..MOST_ITEMS {
        if let Some(name) = names.item(control, index) {
            if begins_with(name, first, second) {
                return Some((name, index));
            }
        }
    }
    None
}

fn begins_with(name: &str, first: &[u8], second: &[u8]) -> bool {
    let mut words = name.as_bytes().split(|byte| *byte == b' ');
    match (words.next(), words.next()) {
        (Some(one), Some(two)) => {
            one.eq_ignore_ascii_case(first) && two.eq_ignore_ascii_case(second)
        }
        _ => false,
    }
}

/// The sign and the size of a number that a word writes in hexadecimal; none where it doesn't, or the number has more than 64 bits.
pub fn in_hexadecimal(word: &[u8]) -> Option<(&'static str, u64)> {
    let (sign, word) = match word.strip_prefix(b"-") {
        Some(behind) => ("-", behind),
        None => ("", word),
    };
    let digits = match word.strip_prefix(b"0x") {
        Some(digits) => digits,
        None => word.strip_prefix(b"0X")?,
    };
    let number = u64::from_str_radix(str::from_utf8(digits).ok()?, 16).ok()?;
    Some((sign, number))
}

/// Why a word isn't a number of 32 bits.
pub fn in_number(word: &[u8], what: &'static str) -> Fault<'static> {
    match in_hexadecimal(word) {
        Some(("", number)) if u32::try_from(number).is_ok() => Fault::Hexadecimal("", number),
        _ if is_of_digits(word) => Fault::LargeNumber(what),
        _ => Fault::Number(what),
    }
}

/// Why a word isn't a step.
pub fn in_step(word: &[u8], what: &'static str) -> Fault<'static> {
    match in_hexadecimal(word) {
        Some(("", number)) => Fault::Hexadecimal("", number),
        _ if is_of_digits(word) => Fault::Against(Rule::LargeStep),
        _ => Fault::Number(what),
    }
}

/// Why a word isn't a bound or a default.
pub fn in_bound(word: &[u8], what: &'static str) -> Fault<'static> {
    match in_hexadecimal(word) {
        Some((sign, number)) if i64::try_from(number).is_ok() => Fault::Hexadecimal(sign, number),
        _ => Fault::Bound(what),
    }
}

fn is_of_digits(word: &[u8]) -> bool {
    word.iter().all(|byte| byte.is_ascii_digit())
}
