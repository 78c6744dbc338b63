ghost use Rattle.std.specs.Prelude.{◌≡◌, ◌<◌, ◌==◌, length};
ghost use Rattle.std.specs.List.{list_any};
ghost use Rattle.control_ids.specs.Ids.{digit_of, id_among, is_named, is_space, kernel_id, kernel_rows, number_of as number_by, row_id as id_of_row};

use crate::table::ROWS;

/// The id that the kernel has for a name (linux/v4l2-controls.h of Linux 6.1); none where it has no such name.
///
/// - `name`: as it stands there, as `V4L2_CID_EXPOSURE`.
pub fn id_named(name: &str) -> Option<u32>
    ensures { result ≡ kernel_id name.now }
{
    if has_space(name.as_bytes()) {
        return None;
    }
    id_in(rows().as_bytes(), name.as_bytes())
}

/// The rows of the names, each behind the end of a line: the name, a space, and its id in eight hexadecimal digits; in the order of the header.
#[tactic(auto, unfolding(crate::specs::Ids::kernel_rows))]
pub fn rows() -> &'static str
    ensures { result.now ≡ kernel_rows }
{
    ROWS
}

fn has_space(name: &[u8]) -> bool
    ensures { result ≡ list_any is_space name.now }
{
    name.iter().any(|byte| *byte == b' ')
}

// The id of the first row with a name.
fn id_in(text: &[u8], name: &[u8]) -> Option<u32>
    ensures { result ≡ id_among name.now text.now }
{
    for place in 0..text.len() {
        if let Some(id) = row_id(text[place], &text[place + 1..], name) {
            return Some(id);
        }
    }
    None
}

// The id of a row, where these bytes begin that of a name: the end of a line, and what is behind it.
fn row_id(first: u8, rest: &[u8], name: &[u8]) -> Option<u32>
    ensures { result ≡ id_of_row name.now first rest.now }
{
    if first != b'\n' {
        return None;
    }
    if rest.len() < name.len() + 9 {
        return None;
    }
    if is_named(rest, name) {
        let digits = &rest[name.len() + 1..];
        return Some(number_of(&digits[..8]));
    }
    None
}

// Whether a row begins with a name, with a space behind it.
fn is_named(row: &[u8], name: &[u8]) -> bool
    requires { length name.now < length row.now }
    ensures { result ≡ is_named name.now row.now }
{
    &row[..name.len()] == name && row[name.len()] == b' '
}

// The number that hexadecimal digits write, in 32 bits.
fn number_of(digits: &[u8]) -> u32
    ensures { result ≡ number_by 0 digits.now }
{
    let mut number = 0u32;
    for place in 0..digits.len() {
        let digit = u32::from(digit(digits[place]));
        number = number.wrapping_mul(16).wrapping_add(digit);
    }
    number
}

fn digit(byte: u8) -> u8
    ensures { result ≡ digit_of byte }
{
    if byte < b'a' {
        byte.saturating_sub(b'0')
    } else {
        byte.saturating_sub(87)
    }
}
