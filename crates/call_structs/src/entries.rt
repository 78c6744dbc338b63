ghost use Rattle.std.specs.Prelude.{◌≡◌, ◌≤◌, ◌<◌, ◌+◌, ℕ, length};
ghost use Rattle.ctrl_types.specs.declared.bytes.TheConstants.{MAX_ELEMENTS};
ghost use Rattle.call_structs.specs.Entries.{array_at, entry_start, id_at, list_size, slot_start, value_at, with_number, with_size, with_told};
ghost use Rattle.call_structs.specs.declared.entries.Form.TheVariants.{Array};

use ctrl_types::{ByteRow, CtrlId, CtrlValue};
use ioctl_bytes::layout::{v4l2_ext_control, v4l2_ext_controls};
use ioctl_bytes::{i32_at, i64_at, put, put_i64, put_low, put_u32, u32_at};

/// How many bytes the slot of a payload has.
pub const SLOT: usize = 32;

/// What the entry of a control has its value in.
#[derive(Clone, Copy, Debug, PartialEq, Eq)]
pub enum Form {
    /// Its field of 32 bits.
    Narrow,
    /// Its field of 64 bits.
    Wide,
    /// A payload of so many bytes.
    Array(u32),
}

/// What is wrong with the payload of an entry.
#[derive(Clone, Copy, Debug, PartialEq, Eq)]
pub enum PayloadFault {
    /// There is no room for all elements.
    TooSmall,
    /// It can't be read.
    Unreadable,
}

fn entry_start(place: usize) -> usize
    requires { place ≤ 65 }
    ensures { result ≡ entry_start place }
{
    v4l2_ext_controls::SIZE + v4l2_ext_control::SIZE * place
}

fn slot_start(count: usize, place: usize) -> usize
    requires count { count ≤ 65 }
    requires place { place ≤ 65 }
    ensures { result ≡ slot_start count place }
{
    v4l2_ext_controls::SIZE + v4l2_ext_control::SIZE * count + SLOT * place
}

/// The control of an entry.
///
/// - `bytes`: the list's head, and the entries behind it as far as this one at least.
/// - `place`: the entry, from 0, at most 64.
pub fn entry_id(bytes: &[u8], place: usize) -> CtrlId
    requires place { place < 65 }
    requires whole { entry_start (place + 1) ≤ length bytes.now }
    ensures { result ≡ id_at place bytes.now }
{
    CtrlId(u32_at(bytes, entry_start(place) + v4l2_ext_control::ID))
}

/// The value that an entry has; the error is what is wrong with its payload.
///
/// - `bytes`: the list's head, `count` entries and `count` slots.
/// - `count`: how many entries stand there, at most 65.
/// - `place`: the entry, from 0.
/// - `form`: that of the entry's control, an array's of 32 bytes at most.
pub fn value_at(
    bytes: &[u8],
    count: usize,
    place: usize,
    form: Form,
) -> Result<CtrlValue, PayloadFault>
    requires count { count ≤ 65 }
    requires place { place < count }
    requires whole { list_size count ≤ length bytes.now }
    requires few { (elems : ℕ) → form ≡ Array elems → elems ≤ MAX_ELEMENTS }
    ensures { result ≡ value_at form count place bytes.now }
{
    let at = entry_start(place);
    match form {
        Form::Narrow => {
            let number = i32_at(bytes, at + v4l2_ext_control::VALUE);
            Ok(CtrlValue::Number(i64::from(number)))
        }
        Form::Wide => Ok(CtrlValue::Number(i64_at(bytes, at + v4l2_ext_control::VALUE64))),
        Form::Array(elems) => array_at(bytes, count, place, elems),
    }
}

fn array_at(bytes: &[u8], count: usize, place: usize, elems: u32) -> Result<CtrlValue, PayloadFault>
    requires count { count ≤ 65 }
    requires place { place < count }
    requires whole { list_size count ≤ length bytes.now }
    requires few { elems ≤ MAX_ELEMENTS }
    ensures { result ≡ array_at count elems place bytes.now }
{
    let at = entry_start(place);
    if u32_at(bytes, at + v4l2_ext_control::SIZE_OF_PAYLOAD) < elems {
        return Err(PayloadFault::TooSmall);
    }
    if u32_at(bytes, at + v4l2_ext_control::RESERVED2) == 0 {
        return Err(PayloadFault::Unreadable);
    }
    let start = slot_start(count, place);
    match ByteRow::from_slice(&bytes[start..start + elems as usize]) {
        Some(row) => Ok(CtrlValue::Bytes(row)),
        None => Err(PayloadFault::Unreadable),
    }
}

/// How many bytes a list of so many entries has, at most 65: its head, the entries and their slots.
pub fn list_size(count: usize) -> usize
    requires { count ≤ 65 }
    ensures { result ≡ list_size count }
{
    v4l2_ext_controls::SIZE + v4l2_ext_control::SIZE * count + SLOT * count
}

/// Writes how many bytes the payload of an entry has. The arguments are those of `entry_id`.
pub fn put_size(bytes: &mut [u8], place: usize, size: u32)
    requires place { place < 65 }
    requires whole { entry_start (place + 1) ≤ length bytes.old }
    ensures told { bytes.new ≡ with_size place size bytes.old }
    ensures length { length bytes.new ≡ length bytes.old }
{
    put_u32(
        bytes,
        entry_start(place) + v4l2_ext_control::SIZE_OF_PAYLOAD,
        size,
    );
}

/// Writes a value into an entry: a number into its field, in as many bits as `form` has, and an array into its slot, with its size. `reserved2` is then 1 where
/// the slot was written, and else 0. The arguments are those of `value_at`.
pub fn put_value(bytes: &mut [u8], count: usize, place: usize, form: Form, value: &CtrlValue)
    requires count { count ≤ 65 }
    requires place { place < count }
    requires whole { list_size count ≤ length bytes.old }
    ensures told { bytes.new ≡ with_told form count place value.now bytes.old }
    ensures length { length bytes.new ≡ length bytes.old }
{
    match value {
        CtrlValue::Bytes(row) => {
            put_size(bytes, place, row.len() as u32);
            put_u32(bytes, entry_start(place) + v4l2_ext_control::RESERVED2, 1);
            put(bytes, slot_start(count, place), row.bytes());
        }
        CtrlValue::Number(number) => put_number(bytes, place, form, *number),
    }
}

fn put_number(bytes: &mut [u8], place: usize, form: Form, number: i64)
    requires place { place < 65 }
    requires whole { entry_start (place + 1) ≤ length bytes.old }
    ensures told { bytes.new ≡ with_number form place number bytes.old }
    ensures length { length bytes.new ≡ length bytes.old }
{
    let at = entry_start(place);
    match form {
        Form::Wide => put_i64(bytes, at + v4l2_ext_control::VALUE64, number),
        _ => put_low(bytes, at + v4l2_ext_control::VALUE, number),
    }
    put_u32(bytes, at + v4l2_ext_control::RESERVED2, 0);
}
