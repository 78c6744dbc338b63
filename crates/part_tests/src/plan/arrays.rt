//! Arrays: what describes one, rows of bytes, and what an array takes.

use bitflags::Flags as FlagSet;
use ctrl_settle::{Ctrl, CtrlConfig, CtrlFault, settle, settle_anew};
use ctrl_types::{ByteRow, CtrlId, CtrlValue, Errno, Flags, Kind};

const ID: CtrlId = CtrlId(0x0098_1000);

// Elements, minimum, maximum, step, default and flags.
type Given = (u32, i64, i64, u64, i64, u32);

fn made(given: Given) -> Result<Ctrl, CtrlFault> {
    let (elems, minimum, maximum, step, default_value, bits) = given;
    let flags = Flags::from_bits_retain(bits);
    Ctrl::new_array(
        ID,
        elems,
        minimum,
        maximum,
        step,
        default_value,
        flags,
        false,
    )
}

const WEIGHTS: Given = (4, 0, 250, 10, 0, 0);

// 1 and 32 elements, all bytes, and bounds at which a step isn't reached.
const DESCRIBED: &[Given] = &[
    WEIGHTS,
    (1, 0, 255, 1, 255, 0),
    (32, 0, 255, 1, 0, 0x4),
    (4, 3, 3, 1, 3, 0),
    (4, 5, 250, 10, 245, 0),
];

// The first fault counts.
const FAULTY: &[(Given, CtrlFault)] = &[
    ((4, 1, 0, 10, 0, 0), CtrlFault::BadRange),
    ((33, 256, -1, 0, 9, 0x2), CtrlFault::BadRange),
    ((4, 0, 250, 0, 0, 0), CtrlFault::ZeroStep),
    ((0, -1, 256, 0, 9, 0x2), CtrlFault::ZeroStep),
    ((0, 0, 250, 10, 0, 0), CtrlFault::KindBounds),
    ((33, 0, 250, 10, 0, 0), CtrlFault::KindBounds),
    ((4, -1, 250, 10, -1, 0), CtrlFault::KindBounds),
    ((4, 0, 256, 10, 0, 0), CtrlFault::KindBounds),
    ((4, 0, 250, 10, 0, 0x2), CtrlFault::KindBounds),
    ((4, 0, 250, 10, 0, 0x10), CtrlFault::KindBounds),
    ((33, 0, 250, 10, 5, 0), CtrlFault::KindBounds),
    ((4, 0, 250, 10, 5, 0), CtrlFault::BadDefault),
    ((4, 0, 250, 10, 255, 0), CtrlFault::BadDefault),
    ((4, 0, 250, 10, -10, 0), CtrlFault::BadDefault),
];

fn is_described(given: Given) -> bool {
    let (elems, minimum, maximum, step, default_value, bits) = given;
    let Ok(control) = made(given) else {
        return false;
    };
    control.kind() == Kind::U8
        && control.is_array()
        && control.elems() == elems
        && control.minimum() == minimum
        && control.maximum() == maximum
        && control.step() == step
        && control.default_value() == default_value
        && control.flags().bits() == bits
        && has_default(&control)
}

// The default stands in each element.
fn has_default(control: &Ctrl) -> bool {
    match control.default_as_value() {
        CtrlValue::Bytes(row) => {
            row.len() == control.elems() as usize
                && row
                    .bytes()
                    .iter()
                    .all(|byte| i64::from(*byte) == control.default_value())
        }
        CtrlValue::Number(_) => false,
    }
}

#[test]
fn descriptions(rt: HostRuntime) {
    for &given in DESCRIBED {
        assert!(rt; is_described(given), "{given:?}");
    }
    for &(given, fault) in FAULTY {
        assert!(rt; made(given) == Err(fault), "{given:?}");
    }
    let array = config(Kind::U8, 250, 10, Some(4)).build();
    let bare = config(Kind::U8, 250, 10, None).build();
    assert!(rt; array == made(WEIGHTS) && bare == Err(CtrlFault::KindBounds));
}

fn config(kind: Kind, maximum: i64, step: u64, elems: Option<u32>) -> CtrlConfig {
    CtrlConfig {
        id: ID,
        kind,
        minimum: 0,
        maximum,
        step,
        default_value: 0,
        skip: 0,
        flags: Flags::empty(),
        is_private: false,
        elems,
    }
}

fn row(bytes: &[u8]) -> Option<CtrlValue> {
    match ByteRow::from_slice(bytes) {
        Some(row) => Some(CtrlValue::Bytes(row)),
        None => None,
    }
}

// What bytes become, by their number: each to the nearest, of two the larger, and none above the last that is reached.
const TAKEN: &[(Given, &[u8], Option<&[u8]>)] = &[
    (
        WEIGHTS,
        &[0x05, 0x0e, 0x04, 0xff],
        Some(&[0x0a, 0x0a, 0x00, 0xfa]),
    ),
    (WEIGHTS, &[0, 10, 245, 250], Some(&[0, 10, 250, 250])),
    (WEIGHTS, &[], None),
    (WEIGHTS, &[5, 5, 5], None),
    (WEIGHTS, &[5, 5, 5, 5, 5], None),
    ((1, 0, 255, 1, 0, 0), &[7], Some(&[7])),
    ((1, 0, 255, 1, 0, 0), &[7, 7], None),
    ((2, 5, 250, 10, 5, 0), &[0, 255], Some(&[5, 245])),
    ((32, 0, 9, 9, 0, 0), &[4; 32], Some(&[0; 32])),
    ((32, 0, 9, 9, 0, 0), &[5; 32], Some(&[9; 32])),
    ((32, 0, 9, 9, 0, 0), &[5; 31], None),
];

fn takes(given: Given, asked: &[u8], want: Option<&[u8]>) -> bool {
    let (Ok(control), Some(asked)) = (made(given), row(asked)) else {
        return false;
    };
    match (settle(&control, &asked), want) {
        (Ok(taken), Some(want)) => Some(taken) == row(want),
        (Err(errno), None) => errno == Errno::EINVAL,
        _ => false,
    }
}

#[test]
fn elements_settle(rt: HostRuntime) {
    for &(given, asked, want) in TAKEN {
        assert!(rt; takes(given, asked, want), "{given:?} {asked:?}");
    }
}

// Kind, maximum and step of controls that take no bytes.
const NUMBERS: &[(Kind, i64, u64)] = &[
    (Kind::Integer, 9, 1),
    (Kind::Integer64, 9, 1),
    (Kind::Boolean, 1, 1),
    (Kind::Menu, 3, 1),
    (Kind::IntegerMenu, 3, 1),
    (Kind::Bitmask, 3, 0),
    (Kind::Button, 0, 0),
];

fn takes_numbers_alone(kind: Kind, maximum: i64, step: u64) -> bool {
    match config(kind, maximum, step, None).build() {
        Ok(control) => {
            refuses_bytes(&control)
                && settle(&control, &CtrlValue::Number(0)) == Ok(CtrlValue::Number(0))
                && !control.is_array()
                && control.elems() == 1
        }
        Err(_) => false,
    }
}

// Bytes, which within another range become the default, a number.
fn refuses_bytes(control: &Ctrl) -> bool {
    let byte = ByteRow::repeated(1, 0);
    settle(control, &CtrlValue::Bytes(byte)) == Err(Errno::EINVAL)
        && settle_anew(control, &CtrlValue::Bytes(byte)) == CtrlValue::Number(0)
}

#[test]
fn forms_of_values(rt: HostRuntime) {
    for &(kind, maximum, step) in NUMBERS {
        assert!(rt; takes_numbers_alone(kind, maximum, step), "{kind:?}");
    }
    assert!(rt; takes_bytes_alone());
}

// A number is none of an array's values, and within another range becomes its default.
fn takes_bytes_alone() -> bool {
    match made(WEIGHTS) {
        Ok(array) => {
            settle(&array, &CtrlValue::Number(5)) == Err(Errno::EINVAL)
                && Some(settle_anew(&array, &CtrlValue::Number(5))) == row(&[0; 4])
        }
        Err(_) => false,
    }
}

// Maximum and step of another range: what x0a0a00fa becomes, or the fault.
const RANGED: &[(i64, u64, Result<&[u8], CtrlFault>)] = &[
    (100, 10, Ok(&[0x0a, 0x0a, 0x00, 0x64])),
    (255, 1, Ok(&[0x0a, 0x0a, 0x00, 0xfa])),
    (15, 15, Ok(&[0x0f, 0x0f, 0x00, 0x0f])),
    (256, 10, Err(CtrlFault::KindBounds)),
    (100, 0, Err(CtrlFault::ZeroStep)),
];

// Another range leaves the number of elements, and each element that it takes.
fn becomes(maximum: i64, step: u64, want: Result<&[u8], CtrlFault>) -> bool {
    let (Ok(array), Some(value)) = (made(WEIGHTS), row(&[0x0a, 0x0a, 0x00, 0xfa])) else {
        return false;
    };
    match (array.with_range(0, maximum, step, 0), want) {
        (Ok(other), Ok(bytes)) => {
            other.elems() == 4
                && other.kind() == Kind::U8
                && Some(settle_anew(&other, &value)) == row(bytes)
        }
        (Err(fault), Err(wanted)) => fault == wanted,
        _ => false,
    }
}

#[test]
fn another_range(rt: HostRuntime) {
    for &(maximum, step, want) in RANGED {
        assert!(rt; becomes(maximum, step, want), "{maximum} {step}");
    }
}

// Bytes are read where they stand, and written there alone.
fn writes_one() -> bool {
    match ByteRow::from_slice(&[1, 2, 3]) {
        Some(first) if first.len() == 3 => {
            let mut set = first;
            set.set(2, 8);
            is_row(&first, &[1, 2, 3])
                && first.byte(0) == 1
                && is_row(&first.with(1, 9), &[1, 9, 3])
                && is_row(&set, &[1, 2, 8])
                && is_row(&ByteRow::repeated(3, 7), &[7, 7, 7])
        }
        _ => false,
    }
}

fn is_row(row: &ByteRow, want: &[u8]) -> bool {
    row.bytes() == want && row.len() == want.len()
}

#[test]
fn rows_of_bytes(rt: HostRuntime) {
    let none = ByteRow::from_slice(&[]);
    let all = ByteRow::from_slice(&[1; 32]);
    assert!(rt; writes_one());
    assert!(rt; none == Some(ByteRow::repeated(0, 5)) && all == Some(ByteRow::repeated(32, 1)));
    assert!(rt; ByteRow::from_slice(&[1; 33]).is_none());
}
