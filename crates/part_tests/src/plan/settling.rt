//! Controls that are made, what they tell of themselves, and the values that they take.

use bitflags::Flags as FlagSet;
use ctrl_settle::{Ctrl, CtrlFault, settle, settle_anew};
use ctrl_types::{CtrlId, CtrlValue, Flags, Kind};

const ID: CtrlId = CtrlId(0x0098_0900);

// Kind, minimum, maximum, step, default, skipped items and flags.
type Given = (Kind, i64, i64, u64, i64, u64, u32);

// No file of a device has such a step.
const ENDS: Given = (
    Kind::Integer64,
    i64::MIN,
    i64::MAX,
    u64::MAX,
    i64::MAX,
    0,
    0x4,
);

const BUTTON: Given = (Kind::Button, 0, 0, 0, 0, 0, 0x4);

// Not all of its flags have names.
const TEST_PATTERN: Given = (Kind::Menu, 1, 5, 1, 2, 0x8, 0x8001);

const MASK: Given = (Kind::Bitmask, 0, 7, 0, 1, 0, 0);

// What was given, whether it is private, and the bits of its flags in the end; a value that is asked for, and what it settles to; a value from within
// another range, and what the control has then.
const CASES: &[(Given, bool, u32, (i64, i64), (i64, i64))] = &[
    (ENDS, false, 0x4, (-1, i64::MIN), (0, i64::MAX)),
    (BUTTON, false, 0x244, (1, 0), (1, 0)),
    (TEST_PATTERN, true, 0x8001, (5, 5), (3, 2)),
    (MASK, true, 0, (10, 2), (10, 2)),
];

fn made(given: Given, is_private: bool) -> Result<Ctrl, CtrlFault> {
    let (kind, minimum, maximum, step, default_value, skip, bits) = given;
    let flags = Flags::from_bits_retain(bits);
    Ctrl::new(
        ID,
        kind,
        minimum,
        maximum,
        step,
        default_value,
        skip,
        flags,
        is_private,
    )
}

fn reads(control: &Ctrl, given: Given, is_private: bool, bits: u32) -> bool {
    let (kind, minimum, maximum, step, default_value, skip, _) = given;
    control.id() == ID
        && control.kind() == kind
        && control.minimum() == minimum
        && control.maximum() == maximum
        && control.step() == step
        && control.default_value() == default_value
        && control.skip() == skip
        && control.flags().bits() == bits
        && control.is_private() == is_private
}

// The range that it has can be given to it again.
fn settles(control: &Ctrl, asked: (i64, i64), anew: (i64, i64)) -> bool {
    settle(control, &CtrlValue::Number(asked.0)) == Ok(CtrlValue::Number(asked.1))
        && settle_anew(control, &CtrlValue::Number(anew.0)) == CtrlValue::Number(anew.1)
        && control.with_range(
            control.minimum(),
            control.maximum(),
            control.step(),
            control.default_value(),
        ) == Ok(*control)
}

#[test]
fn controls_read_and_settle(rt: HostRuntime) {
    for &(given, is_private, bits, asked, anew) in CASES {
        let is_made = match made(given, is_private) {
            Ok(control) => {
                reads(&control, given, is_private, bits) && settles(&control, asked, anew)
            }
            Err(_) => false,
        };
        assert!(rt; is_made, "{given:?}");
    }
}
