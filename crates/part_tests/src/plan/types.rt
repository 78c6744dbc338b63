//! The numbers of errors, checks, kinds, flags and classes, and how values are shown.

use bitflags::Flags as FlagSet;
use ctrl_handlers::PlanFault;
use ctrl_settle::CtrlFault;
use ctrl_types::{ByteRow, Check, CtrlId, CtrlValue, Errno, Flags, Kind, Which};
use std::alloc::{AllocError, Global};

#[derive(Clone, Copy)]
enum Case {
    // The error has this number.
    Error(Errno, u32),
    // The check has this number and this part, and an ask that it refuses this errno.
    Check(Check, u32, Option<u32>, Errno),
    // The fault of a control, or of a builder's call, has this number.
    Control(CtrlFault, u32),
    Plan(PlanFault, u32),
    // The kind has this number.
    Kind(Kind, u32),
    // The number is read as this.
    Which(u32, Result<Which, Errno>),
    // The id lies in this class.
    Class(u32, u32),
    // The bits are kept, and have both flags or not, and any of the two or not.
    Flags(u32, Flags, Flags, bool, bool),
    // So many flags have names.
    Named(usize),
}

// The numbers of Linux, and of each other call one that is accepted; of checks those that no command of a script meets.
const CASES: &[Case] = &[
    Case::Error(Errno::ENOENT, 2),
    Case::Error(Errno::EBADF, 9),
    Case::Error(Errno::ENOMEM, 12),
    Case::Error(Errno::EACCES, 13),
    Case::Error(Errno::EBUSY, 16),
    Case::Error(Errno::EINVAL, 22),
    Case::Error(Errno::ENOSPC, 28),
    Case::Error(Errno::ERANGE, 34),
    Case::Kind(Kind::Integer, 1),
    Case::Kind(Kind::Boolean, 2),
    Case::Kind(Kind::Menu, 3),
    Case::Kind(Kind::Button, 4),
    Case::Kind(Kind::Integer64, 5),
    Case::Kind(Kind::Bitmask, 8),
    Case::Kind(Kind::IntegerMenu, 9),
    Case::Kind(Kind::U8, 256),
    Case::Check(Check::ControlMissing, 13, None, Errno::EINVAL),
    Case::Check(Check::NotComplete, 30, None, Errno::EACCES),
    Case::Check(Check::HistoryFull, 33, None, Errno::ENOSPC),
    Case::Check(Check::MemoryRefused, 34, None, Errno::ENOMEM),
    Case::Check(Check::RangeStepZero, 55, Some(36), Errno::ERANGE),
    Case::Control(CtrlFault::KindBounds, 4),
    Case::Plan(PlanFault::ArrayAlone, 8),
    Case::Plan(PlanFault::CannotFollow, 9),
    Case::Which(0, Ok(Which::Current)),
    Case::Which(0x0f00_0000, Ok(Which::Defaults)),
    Case::Which(0x0f01_0000, Ok(Which::Request)),
    Case::Which(0x0098_0000, Ok(Which::Class(0x0098_0000))),
    Case::Class(0xf098_0900, 0x0098_0000),
    Case::Flags(
        0x8000_0240,
        Flags::WRITE_ONLY,
        Flags::EXECUTE_ON_WRITE,
        true,
        true,
    ),
    Case::Named(7),
];

fn holds(case: Case) -> bool {
    match case {
        Case::Error(errno, number) => errno.number() == number,
        Case::Check(check, number, part, errno) => {
            check.number() == number && check.part() == part && check.errno() == errno
        }
        Case::Control(fault, number) => fault.number() == number,
        Case::Plan(fault, number) => fault.number() == number,
        Case::Kind(kind, number) => kind.number() == number,
        Case::Which(number, which) => Which::read(number) == which,
        Case::Class(id, class) => CtrlId(id).class() == class,
        Case::Flags(bits, one, other, all, any) => {
            let flags = Flags::from_bits_retain(bits);
            let both = one.union(other);
            flags.bits() == bits && flags.contains(both) == all && flags.intersects(both) == any
        }
        Case::Named(count) => Flags::flags().len() == count,
    }
}

#[test]
fn numbers_and_classes(rt: HostRuntime) {
    for (row, case) in CASES.iter().enumerate() {
        assert!(rt; holds(*case), "case {row}");
    }
}

// Whether a number is shown as it is, and each byte of an array by two digits.
fn is_shown(alloc: Global) -> Result<bool, AllocError> {
    let number = CtrlValue::Number(-5);
    let bytes = ByteRow::from_slice(&[0x05, 0xa0, 0x00, 0xff]).map(CtrlValue::Bytes);
    match bytes {
        Some(bytes) => {
            let shown = format!(in alloc; "{number} {bytes}")?;
            Ok(shown.as_str() == "-5 x05a000ff")
        }
        None => Ok(false),
    }
}

#[test]
fn values_are_shown(rt: HostRuntime) -> Result<(), AllocError> {
    assert!(rt; is_shown(rt.alloc())?);
    Ok(())
}
