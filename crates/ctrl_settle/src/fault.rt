ghost use Rattle.std.specs.Prelude.{◌≡◌};

use ctrl_types::Check;
use thiserror::Error;

/// What is wrong with a control's description (of this project).
#[derive(Clone, Copy, Debug, PartialEq, Eq, Error)]
pub enum CtrlFault {
    /// The minimum lies above the maximum.
    #[error("the minimum lies above the maximum")]
    BadRange,
    /// A number control has the step 0.
    #[error("the step of a number is 0")]
    ZeroStep,
    /// The control doesn't take its default as it is.
    #[error("the control does not take its default as it is")]
    BadDefault,
    /// Bounds, step, skipped items, elements or flags aren't of the control's kind.
    #[error("bounds, step, skipped items, elements or flags are not of the kind")]
    KindBounds,
}

impl CtrlFault {
    ghost use Rattle.ctrl_settle.specs.Faults.{fault_number, range_check_of};

    /// The number of the fault: 1 `BadRange`, 2 `ZeroStep`, 3 `BadDefault`, 4 `KindBounds` (of this project).
    pub fn number(self) -> u32
        ensures { result ≡ fault_number self }
    {
        match self {
            CtrlFault::BadRange => 1,
            CtrlFault::ZeroStep => 2,
            CtrlFault::BadDefault => 3,
            CtrlFault::KindBounds => 4,
        }
    }

    /// The check that a range with this fault is refused by: 55 of docs/RULES.md, and of the control 35 to 38 (of this project).
    pub fn range_check(self) -> Check
        ensures { result ≡ range_check_of self }
    {
        match self {
            CtrlFault::BadRange => Check::RangeReversed,
            CtrlFault::ZeroStep => Check::RangeStepZero,
            CtrlFault::BadDefault => Check::RangeDefaultNotTaken,
            CtrlFault::KindBounds => Check::RangeNotOfKind,
        }
    }
}
