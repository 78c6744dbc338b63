//! A plan of a menu that is the master of an auto cluster, a number that follows it, a button, a plain number, and one that can't be read.

ghost use Rattle.std.specs.Prelude.{⊤, ◌≡◌};
ghost use Rattle.ctrl_calls.specs.declared.verdict.Verdict.TheVariants.{Accept};

use bitflags::Flags as FlagSet;
use ctrl_calls::{Calls, ClusterRow, Judging, Notifies, Telling, Validates, Verdict};
use ctrl_handlers::{Plan, PlanBuilder};
use ctrl_settle::Ctrl;
use ctrl_types::{CtrlId, Flags, Kind};
use std::alloc::Global;
use std::test::Fail;

/// A driver that keeps no closure.
pub(crate) enum Silent {}

#[derive(Drop)]
pub(crate) struct Accepts;

impl Judging for Accepts {
    ghost callable = { λ _. ⊤ };

    ghost answers = { λ _ row verdict. verdict ≡ Accept row };

    fn judge(&self, row: ClusterRow) -> Verdict {
        Verdict::Accept(row)
    }
}

#[derive(Drop)]
pub(crate) struct Says;

impl Telling for Says {
    ghost callable = { λ _. ⊤ };

    ghost answers = { λ _ _ _. ⊤ };

    fn tell(&self, row: ClusterRow) -> u64 {
        let _ = row;
        0
    }
}

impl Validates for Silent {
    type Judge = Accepts;

    ghost verdict = { λ _ row. Accept row };
}

impl Notifies for Silent {
    type Teller = Says;

    ghost told = { λ _ _ _. ⊤ };
}

/// The id of the first control; the others follow.
pub(crate) const FIRST: u32 = 0x0098_0900;

// Kind, maximum, step, default and flags of each control; each has 0 as its minimum.
const MADE: &[(Kind, i64, u64, i64, u32)] = &[
    (Kind::Menu, 3, 1, 1, 0),
    (Kind::Integer, 255, 1, 50, 0),
    (Kind::Button, 0, 0, 0, 0),
    (Kind::Integer, 90, 2, 30, 0),
    (Kind::Integer, 255, 1, 9, 0x40),
];

// What the menu has as its value where it is manual.
const MANUAL: i64 = 1;

fn control(
    id: u32,
    kind: Kind,
    maximum: i64,
    step: u64,
    default: i64,
    bits: u32,
) -> Result<Ctrl, Fail> {
    let flags = Flags::from_bits_retain(bits);
    match Ctrl::new(CtrlId(id), kind, 0, maximum, step, default, 0, flags, false) {
        Ok(ctrl) => Ok(ctrl),
        Err(_) => Err(Fail::new("a control")),
    }
}

pub(crate) fn plan(alloc: Global) -> Result<Plan<Silent>, Fail> {
    let mut builder = PlanBuilder::new(alloc);
    let handler = builder.handler()?;
    let mut id = FIRST;
    for &(kind, maximum, step, default, bits) in MADE {
        builder.control(handler, control(id, kind, maximum, step, default, bits)?)?;
        id = id.wrapping_add(1);
    }
    let none = Calls {
        validator: None,
        notifier: None,
    };
    if builder.auto_cluster(&[0, 1], MANUAL, none).is_err() {
        return Err(Fail::new("an auto cluster"));
    }
    match builder.finish() {
        Ok(plan) => Ok(plan),
        Err(_) => Err(Fail::new("the plan")),
    }
}
