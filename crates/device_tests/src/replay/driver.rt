//! A driver whose validators take each row, or none, and a plan of six controls on two handlers.
ghost use Rattle.std.specs.Prelude.{⊤, ◌≡◌, ◌==◌, if◌then◌else◌};
ghost use Rattle.ctrl_calls.specs.declared.verdict.Verdict.TheVariants.{Accept, Refuse};
ghost use Rattle.ctrl_types.specs.declared.errno.Errno.TheVariants.{EBUSY};

use bitflags::Flags as FlagSet;
use ctrl_calls::{
    Calls, ClusterRow, Judging, Notifies, Relation, Telling, Validates, Validator, Verdict,
};
use ctrl_handlers::{Plan, PlanBuilder};
use ctrl_settle::Ctrl;
use ctrl_types::{CtrlId, Errno, Flags, Kind};
use std::alloc::Global;

/// Relation 0 takes each row, every other none.
pub enum Picky {}

#[derive(Drop)]
pub struct Judge {
    number: u32,
}

impl Judging for Judge {
    ghost callable = { λ _. ⊤ };

    ghost answers = { λ judge row verdict. verdict ≡ (if judge.number == 0 then Accept row else Refuse EBUSY) };

    fn judge(&self, row: ClusterRow) -> Verdict {
        match self.number {
            0 => Verdict::Accept(row),
            _ => Verdict::Refuse(Errno::EBUSY),
        }
    }
}

#[derive(Drop)]
pub struct Says {}

impl Telling for Says {
    ghost callable = { λ _. ⊤ };

    ghost answers = { λ _ _ _. ⊤ };

    fn tell(&self, _row: ClusterRow) -> u64 {
        0
    }
}

impl Validates for Picky {
    type Judge = Judge;

    ghost verdict = { λ relation row. if relation.number == 0 then Accept row else Refuse EBUSY };
}

impl Notifies for Picky {
    type Teller = Says;

    ghost told = { λ _ _ _. ⊤ };
}

fn validated(number: u32) -> Calls<Picky> {
    let relation = Relation {
        number,
        bounds: [0; 4],
    };
    Calls {
        validator: Some(Validator::new(relation, Judge { number })),
        notifier: None,
    }
}

// The first id; others follow it.
const FIRST: u32 = 0x0098_0900;

// The controls, each of 0 to 9: its handler, its id, its default, its flags, and whether it is private. Handler 1 adds handler 0, and has a
// control with the id of control 0, which is hidden from it so. Control 4 is DISABLED, and 5 READ_ONLY.
const CONTROLS: [(u32, u32, i64, u32, bool); 6] = [
    (0, FIRST, 3, 0, false),
    (0, FIRST + 1, 0, 0, false),
    (1, FIRST, 4, 0, false),
    (0, FIRST + 2, 0, 0, true),
    (0, FIRST + 3, 0, 0x1, false),
    (0, FIRST + 4, 0, 0x4, false),
];

/// These controls; the validator of control 0 takes each value, and that of control 1 none. There is no plan where a growth or another
/// call of the builder was refused.
pub fn plan(alloc: Global) -> Option<Plan<Picky>> {
    let mut builder = PlanBuilder::new(alloc);
    add_controls(&mut builder)?;
    add_cluster(&mut builder, 0, 0)?;
    add_cluster(&mut builder, 1, 1)?;
    match builder.finish() {
        Ok(plan) => Some(plan),
        Err(_) => None,
    }
}

fn add_controls(builder: &mut PlanBuilder<Picky>) -> Option<()> {
    builder.handler().ok()?;
    builder.handler().ok()?;
    for &(handler, id, default, bits, is_private) in &CONTROLS {
        let ctrl = ctrl(id, default, bits, is_private)?;
        builder.control(handler, ctrl).ok()?;
    }
    builder.add_handler(1, 0).ok()
}

fn ctrl(id: u32, default: i64, bits: u32, is_private: bool) -> Option<Ctrl> {
    let flags = Flags::from_bits_retain(bits);
    let ctrl = Ctrl::new(
        CtrlId(id),
        Kind::Integer,
        0,
        9,
        1,
        default,
        0,
        flags,
        is_private,
    );
    ctrl.ok()
}

// The cluster of one control, with a validator of this number.
fn add_cluster(builder: &mut PlanBuilder<Picky>, control: u32, number: u32) -> Option<()> {
    match builder.cluster(&[control], validated(number)) {
        Ok(_) => Some(()),
        Err(_) => None,
    }
}
