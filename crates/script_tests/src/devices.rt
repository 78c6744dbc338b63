//! Devices that call no closure.

ghost use Rattle.std.specs.Prelude.{⊤, ◌≡◌, [], IfOk};
ghost use Rattle.ctrl_calls.specs.declared.verdict.Verdict.TheVariants.{Accept};

use bitflags::Flags as FlagSet;
use ctl_script::{ControlWords, sample_builder, sample_words};
use ctrl_calls::{Calls, ClusterRow, Driver, Judging, Notifies, Telling, Validates, Verdict};
use ctrl_settle::Ctrl;
use ctrl_types::{CtrlId, Flags, Kind};
use device_state::{Device, Plan, PlanBuilder, PlanFault};
use std::alloc::{AllocError, Global};

/// A driver that takes each row, and whose notifiers say 0.
pub enum Silent {}

#[derive(Drop)]
pub struct Accepts;

impl Judging for Accepts {
    ghost callable = { λ _. ⊤ };

    ghost answers = { λ _ row verdict. verdict ≡ Accept row };

    fn judge(&self, row: ClusterRow) -> Verdict {
        Verdict::Accept(row)
    }
}

#[derive(Drop)]
pub struct Says;

impl Telling for Says {
    ghost callable = { λ _. ⊤ };

    ghost answers = { λ _ _ _. ⊤ };

    fn tell(&self, row: ClusterRow) -> u64 {
        let _ = row;
        0
    }
}

impl Validates for Silent {
    type Judge = Accepts;

    ghost verdict = { λ _ row. Accept row };
}

impl Notifies for Silent {
    type Teller = Says;

    ghost told = { λ _ _ _. ⊤ };
}

/// Which device a script is asked of.
#[derive(Clone, Copy)]
pub enum Kept {
    /// The sample device.
    Sample,
    /// Two menus.
    Menus,
}

/// A fresh device. The error is want of memory, and it stands for any fault of the plan, too: a test that meets it fails.
pub fn kept_device(alloc: Global, kept: Kept) -> Result<Device<Silent>, AllocError> {
    match kept {
        Kept::Sample => sample(alloc),
        Kept::Menus => device_of(alloc, menus(alloc)),
    }
}

/// The words of its controls. The error is want of memory.
pub fn kept_words(alloc: Global, kept: Kept) -> Result<ControlWords, AllocError> {
    match kept {
        Kept::Sample => sample_words(alloc),
        Kept::Menus => menu_words(alloc),
    }
}

// The first word stands twice: its first row counts.
fn menu_words(alloc: Global) -> Result<ControlWords, AllocError> {
    let mut words = ControlWords::new(alloc);
    words.push(alloc, b"mode", CtrlId(1), 0)?;
    words.push(alloc, b"link_rate", CtrlId(2), 1)?;
    words.push(alloc, b"mode", CtrlId(2), 1)?;
    Ok(words)
}

/// A fresh sample device that calls no closure.
pub fn sample(alloc: Global) -> Result<Device<Silent>, AllocError>
    ensures { IfOk result (λ device. device.steps ≡ []) }
{
    device_of(alloc, sample_without(alloc))
}

/// A fresh device of a plan, if there is one. The error stands for any fault of the plan, too; whoever meets one fails.
pub fn device_of<D: Driver>(
    alloc: Global,
    plan: Result<Plan<D>, PlanFault>,
) -> Result<Device<D>, AllocError>
    ensures { IfOk result (λ device. device.steps ≡ []) }
{
    let Ok(plan) = plan else {
        return Err(AllocError);
    };
    match Device::new(alloc, plan) {
        Ok(device) => Ok(device),
        Err(_) => Err(AllocError),
    }
}

// The plan of the sample device, but that no cluster has closures.
fn sample_without(alloc: Global) -> Result<Plan<Silent>, PlanFault> {
    finished(sample_builder(alloc, none(), none(), none(), none())?)
}

fn none() -> Calls<Silent> {
    Calls {
        validator: None,
        notifier: None,
    }
}

// A menu of names, of which the first is empty, and one of numbers, the least and the greatest among them.
fn menus(alloc: Global) -> Result<Plan<Silent>, PlanFault> {
    let mut builder = PlanBuilder::new(alloc);
    add_menus(&mut builder)?;
    finished(builder)
}

fn finished(builder: PlanBuilder<Silent>) -> Result<Plan<Silent>, PlanFault> {
    match builder.finish() {
        Ok(plan) => Ok(plan),
        Err((_, fault)) => Err(fault),
    }
}

fn add_menus(builder: &mut PlanBuilder<Silent>) -> Result<(), PlanFault> {
    builder.handler()?;
    for (id, kind) in [(1, Kind::Menu), (2, Kind::IntegerMenu)] {
        let flags = Flags::empty();
        let Ok(ctrl) = Ctrl::new(CtrlId(id), kind, 0, 4, 1, 0, 4, flags, false) else {
            return Err(PlanFault::Limit);
        };
        builder.control(0, ctrl)?;
    }
    builder.menu_name(0, 0, "")?;
    builder.menu_name(0, 1, "a name of thirty-two bytes, yes.")?;
    builder.menu_name(0, 4, "last")?;
    builder.menu_number(1, 0, i64::MIN)?;
    builder.menu_number(1, 1, 25)?;
    builder.menu_number(1, 4, i64::MAX)
}
