//! The sample device at a driver whose notifier of brightness waits.

ghost use Rattle.std.specs.Prelude.{⊤, ◌≡◌, [], IfOk};
ghost use Rattle.ctrl_calls.specs.declared.verdict.Verdict.TheVariants.{Accept};

use crate::acts::Flags;
use ctl_script::audit_of;
use ctrl_calls::{
    Calls, ClusterRow, Judging, Notifier, Notifies, Relation, Telling, Validates, Verdict,
};
use ctrl_types::CtrlValue;
use device_state::{Device, Plan, PlanFault};
use sample_device::sample_builder;
use script_replies::Audited;
use std::alloc::{AllocError, Global};
use std::sync::Arc;

/// A driver that takes each row, and whose notifiers wait.
pub enum Waiting {}

#[derive(Drop)]
pub struct Accepts;

impl Judging for Accepts {
    ghost callable = { λ _. ⊤ };

    ghost answers = { λ _ row verdict. verdict ≡ Accept row };

    fn judge(&self, row: ClusterRow) -> Verdict {
        Verdict::Accept(row)
    }
}

/// Told of another value than 0, it raises the first flag, and waits for the second.
#[derive(Drop)]
pub struct Waits {
    flags: Arc<Flags>,
}

impl Telling for Waits {
    ghost callable = { λ _. ⊤ };

    ghost answers = { λ _ _ _. ⊤ };

    fn tell(&self, row: ClusterRow) -> u64 {
        if row.values() != [CtrlValue::Number(0)].as_slice() {
            self.flags.raise(0);
            self.flags.wait(1);
        }
        0
    }
}

impl Validates for Waiting {
    type Judge = Accepts;

    ghost verdict = { λ _ row. Accept row };
}

impl Notifies for Waiting {
    type Teller = Waits;

    ghost told = { λ _ _ _. ⊤ };
}

fn none() -> Calls<Waiting> {
    Calls {
        validator: None,
        notifier: None,
    }
}

/// A fresh sample device that calls nobody.
pub fn sample(alloc: Global) -> Result<Device<Waiting>, AllocError>
    ensures { IfOk result (λ device. device.steps ≡ []) }
{
    device_of(alloc, none())
}

/// A fresh sample device, whose notifier of brightness waits by these flags.
pub fn waiting_sample(alloc: Global, flags: Arc<Flags>) -> Result<Device<Waiting>, AllocError>
    ensures { IfOk result (λ device. device.steps ≡ []) }
{
    let relation = Relation {
        number: 0,
        bounds: [0; 4],
    };
    let of_brightness = Calls {
        validator: None,
        notifier: Some(Notifier::new(relation, Waits { flags })),
    };
    device_of(alloc, of_brightness)
}

// The error stands for any fault of the plan, too; whoever meets one fails.
fn device_of(alloc: Global, of_brightness: Calls<Waiting>) -> Result<Device<Waiting>, AllocError>
    ensures { IfOk result (λ device. device.steps ≡ []) }
{
    let Ok(plan) = plan_of(alloc, of_brightness) else {
        return Err(AllocError);
    };
    match Device::new(alloc, plan) {
        Ok(device) => Ok(device),
        Err(_) => Err(AllocError),
    }
}

fn plan_of(alloc: Global, of_brightness: Calls<Waiting>) -> Result<Plan<Waiting>, PlanFault> {
    match sample_builder(alloc, none(), none(), none(), of_brightness)?.finish() {
        Ok(plan) => Ok(plan),
        Err((_, fault)) => Err(fault),
    }
}

/// Whether the audit of a device agrees, and it has so many steps.
pub fn agrees(alloc: Global, device: &Device<Waiting>, steps: usize) -> bool {
    matches!(audit_of(alloc, device, &mut None), Audited::Equal(count) if count == steps)
}
