//! The sample device with the closures of its driver.

ghost use Rattle.std.specs.Prelude.{◌≡◌, [], IfOk};

use crate::devices::device_of;
use ctl_pair::Gate;
use ctl_script::{Sample, own_sample_plan};
use device_state::Device;
use std::alloc::{AllocError, Global};

/// Lets each command pass at once.
pub struct NoGate;

impl Gate for NoGate {
    fn pass(&self, _seat: u32, _k: u32) {}
}

/// A fresh sample device.
pub fn sample_of(alloc: Global) -> Result<Device<Sample>, AllocError>
    ensures { IfOk result (λ device. device.steps ≡ []) }
{
    device_of(alloc, own_sample_plan(alloc))
}
