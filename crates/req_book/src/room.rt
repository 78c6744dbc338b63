ghost use Rattle.std.specs.Prelude.{◌≡◌, length, replicate, IfOk, None};

use ctrl_types::CtrlValue;
use std::alloc::{AllocError, Global};
use std::marker::Model;

/// Room for what the frame of a queued request has: what each control gets at its begin, and its value once the frame is done (of this project).
/// Contracts see for how many controls it is.
#[derive(Drop)]
pub struct FrameRoom {
    applied: Vec<Option<CtrlValue>>,
    values: Vec<CtrlValue>,
}

impl Model for FrameRoom {
    ghost use Rattle.std.specs.Prelude.{◌≡◌, ℕ, length, replicate, None};

    ghost Value = { ℕ };

    ghost view = { λ r. length r.values.items };

    ghost invariant = { λ r. r.applied.items ≡ replicate (length r.values.items) None };
}

impl FrameRoom {
    /// Room for so many controls. The error is that a growth was refused.
    pub(crate) fn new(alloc: Global, controls: u32) -> Result<FrameRoom, AllocError>
        ensures { IfOk result (λ room. room ≡ controls) }
    {
        let applied = vec![in alloc; None; controls as usize]?;
        let values = vec![in alloc; CtrlValue::Number(0); controls as usize]?;
        Ok(FrameRoom { applied, values })
    }

    /// Its two rows: nothing is applied yet, and there is a value for each control.
    pub(crate) fn into_rows(self) -> (Vec<Option<CtrlValue>>, Vec<CtrlValue>)
        ensures applied { result.0.items ≡ replicate self None }
        ensures values { length result.1.items ≡ self }
    {
        (self.applied, self.values)
    }
}
