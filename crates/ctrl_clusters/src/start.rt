//! What a device has before its first step.

ghost use Rattle.std.specs.Prelude.{◌≡◌, false, map, IfOk};
ghost use Rattle.ctrl_settle.specs.Control.{default_of};

use ctrl_settle::Ctrl;
use ctrl_types::CtrlValue;
use std::alloc::{AllocError, Global};

/// The default of each control (Linux driver API, "V4L2 Controls").
///
/// - `alloc`: where they lie.
/// - `controls`: the controls, in the order of their numbers.
///
/// The error is that a growth was refused.
pub fn default_values(alloc: Global, controls: &[Ctrl]) -> Result<Vec<CtrlValue>, AllocError>
    ensures { IfOk result (λ values. values.items ≡ map default_of controls.now) }
{
    controls
        .iter()
        .map(|ctrl| ctrl.default_as_value())
        .collect(alloc)
}

/// No control is grabbed (Linux driver API, `v4l2_ctrl_grab`).
///
/// - `alloc`: where the grabs lie.
/// - `controls`: the controls, in the order of their numbers.
///
/// The error is that a growth was refused.
pub fn no_grabs(alloc: Global, controls: &[Ctrl]) -> Result<Vec<bool>, AllocError>
    ensures { IfOk result (λ grabs. grabs.items ≡ map (λ _. false) controls.now) }
{
    controls.iter().map(|_| false).collect(alloc)
}
