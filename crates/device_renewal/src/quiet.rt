ghost use Rattle.std.specs.Prelude.{◌≡◌, true, false, is_some};
ghost use Rattle.history.specs.Past.{past};
ghost use Rattle.device_history.specs.Subscriptions.{subscribed};
ghost use Rattle.device_renewal.specs.Quiet.{IsGone, IsQuiet};

use ctrl_calls::Driver;
use ctrl_types::{FhId, RequestId};
use device_state::{Device, Step};

/// Whether no file handle of a device is subscribed to a control, and no request is there (of this project). It goes through all steps, and takes no memory.
pub fn is_quiet<D: Driver>(device: &Device<D>) -> bool
    ensures { result ≡ true → IsQuiet D.verdict device.now }
{
    let steps = device.steps();
    for number in 0..steps.len() {
        if is_there(device, number as u32, &steps[number].step) {
            return false;
        }
    }
    true
}

// Whether the step with a number made a subscription or a request that is there still.
fn is_there<D: Driver>(device: &Device<D>, number: u32, step: &Step) -> bool
    ensures { result ≡ false → IsGone D.verdict device.now.plan (past device.now.steps) number step.now }
{
    match step {
        Step::Subscribe { fh, control, .. } => is_subscribed(device, *fh, *control),
        Step::Alloc => device.state_of(RequestId(number)).is_ok(),
        _ => false,
    }
}

// Whether a file handle is subscribed to a control.
fn is_subscribed<D: Driver>(device: &Device<D>, fh: FhId, control: u32) -> bool
    ensures { result ≡ is_some (subscribed (past device.now.steps) fh control) }
{
    device.subscribed(fh, control).is_some()
}
