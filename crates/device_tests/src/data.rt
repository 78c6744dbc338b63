//! A device that data describes: what one ask of it does, by what its limits and words mean, and an ask that is made so.

ghost use Rattle.history.specs.Past.{past};
ghost use Rattle.ctrl_clusters.specs.Notified.{HaveWords};
ghost use Rattle.device_history.specs.Values.{now};
ghost use Rattle.device_state.specs.Device.{Handles};
ghost use Rattle.data_driver.specs.Data.{data_told, data_verdict};

use ctrl_types::Fault;
use data_driver::Data;
use device_state::{Ask, Device, PlanBuilder, Reply};
use std::alloc::Global;

// Answers an ask at a seat as `Device::handle` does, where each ask stands with its refusals: what the validators answer is `data_verdict`,
// and the word of each cluster is the one that `data_told` names for its row. The clusters of the device have the calls of `data_calls`.
fn ask_device(device: &mut Device<Data>, seat: u32, ask: &Ask) -> Result<Reply, Fault>
    ensures handles { Handles data_verdict device.old device.new seat ask.now result }
    ensures words { HaveWords data_told device.new.plan (now data_verdict device.new.plan (past device.new.steps)) device.new.words }
{
    device.handle(seat, ask)
}

// A device of one handler.
fn device(alloc: Global) -> Option<Device<Data>> {
    let mut builder = PlanBuilder::new(alloc);
    builder.handler().ok()?;
    Device::new(alloc, builder.finish().ok()?).ok()
}

// Whether its handler can be opened, and no other.
fn opens_one(alloc: Global) -> Option<bool> {
    let mut device = device(alloc)?;
    let one = ask_device(&mut device, 0, &Ask::OpenFh { handler: 0 }).is_ok();
    let other = ask_device(&mut device, 0, &Ask::OpenFh { handler: 1 }).is_ok();
    Some(one && !other && device.steps().len() == 1)
}

#[test]
fn a_device_of_data_is_asked(rt: HostRuntime) {
    assert!(rt; opens_one(rt.alloc()) == Some(true));
}
