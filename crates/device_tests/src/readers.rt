//! What a driver's readers tell, and asks that no script can make.

use crate::closures::Counting;
use crate::scene::{are, behind, counters, device};
use bitflags::Flags as FlagSet;
use ctrl_types::{CtrlId, CtrlValue, Errno, ExtControl, FhId, RequestId, SubFlags};
use device_state::{Ask, ControlList, Device, Reply};
use std::alloc::{AllocError, Global};

// The file handle 0 hears of red and of blue; the request 1 is complete, and 2 waits. Blue is grabbed, and the gain isn't INACTIVE.
const SCRIPT: &str = "\
open f 1
alloc r
alloc s
set f req:r red=200
set f req:s red=200 blue=150
buffer r 7
buffer s 8
queue r
begin
sub f red initial
sub f blue feedback
grab blue on
set f cur autogain=0
complete
queue s
";

const FH: FhId = FhId(0);

const DONE: RequestId = RequestId(1);

const WAITS: RequestId = RequestId(2);

fn device_behind(alloc: Global) -> Result<Device<Counting>, AllocError> {
    let device = device(alloc, &counters(alloc)?)?;
    Ok(behind(alloc, device, SCRIPT.as_bytes())?.0)
}

// Whether the readers of controls and requests tell what the script made.
fn has_values(device: &Device<Counting>) -> bool {
    are(device.values(), &[0, 16, 0, 0, 0, 0, 1, 0, 200, 128])
        && device.plan().control_count() == 10
        && device.flags(1).bits() == 0
        && device.flags(9).bits() == 0x2
        && device.is_grabbed(9)
        && device.snapshot(DONE, 8) == Ok(CtrlValue::Number(200))
        && matches!(device.asked(WAITS), Ok(pairs) if pairs.len() == 2)
        && device.queued(0) == Some(WAITS)
        && device.running().is_none()
}

// Whether those of events do.
fn has_events(device: &Device<Counting>) -> bool {
    device.subscribed(FH, 9) == Some(SubFlags::ALLOW_FEEDBACK)
        && device.subscribed(FH, 7).is_none()
        && device.next_sequence(FH) == 2
        && matches!(device.waiting(FH, 1), Some((9, event)) if event.flags.bits() == 0x2)
        && device.waiting(FH, 2).is_none()
}

#[test]
fn readers_tell_what_was_made(rt: HostRuntime) -> Result<(), AllocError> {
    let device = device_behind(rt.alloc())?;
    assert!(rt; has_values(&device) && has_events(&device));
    Ok(())
}

// Bits of a subscription's flags that have no name are kept, and the step has the seat.
fn keeps_bits(device: &mut Device<Counting>) -> bool {
    let flags = SubFlags::from_bits_retain(0xffff_fffc);
    let ask = Ask::Subscribe {
        fh: FH,
        id: CtrlId(0x0098_0900),
        flags,
    };
    device.handle(7, &ask).is_ok()
        && device.subscribed(FH, 5) == Some(flags)
        && matches!(device.steps().last(), Some(entry) if entry.seat == 7)
}

// A request that isn't there is ignored beside present values.
fn ignores_request(alloc: Global, device: &mut Device<Counting>) -> Result<bool, AllocError> {
    let mut list = Vec::new(alloc);
    list.push(ExtControl {
        id: CtrlId(0x0098_090e),
        value: CtrlValue::Number(0),
    })?;
    let list = ControlList::from_vec(list);
    Ok(match &device.get(FH, 0, Some(RequestId(99)), &list) {
        Ok(Reply::Controls(list)) =>
            matches!(list.as_slice(), [red] if red.value == CtrlValue::Number(200)),
        _ => false,
    })
}

// Whether a control that isn't there is neither grabbed nor let go.
fn grabs_nobody(device: &mut Device<Counting>) -> bool {
    let control = u32::MAX;
    let is_grabbed = device.handle(0, &Ask::Grab { control, on: true }).is_ok();
    let is_free = device.handle(0, &Ask::Grab { control, on: false }).is_ok();
    !is_grabbed && !is_free
}

// Red gets another range, whose step and default count from then on; the plan's stays.
fn gets_a_range(device: &mut Device<Counting>) -> bool {
    let ask = Ask::ModifyRange {
        control: 8,
        min: 0,
        max: 100,
        step: 10,
        default_value: 50,
    };
    let is_done = matches!(&device.handle(7, &ask), Ok(Reply::Done));
    if device.plan().control_count() <= 8 {
        return false;
    }
    let range = device.range(8);
    is_done
        && range.maximum() == 100
        && range.step() == 10
        && range.default_value() == 50
        && device.plan().control(8).maximum() == 255
        && device.values().get(8) == Some(&CtrlValue::Number(100))
        && matches!(device.steps().last(), Some(entry) if entry.seat == 7)
}

// A control that isn't there gets none.
fn ranges_nobody(device: &mut Device<Counting>) -> bool {
    let ask = Ask::ModifyRange {
        control: 10,
        min: 0,
        max: 1,
        step: 1,
        default_value: 0,
    };
    matches!(&device.handle(0, &ask), Err(fault) if fault.errno == Errno::EINVAL && fault.index.is_none())
}

#[test]
fn a_range_with_ample_memory(rt: HostRuntime) -> Result<(), AllocError> {
    let mut device = device_behind(rt.alloc())?;
    let is_nobodys = ranges_nobody(&mut device);
    let is_given = gets_a_range(&mut device);
    assert!(rt; is_nobodys && is_given);
    Ok(())
}

#[test]
fn asks_that_no_script_can_make(rt: HostRuntime) -> Result<(), AllocError> {
    let mut device = device_behind(rt.alloc())?;
    let keeps = keeps_bits(&mut device) && grabs_nobody(&mut device);
    let ignores = ignores_request(rt.alloc(), &mut device)?;
    assert!(rt; keeps && ignores);
    Ok(())
}
