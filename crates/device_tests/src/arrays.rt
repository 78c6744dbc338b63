//! The array device, whose control 10 is an array of 4 bytes: what scripts show of it, and another range, which no command can give it since it has no word.

use crate::closures::Counting;
use crate::scene::{array_device, counters};
use ctl_script::{Outcome, run_script, sample_words};
use ctrl_types::{ByteRow, CtrlId, CtrlValue, ExtControl, FhId};
use device_state::{Ask, ControlList, Device, Reply};
use std::alloc::{AllocError, Global};

// Values, refusals, a query, an event and a forecast.
const SCRIPT: &[u8] = b"open f 1
open h 1
set f cur 0x00981000=x050e04ff
get f def 0x00981000
set f cur 0x00981000=x0505
set f cur 0x00981000=5
set f cur red=x05
try f cur 0x00981000=x0505
try f cur 0x00981000=5
try f cur red=x05
query f 0x00981000
next f 0x00980918
sub h 0x00981000
set f cur 0x00981000=x0a000000
take h
alloc r
set f req:r 0x00981000=x0a0e0004
buffer r 1
queue r
row 0
audit
set f cur 0x00981000=x050e04ff
";

const REPLIES: &[u8] = b"ok
ok
ok x0a0a00fa
ok x00000000
error 22 index 1
error 22 index 1
error 22 index 1
error 22 index 0
error 22 index 0
error 22 index 0
ok 0x00981000 kind 256 min 0 max 250 step 10 default 0 flags 0x0 elems 4
ok 0x00981000
ok
ok x0a000000
event 0x00981000 changes 1 value 0 flags 0x0 sequence 0 pending 0
ok
ok x0a0a0000
ok
ok
frame 0 buffer 1 refused - values 1 16 0 0 0 0 1 0 128 128 x0a0a0000
audit equal 10
ok x0a0a00fa
";

// Behind another range: the value and the frame that waits, element by element.
const RANGED: &[u8] = b"open g 1
get g cur 0x00981000
query g 0x00981000
set g cur 0x00981000=xfffefd00
row 0
audit
";

const RANGED_REPLIES: &[u8] = b"ok
ok x0a0a0064
ok 0x00981000 kind 256 min 0 max 100 step 10 default 0 flags 0x0 elems 4
ok x64646400
frame 0 buffer 1 refused - values 1 16 0 0 0 0 1 0 128 128 x0a0a0000
audit equal 14
";

// The device behind a script, and whether that printed this.
fn behind(
    alloc: Global,
    device: Device<Counting>,
    script: &[u8],
    want: &[u8],
) -> Result<(Device<Counting>, bool), AllocError> {
    let words = sample_words(alloc)?;
    let mut reader = script;
    let mut printed = Vec::new(alloc);
    let (device, outcome) = run_script(alloc, &words, device, &mut reader, &mut printed);
    let is_printed = matches!(outcome, Outcome::Finished) && printed.as_slice() == want;
    Ok((device, is_printed))
}

// The array gets the range 0 to 100.
fn gets_a_range(device: &mut Device<Counting>) -> bool {
    let ask = Ask::ModifyRange {
        control: 10,
        min: 0,
        max: 100,
        step: 10,
        default_value: 0,
    };
    matches!(&device.handle(7, &ask), Ok(Reply::Done)) && has(device, &[0x0a, 0x0a, 0x00, 0x64])
}

// Whether the array has these bytes.
fn has(device: &Device<Counting>, bytes: &[u8]) -> bool {
    match (device.values().get(10), ByteRow::from_slice(bytes)) {
        (Some(CtrlValue::Bytes(row)), Some(want)) => *row == want,
        _ => false,
    }
}

// A get answers the present values, whatever values are handed in: bytes for red, and a number for the array.
fn ignores_what_is_handed_in(
    alloc: Global,
    device: &mut Device<Counting>,
) -> Result<bool, AllocError> {
    let mut list = Vec::new(alloc);
    list.push(ExtControl {
        id: CtrlId(0x0098_090e),
        value: CtrlValue::Bytes(ByteRow::repeated(32, 7)),
    })?;
    list.push(ExtControl {
        id: CtrlId(0x0098_1000),
        value: CtrlValue::Number(-1),
    })?;
    let list = ControlList::from_vec(list);
    Ok(match &device.get(FhId(0), 0, None, &list) {
        Ok(Reply::Controls(list)) => match list.as_slice() {
            [red, weights] => {
                red.value == CtrlValue::Number(128)
                    && Some(&weights.value) == device.values().get(10)
            }
            _ => false,
        },
        _ => false,
    })
}

#[test]
fn the_array_device(rt: HostRuntime) -> Result<(), AllocError> {
    let alloc = rt.alloc();
    let counters = counters(alloc)?;
    let device = array_device(alloc, &counters)?;
    let (mut device, is_printed) = behind(alloc, device, SCRIPT, REPLIES)?;
    assert!(rt; is_printed && gets_a_range(&mut device));
    assert!(rt; ignores_what_is_handed_in(alloc, &mut device)?);
    let (_device, is_printed) = behind(alloc, device, RANGED, RANGED_REPLIES)?;
    assert!(rt; is_printed);
    Ok(())
}
