//! A device with 1,000,000 steps, the most that are kept: each ask that would add one has its own refusal first, and then ENOSPC (28); an ask
//! without a step answers as ever.

use crate::closures::Counting;
use crate::scene::{Counters, behind, counters, device, parts};
use device_state::{Ask, Device};
use std::alloc::{AllocError, Global};
use std::process::Abort;

// How many ends of the stream come first, the commands of a script with their replies, and how often the validators of autogain and gain,
// and of red and blue, are asked.
type Full = (u32, &'static str, (u64, u64));

// A frame is being made, and another one waits. Of the requests q and r, which are idle, the second has a buffer; s runs, t waits, and u was
// cancelled. An event waits for the file handle f. Validators are asked before it is seen that no further step is kept.
const MANY: &str = "\
open f 1 -> ok
open g 1 -> ok
alloc q -> ok
alloc r -> ok
alloc s -> ok
alloc t -> ok
alloc u -> ok
buffer r 3 -> ok
buffer s 4 -> ok
buffer t 5 -> ok
buffer u 6 -> ok
queue s -> ok
queue t -> ok
queue u -> ok
cancel u -> ok
begin -> ok buffer 4 refused -
sub f brightness initial -> ok
set f cur hflip=1 -> ok 1
open x 2 -> error 22
open x 1 -> error 28
close nobody -> error 9
close f -> error 28
grab missing on -> error 22
grab hflip on -> error 28
set nobody cur hflip=1 -> error 9 index 1
set f cur missing=1 -> error 22 index 1
set f cur power=4 -> error 34 index 1
set f cur red=200 blue=200 -> error 22 index 2
set f cur gain=5 red=6 -> error 28 index 2
set f cur hflip=1 -> error 28 index 1
set f cur -> error 28 index 0
set f req:s hflip=1 -> error 16 index 1
set f req:q autogain=0 -> error 28 index 1
set f req:q -> error 28 index 0
alloc x -> error 28
buffer nothing 9 -> error 22
buffer r 9 -> error 16
buffer q 5 -> error 16
buffer q 6 -> error 28
queue nothing -> error 22
queue t -> error 16
queue q -> error 2
queue r -> error 28
begin -> error 16
complete -> error 28
cancel nothing -> error 22
cancel s -> error 16
cancel r -> error 22
cancel t -> error 28
off -> error 28
reinit nothing -> error 22
reinit t -> error 16
reinit u -> error 28
free nothing -> error 22
free s -> error 16
free u -> error 28
sub nobody brightness -> error 9
sub f missing -> error 22
sub f brightness -> error 28
unsub nobody brightness -> error 9
unsub f missing -> error 28
take nobody -> error 9
take g -> error 2
take f -> error 28
try f cur red=200 hflip=0 -> ok 200 0
get f cur hflip red -> ok 1 128
get f req:u hflip -> ok 0
state s -> ok running
row 0 -> frame 0 buffer 5 refused - values 1 16 1 0 0 0 1 0 128 128
row 1 -> error 2
query f brightness -> ok 0x00980900 kind 1 min -64 max 64 step 4 default 0 flags 0x0
next f 0x00980900 -> ok 0x0098090d
menu f power 1 -> ok 50 Hz
told 0 -> ok 272
state q -> ok idle
state t -> ok queued
";

// No frame is being made, and one waits.
const WAITING: &str = "\
open f 1 -> ok
alloc q -> ok
buffer q 1 -> ok
queue q -> ok
complete -> error 2
begin -> error 28
state q -> ok queued
";

// No frame waits.
const EMPTY: &str = "\
open f 1 -> ok
begin -> error 2
row 0 -> error 2
off -> error 28
";

// A device with so many steps.
fn device_with(
    alloc: Global,
    counters: &Counters,
    steps: u32,
) -> Result<Device<Counting>, AllocError> {
    let mut device = device(alloc, counters)?;
    for _ in 0..steps {
        if device.handle(0, &Ask::StreamOff).is_err() {
            return Err(AllocError);
        }
    }
    Ok(device)
}

// Whether a script is answered so and asks so many validators. Where it isn't, the replies are handed back.
fn answered(alloc: Global, full: &Full) -> Result<Option<Vec<u8>>, AllocError> {
    let counters = counters(alloc)?;
    let device = device_with(alloc, &counters, full.0)?;
    let (commands, replies) = parts(alloc, full.1)?;
    let (_device, printed) = behind(alloc, device, commands.as_slice())?;
    let [gain, balance, _, _] = &counters;
    let asked = (gain.calls().0, balance.calls().0);
    let is_wanted = printed == replies && asked == full.2;
    Ok(if is_wanted { None } else { Some(printed) })
}

fn expect<R: AllocGlobal + Abort>(rt: &R, full: &Full) -> Result<(), AllocError> {
    let printed = answered(rt.alloc(), full)?;
    assert!(rt; printed.is_none(), "{printed:?}");
    Ok(())
}

#[test]
fn no_further_step_is_kept(rt: HostRuntime) -> Result<(), AllocError> {
    expect(&rt, &(999_982, MANY, (2, 3)))
}

#[test]
fn a_frame_waits_for_good(rt: HostRuntime) -> Result<(), AllocError> {
    expect(&rt, &(999_996, WAITING, (0, 0)))
}

#[test]
fn an_empty_queue_is_refused_first(rt: HostRuntime) -> Result<(), AllocError> {
    expect(&rt, &(999_999, EMPTY, (0, 0)))
}
