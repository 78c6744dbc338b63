//! Audits of devices: what one's steps make of its plan is what it has, and what another of that plan has only where that is the same.

use crate::closures::Counting;
use crate::scene::{Counters, behind, counters, device, told};
use ctl_script::{Audited, compared};
use device_state::{Device, Scratch, audit};
use std::alloc::{AllocError, Global};

// Scripts whose commands are accepted. Those with the same number in front make the same of the plan.
type Past = (u32, &'static str);

const PASTS: &[Past] = &[
    (0, ""),
    // a file handle that is closed counts no more, nor a grab that is let go
    (0, "open f 1\nclose f"),
    (0, "open f 1\nsub f red initial\nclose f"),
    (0, "grab red on\ngrab red off"),
    // one that is open counts by its id, and not by its handler; asks that are no steps, and sets that put back what they found, don't
    (1, "open f 1"),
    (1, "open f 0"),
    (1, "open f 1\nget f cur red"),
    (1, "open f 1\nset f cur red=5 button=1\nset f cur red=128"),
    (2, "open f 1\nopen g 1"),
    (3, "open f 1\nclose f\nopen g 1"),
    (4, "open f 1\nopen g 1\nclose f"),
    (5, "open f 1\nset f cur red=200"),
    (5, "open f 1\nset f cur red=5\nset f cur red=200"),
    (6, "open f 1\nset f cur blue=200"),
    // the validator lessens the gain
    (7, "open f 1\nset f cur gain=250"),
    (7, "open f 1\nset f cur gain=200"),
    (8, "open f 1\nset f cur autogain=0"),
    // a grab is a flag
    (9, "grab red on"),
    (10, "grab blue on"),
    // a request is there, asks for something, waits, runs, and is complete
    (11, "open f 1\nalloc r"),
    (12, "open f 1\nalloc r\nset f req:r red=200"),
    (11, "open f 1\nalloc r\nset f req:r red=200\nreinit r"),
    (13, "open f 1\nalloc r\nbuffer r 7"),
    (
        14,
        "open f 1\nalloc r\nset f req:r red=200\nbuffer r 7\nqueue r",
    ),
    (
        15,
        "open f 1\nalloc r\nset f req:r red=200\nbuffer r 7\nqueue r\nbegin",
    ),
    (
        16,
        "open f 1\nalloc r\nset f req:r red=200\nbuffer r 7\nqueue r\nbegin\ncomplete",
    ),
    (
        17,
        "open f 1\nalloc r\nset f req:r red=200\nbuffer r 7\nqueue r\ncancel r",
    ),
    // what a begin applied of a request that asks for the default doesn't count: of a complete one, which began or was cancelled, nor of a running one
    (
        31,
        "open f 1\nalloc r\nset f req:r red=128\nbuffer r 7\nqueue r\nbegin\ncomplete",
    ),
    (
        31,
        "open f 1\nalloc r\nset f req:r red=128\nbuffer r 7\nqueue r\ncancel r",
    ),
    (
        32,
        "open f 1\nalloc r\nset f req:r red=128\nbuffer r 7\nqueue r\nbegin",
    ),
    (
        32,
        "open f 1\nalloc r\nset f req:r red=128\nbuffer r 7\nqueue r\ngrab red on\nbegin\ngrab red off",
    ),
    // in the snapshot it does: these differ in it alone
    (
        33,
        "open f 1\nalloc r\nset f req:r red=128\nbuffer r 7\nqueue r\nbegin\nset f cur red=200\ncomplete",
    ),
    (
        34,
        "open f 1\nalloc r\nset f req:r red=128\nbuffer r 7\nqueue r\ngrab red on\nbegin\ngrab red off\nset f cur red=200\ncomplete",
    ),
    // subscriptions alone don't count
    (
        1,
        "open f 1\nsub f brightness feedback\nsub f power feedback\nsub f button feedback\nsub f red feedback\nsub f blue feedback\nsub f autogain feedback\nsub f gain feedback\nsub f hflip feedback\nsub f vflip feedback",
    ),
    (
        1,
        "open f 1\nsub f red\nset f cur red=5\nunsub f red\nset f cur red=128",
    ),
    // an event waits, of this control or another
    (18, "open f 1\nsub f red initial"),
    (
        18,
        "open f 1\nsub f blue\nsub f red\nunsub f red\nsub f red initial feedback",
    ),
    (19, "open f 1\nsub f blue initial"),
    // what it tells is another value
    (
        20,
        "open f 1\nset f cur red=200\nsub f red initial\nset f cur red=128",
    ),
    // two, in either order
    (21, "open f 1\nsub f red initial\nsub f blue initial"),
    (22, "open f 1\nsub f blue initial\nsub f red initial"),
    // one was raised before, and is gone
    (23, "open f 1\nsub f red initial\ntake f"),
    (23, "open f 1\nsub f blue initial\ntake f"),
    (23, "open f 1\nsub f red initial\nunsub f red"),
    // two were
    (
        24,
        "open f 1\nsub f red initial\nsub f blue initial\ntake f\ntake f",
    ),
    (
        24,
        "open f 1\nsub f red feedback\nset f cur red=5\nset f cur red=128\ntake f",
    ),
    // the second of two waits, and tells of its value and flags, or of its value alone
    (
        25,
        "open f 1\nsub f blue initial\nsub f red initial\ntake f",
    ),
    (
        26,
        "open f 1\nsub f red feedback\nset f cur red=5\nset f cur red=128",
    ),
    // it waits for one of two file handles
    (27, "open f 1\nopen g 1\nsub f red initial"),
    (28, "open f 1\nopen g 1\nsub g red initial"),
    (
        29,
        "open f 1\nopen g 1\nsub f red\nsub g red\nset f cur red=200",
    ),
    (
        30,
        "open f 1\nopen g 1\nsub f red\nsub g red\nset g cur red=200",
    ),
];

// The device behind a script, none of whose commands is refused.
fn after(alloc: Global, counters: &Counters, script: &str) -> Result<Device<Counting>, AllocError> {
    let device = device(alloc, counters)?;
    let (device, printed) = behind(alloc, device, script.as_bytes())?;
    match str::from_utf8(printed.as_slice()) {
        Ok(replies) if !replies.contains("error") => Ok(device),
        _ => Err(AllocError),
    }
}

fn devices(
    alloc: Global,
    counters: &Counters,
    pasts: &[Past],
) -> Result<Vec<Device<Counting>>, AllocError> {
    let mut devices = Vec::with_capacity(alloc, pasts.len())?;
    for past in pasts {
        devices.push(after(alloc, counters, past.1)?)?;
    }
    Ok(devices)
}

// What the steps of a device make of its plan.
fn audited(alloc: Global, device: &Device<Counting>) -> Result<Scratch, AllocError> {
    match audit(alloc, device.plan(), device.steps()) {
        Ok(scratch) => Ok(scratch),
        Err(_) => Err(AllocError),
    }
}

// The first past, by its place, with whose device an audit agrees and shouldn't, or the other way round.
fn wrong_about(
    scratch: &Scratch,
    number: u32,
    pasts: &[Past],
    devices: &[Device<Counting>],
) -> Option<usize> {
    for (place, (past, device)) in pasts.iter().zip(devices).enumerate() {
        let is_same = !matches!(compared(device, scratch), Audited::Differs);
        if is_same != (number == past.0) {
            return Some(place);
        }
    }
    None
}

// The first two of the pasts, by their places, of which an audit of the one is wrong about the other.
fn mistaken(
    alloc: Global,
    pasts: &[Past],
    devices: &[Device<Counting>],
) -> Result<Option<(usize, usize)>, AllocError> {
    for (place, (past, device)) in pasts.iter().zip(devices).enumerate() {
        let scratch = audited(alloc, device)?;
        if let Some(other) = wrong_about(&scratch, past.0, pasts, devices) {
            return Ok(Some((place, other)));
        }
    }
    Ok(None)
}

// An audit tells nobody.
#[test]
fn an_audit_agrees_with_what_is_alike(rt: HostRuntime) -> Result<(), AllocError> {
    let alloc = rt.alloc();
    let counters = counters(alloc)?;
    let devices = devices(alloc, &counters, PASTS)?;
    let before = told(&counters);
    let found = mistaken(alloc, PASTS, devices.as_slice())?;
    assert!(rt; found.is_none() && told(&counters) == before, "{found:?}");
    Ok(())
}
