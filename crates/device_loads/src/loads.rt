//! The loads: what is asked in a round of each.

ghost use Rattle.std.specs.Prelude.{◌<◌, ◌^◌, length};

use crate::asked::Asked;
use bitflags::Flags as FlagSet;
use ctrl_types::{CtrlId, CtrlValue, ExtControl, FhId, RequestId, SubFlags};
use device_state::{Ask, ControlList};
use std::alloc::{AllocError, Global};

/// What a round asks.
#[derive(Clone, Copy)]
pub enum Load {
    /// A set of one control.
    Sets,
    /// A set, a try and a get of eight controls.
    Lists,
    /// A set that all queued frames follow, and a frame, whose request is queued again behind the others.
    Frames,
    /// A set of two controls that eight file handles hear of, and what they take.
    Events,
}

/// The loads, with their names.
pub const LOADS: &[(Load, &str)] = &[
    (Load::Sets, "sets"),
    (Load::Lists, "lists"),
    (Load::Frames, "frames"),
    (Load::Events, "events"),
];

/// Whether a load has this name.
pub fn is_load(name: &str) -> bool {
    LOADS.iter().any(|(_, known)| *known == name)
}

const AUTOGAIN: CtrlId = CtrlId(0x0098_0912);

const GAIN: CtrlId = CtrlId(0x0098_0913);

const HFLIP: CtrlId = CtrlId(0x0098_0914);

const VFLIP: CtrlId = CtrlId(0x0098_0915);

const BRIGHTNESS: CtrlId = CtrlId(0x0098_0900);

const POWER: CtrlId = CtrlId(0x0098_0918);

const RED: CtrlId = CtrlId(0x0098_090e);

const BLUE: CtrlId = CtrlId(0x0098_090f);

// How many requests are queued, and how many file handles are subscribed.
const QUEUED: u32 = 64;

const LISTENERS: u32 = 8;

/// Opens the file handles, all but the first of which are subscribed to what events tell of, and queues the requests.
pub fn prepare<A: Asked>(alloc: Global, device: &mut A) -> Result<(), AllocError> {
    for fh in 0..=LISTENERS {
        device.ask(&Ask::OpenFh { handler: 1 });
        if fh > 0 {
            device.ask(&subscription(FhId(fh), BRIGHTNESS));
            device.ask(&subscription(FhId(fh), POWER));
        }
    }
    for number in 0..QUEUED {
        if let Some(request) = device.new_request() {
            queue(alloc, device, request, &filling(number))?;
        }
    }
    Ok(())
}

/// Makes the asks of a round, and answers how many were refused.
pub fn play<A: Asked>(
    alloc: Global,
    device: &mut A,
    load: Load,
    round: u32,
) -> Result<u32, AllocError> {
    match load {
        Load::Sets => set(alloc, device, &[entry(RED, round % 200)]),
        Load::Lists => lists(alloc, device, round),
        Load::Frames => frame(alloc, device, round),
        Load::Events => events(alloc, device, round),
    }
}

/// Sets a control that nothing depends on, until so many steps are kept, or no further step is.
pub fn fill<A: Asked>(alloc: Global, device: &mut A, steps: u32) -> Result<(), AllocError> {
    for round in 0..steps {
        if device.step_count() >= steps as usize {
            return Ok(());
        }
        set(alloc, device, &[entry(HFLIP, round % 2)])?;
    }
    Ok(())
}

fn subscription(fh: FhId, id: CtrlId) -> Ask {
    let flags = SubFlags::empty();
    Ask::Subscribe { fh, id, flags }
}

/// An entry of a list.
pub fn entry(id: CtrlId, value: u32) -> ExtControl {
    let value = CtrlValue::Number(i64::from(value));
    ExtControl { id, value }
}

/// A list of these entries.
pub fn list(alloc: Global, entries: &[ExtControl]) -> Result<ControlList, AllocError>
    requires { length entries.now < 2 ^ 32 }
{
    Ok(ControlList::from_vec(Vec::from_slice(alloc, entries)?))
}

/// A set of present values by the first file handle.
pub fn set_of(list: ControlList) -> Ask {
    Ask::SetCtrls {
        fh: FhId(0),
        which: 0,
        request: None,
        list,
    }
}

// Sets controls, and answers how many asks were refused.
fn set<A: Asked>(alloc: Global, device: &mut A, entries: &[ExtControl]) -> Result<u32, AllocError>
    requires { length entries.now < 2 ^ 32 }
{
    Ok(device.ask(&set_of(list(alloc, entries)?)))
}

fn lists<A: Asked>(alloc: Global, device: &mut A, round: u32) -> Result<u32, AllocError> {
    let entries = [
        entry(AUTOGAIN, round % 2),
        entry(GAIN, round % 256),
        entry(RED, round % 200),
        entry(BLUE, round % 180),
        entry(HFLIP, round % 2),
        entry(VFLIP, 1),
        entry(BRIGHTNESS, round % 64),
        entry(POWER, round % 3),
    ];
    let (fh, which, request) = (FhId(0), 0, None);
    let unset = set(alloc, device, &entries)?;
    let untried = device.ask(&Ask::TryCtrls {
        fh,
        which,
        request,
        list: list(alloc, &entries)?,
    });
    let unread = device.ask(&Ask::GetCtrls {
        fh,
        which,
        request,
        list: list(alloc, &entries)?,
    });
    Ok(unset.saturating_add(untried).saturating_add(unread))
}

fn frame<A: Asked>(alloc: Global, device: &mut A, round: u32) -> Result<u32, AllocError> {
    let Some(request) = device.first_queued() else {
        return Ok(1);
    };
    let unset = set(alloc, device, &[entry(BLUE, round % 50)])?;
    let place = QUEUED - 1;
    let unmade = ask_each(
        device,
        &[
            Ask::Forecast { place },
            Ask::Begin,
            Ask::Complete,
            Ask::Reinit { request },
        ],
    );
    let unqueued = queue(alloc, device, request, &filling(round))?;
    Ok(unset.saturating_add(unmade).saturating_add(unqueued))
}

// What a request asks for.
fn filling(round: u32) -> [ExtControl; 2] {
    [entry(RED, round % 200), entry(GAIN, round % 256)]
}

/// Fills a request, gives it its buffer and queues it, and answers how many asks were refused.
pub fn queue<A: Asked>(
    alloc: Global,
    device: &mut A,
    request: RequestId,
    entries: &[ExtControl],
) -> Result<u32, AllocError>
    requires { length entries.now < 2 ^ 32 }
{
    let unstored = device.ask(&Ask::SetCtrls {
        fh: FhId(0),
        which: 0x0f01_0000,
        request: Some(request),
        list: list(alloc, entries)?,
    });
    let buffer = request.0;
    let unqueued = ask_each(
        device,
        &[Ask::AddBuffer { request, buffer }, Ask::Queue { request }],
    );
    Ok(unstored.saturating_add(unqueued))
}

fn events<A: Asked>(alloc: Global, device: &mut A, round: u32) -> Result<u32, AllocError> {
    let entries = [entry(BRIGHTNESS, round % 16 * 4), entry(POWER, round % 3)];
    let unset = set(alloc, device, &entries)?;
    for fh in 1..=LISTENERS {
        // an event of each control waits, unless it has that value already
        device.ask(&Ask::Take { fh: FhId(fh) });
        device.ask(&Ask::Take { fh: FhId(fh) });
    }
    Ok(unset)
}

/// Makes these asks in order, and answers how many were refused.
pub fn ask_each<A: Asked>(device: &mut A, asks: &[Ask]) -> u32 {
    let mut refused = 0u32;
    for ask in asks {
        refused = refused.saturating_add(device.ask(ask));
    }
    refused
}
