//! Asks of one kind, at a device of any size.

use crate::asked::Asked;
use crate::loads::{ask_each, entry, list, queue, set_of};
use bitflags::Flags as FlagSet;
use ctrl_calls::Driver;
use ctrl_handlers::{Plan, PlanBuilder, PlanFault};
use ctrl_settle::Ctrl;
use ctrl_types::{CtrlId, ExtControl, FhId, Flags, Kind, SubFlags};
use device_state::Ask;
use std::alloc::{AllocError, Global};

/// What a round asks. A set gives the values 0 and 1 in turn, where nothing else is said. The near control is the first, which the queued
/// requests name; the far one is the last, which no request names where there are two controls.
#[derive(Clone, Copy)]
pub enum Mode {
    /// A set of the far control.
    SetFar,
    /// A set of the near one.
    SetNear,
    /// A get of the far one.
    Get,
    /// A set of the first four.
    SetFour,
    /// A try of the far one.
    Try,
    /// What the far one is like.
    Query,
    /// A set of the far one, and what the first file handle takes.
    SetAndTake,
    /// The word of cluster 0 or 1.
    Told,
    /// A frame, whose request is queued again behind the others.
    Frame,
    /// The far one is grabbed, or let go.
    Grab,
    /// A set of the far one, and what each file handle takes.
    SetAndTakeAll,
    /// Another maximum of the far one.
    Range,
    /// As `SetNear`, of values that no request has, where each asks for another.
    SetApart,
}

/// The modes, by their numbers.
const MODES: &[Mode] = &[
    Mode::SetFar,
    Mode::SetNear,
    Mode::Get,
    Mode::SetFour,
    Mode::Try,
    Mode::Query,
    Mode::SetAndTake,
    Mode::Told,
    Mode::Frame,
    Mode::Grab,
    Mode::SetAndTakeAll,
    Mode::Range,
    Mode::SetApart,
];

// The first four of the sample device are hflip, brightness, power and vflip; the last, the far one, is its control 3.
const SAMPLE_IDS: &[u32] = &[0x0098_0914, 0x0098_0900, 0x0098_0918, 0x0098_0915];

const SAMPLE_FAR: u32 = 3;

/// What is asked, how often, and at which device.
#[derive(Clone, Copy)]
pub struct Asks {
    /// The number of the mode.
    pub number: u32,
    mode: Mode,
    // 0 for the sample device
    controls: u32,
    handlers: u32,
    file_handles: u32,
    // to how many controls each file handle is subscribed
    subscriptions: u32,
    queued: u32,
    /// How many rounds there are.
    pub rounds: u32,
}

impl Asks {
    /// What seven words say: the number of a mode, and how many controls, handlers, open file handles, subscriptions of each, queued
    /// requests and rounds there are. None where they say anything else.
    pub fn read(words: &[String]) -> Option<Asks> {
        let [
            number,
            controls,
            handlers,
            file_handles,
            subscriptions,
            queued,
            rounds,
        ] = words
        else {
            return None;
        };
        let number = number.parse::<u32>().ok()?;
        Some(Asks {
            number,
            mode: MODES.get(number as usize).copied()?,
            controls: controls.parse::<u32>().ok()?,
            handlers: handlers.parse::<u32>().ok()?,
            file_handles: file_handles.parse::<u32>().ok()?,
            subscriptions: subscriptions.parse::<u32>().ok()?,
            queued: queued.parse::<u32>().ok()?,
            rounds: rounds.parse::<u32>().ok()?,
        })
    }

    /// Whether they are asked of the sample device.
    pub fn is_sample(&self) -> bool {
        self.controls == 0
    }

    /// A plan of INTEGER controls, which the handlers have in turn, and of handlers that each show what the one before shows, too.
    pub fn plan<D: Driver>(&self, alloc: Global) -> Result<Plan<D>, PlanFault> {
        let mut builder = PlanBuilder::new(alloc);
        for _ in 0..self.handlers {
            builder.handler()?;
        }
        let mut handler = 0u32;
        for control in 0..self.controls {
            builder.control(handler, control_of(self.id(control))?)?;
            handler = handler.saturating_add(1);
            if handler >= self.handlers {
                handler = 0;
            }
        }
        for handler in 1..self.handlers {
            builder.add_handler(handler, handler.saturating_sub(1))?;
        }
        match builder.finish() {
            Ok(plan) => Ok(plan),
            Err((_, fault)) => Err(fault),
        }
    }

    /// Opens the file handles on the last handler, subscribes them to what their own sets raise, too, and queues the requests.
    pub fn prepare<A: Asked>(&self, alloc: Global, device: &mut A) -> Result<(), AllocError> {
        let handler = match self.is_sample() {
            true => 1,
            false => self.handlers.saturating_sub(1),
        };
        for _ in 0..self.file_handles {
            device.ask(&Ask::OpenFh { handler });
        }
        for fh in 0..self.file_handles {
            for control in 0..self.subscriptions {
                device.ask(&Ask::Subscribe {
                    fh: FhId(fh),
                    id: self.id(control),
                    flags: SubFlags::ALLOW_FEEDBACK,
                });
            }
        }
        for number in 0..self.queued {
            if let Some(request) = device.new_request() {
                queue(alloc, device, request, &[self.asked_by(number)])?;
            }
        }
        Ok(())
    }

    /// Makes the rounds, and answers how many asks were refused.
    pub fn play<A: Asked>(&self, alloc: Global, device: &mut A) -> Result<u32, AllocError> {
        let (even, odd) = (self.ask(alloc, 1)?, self.ask(alloc, 0)?);
        let mut refused = 0u32;
        for round in 0..self.rounds {
            let ask = match round % 2 {
                0 => &even,
                _ => &odd,
            };
            let more = match self.mode {
                Mode::Frame => self.frame(alloc, device, round)?,
                Mode::SetAndTake => device.ask(ask).saturating_add(take_all(device, 1)),
                Mode::SetAndTakeAll => {
                    let unset = device.ask(ask);
                    unset.saturating_add(take_all(device, self.file_handles))
                }
                _ => device.ask(ask),
            };
            refused = refused.saturating_add(more);
        }
        Ok(refused)
    }

    // What is asked in every second round; of a frame only that it begins.
    fn ask(&self, alloc: Global, value: u32) -> Result<Ask, AllocError> {
        let (fh, which, request) = (FhId(0), 0, None);
        let far = [entry(self.id(self.far()), value)];
        Ok(match self.mode {
            Mode::SetFar | Mode::SetAndTake | Mode::SetAndTakeAll => set_of(list(alloc, &far)?),
            Mode::SetNear => set_of(list(alloc, &[entry(self.id(0), value)])?),
            Mode::SetApart => {
                let value = value.saturating_add(64);
                set_of(list(alloc, &[entry(self.id(0), value)])?)
            }
            Mode::SetFour => set_of(list(
                alloc,
                &[
                    entry(self.id(0), value),
                    entry(self.id(1), value),
                    entry(self.id(2), value),
                    entry(self.id(3), value),
                ],
            )?),
            Mode::Get => Ask::GetCtrls {
                fh,
                which,
                request,
                list: list(alloc, &far)?,
            },
            Mode::Try => Ask::TryCtrls {
                fh,
                which,
                request,
                list: list(alloc, &far)?,
            },
            Mode::Query => Ask::Query {
                fh,
                id: self.id(self.far()),
            },
            Mode::Told => Ask::Told { cluster: value },
            Mode::Frame => Ask::Begin,
            Mode::Grab => Ask::Grab {
                control: self.far(),
                on: value == 1,
            },
            Mode::Range => Ask::ModifyRange {
                control: self.far(),
                min: 0,
                max: i64::from(value).saturating_add(100),
                step: 1,
                default_value: 16,
            },
        })
    }

    // Begins and ends a frame, and queues its request again; answers how many asks were refused.
    fn frame<A: Asked>(
        &self,
        alloc: Global,
        device: &mut A,
        round: u32,
    ) -> Result<u32, AllocError> {
        let Some(request) = device.first_queued() else {
            return Ok(1);
        };
        let unmade = ask_each(
            device,
            &[Ask::Begin, Ask::Complete, Ask::Reinit { request }],
        );
        let unqueued = queue(alloc, device, request, &[entry(self.id(0), round % 2)])?;
        Ok(unmade.saturating_add(unqueued))
    }

    // What the request with this number asks for.
    fn asked_by(&self, number: u32) -> ExtControl {
        let value = match self.mode {
            Mode::SetApart => number % 63,
            _ => number % 2,
        };
        entry(self.id(0), value)
    }

    // The id of a control; they are numbered anew behind the last.
    fn id(&self, control: u32) -> CtrlId {
        match self.controls {
            0 => CtrlId(SAMPLE_IDS.get(control as usize % 4).copied().unwrap_or(0)),
            controls => CtrlId(0x0098_0900 + control % controls % 0x1_0000),
        }
    }

    // The number of the far control.
    fn far(&self) -> u32 {
        match self.controls {
            0 => SAMPLE_FAR,
            controls => controls.saturating_sub(1),
        }
    }
}

fn control_of(id: CtrlId) -> Result<Ctrl, PlanFault> {
    Ctrl::new(id, Kind::Integer, 0, 255, 1, 16, 0, Flags::empty(), false).map_err(
        |_| PlanFault::Limit,
    )
}

// Has the first file handles take an event, and answers how many had none.
fn take_all<A: Asked>(device: &mut A, file_handles: u32) -> u32 {
    let mut refused = 0u32;
    for fh in 0..file_handles {
        refused = refused.saturating_add(device.ask(&Ask::Take { fh: FhId(fh) }));
    }
    refused
}
