//! File handles that are subscribed to the events of controls.

ghost use Rattle.std.specs.Prelude.{ℕ, ◌≡◌, ◌<◌, ◌≤◌, ◌+◌, length};
ghost use Rattle.ctrl_events.specs.Events.{events_of};

use crate::raise::planning::Silent;
use bitflags::Flags as FlagSet;
use ctrl_clusters::{Change, Moment};
use ctrl_events::{Event, Events, Payload};
use ctrl_raises::{raise_between, raise_range, raise_within};
use ctrl_settle::Ctrl;
use ctrl_types::{Changes, CtrlId, CtrlValue, Errno, FhId, Flags, Kind, Pair, SubFlags};
use std::alloc::Global;
use std::test::Fail;

// What a subscription would tell at once; none of these does.
const UNTOLD: Payload = Payload {
    id: CtrlId(0),
    kind: Kind::Integer,
    value: 0,
    flags: Flags::READ_ONLY,
    minimum: 0,
    maximum: 0,
    step: 0,
    default_value: 0,
};

// A file handle, a control, and the flags of its subscription: 0 has all without feedback, 1 all with it, 2 one without.
const SUBSCRIBED: &[(u32, u32, u32)] = &[
    (0, 0, 0),
    (0, 1, 0),
    (0, 2, 0),
    (0, 3, 0),
    (0, 4, 0),
    (1, 0, 2),
    (1, 1, 2),
    (1, 2, 2),
    (1, 3, 2),
    (1, 4, 2),
    (2, 3, 0),
];

// The most subscriptions.
const MOST: u32 = 100;

/// The events of file handles, and how many subscriptions were made.
#[derive(Drop)]
pub(crate) struct Listeners {
    events: Events,
    calls: u32,
    ghost counted: { (j : ℕ) → (events_of events j).next ≤ calls },
}

impl Listeners {
    fn new(alloc: Global) -> Listeners {
        Listeners {
            events: Events::new(alloc),
            calls: 0,
        }
    }

    fn subscribe(&mut self, fh: u32, control: u32, flags: u32) -> Result<(), Fail> {
        if self.calls >= MOST {
            return Err(Fail::new("a few subscriptions"));
        }
        let flags = SubFlags::from_bits_retain(flags);
        let answer = self
            .events
            .subscribe(FhId(fh), control, flags, Changes::CH_VALUE, &UNTOLD);
        self.calls += 1;
        match answer {
            Ok(()) => Ok(()),
            Err(_) => Err(Fail::new("memory")),
        }
    }

    /// The three file handles.
    pub(crate) fn subscribed(alloc: Global) -> Result<Listeners, Fail> {
        let mut listeners = Listeners::new(alloc);
        for &(fh, control, flags) in SUBSCRIBED {
            listeners.subscribe(fh, control, flags)?;
        }
        Ok(listeners)
    }

    /// The events once what changes between two moments is raised.
    pub(crate) fn raised(
        self,
        change: &Change<Silent>,
        pairs: &[Pair],
        from: Option<FhId>,
    ) -> Result<Events, Fail> {
        if self.calls > MOST || change.before.plan.control_count() > MOST {
            return Err(Fail::new("a few controls"));
        }
        let mut events = self.events;
        raise_between(change, pairs, from, &mut events);
        Ok(events)
    }

    /// The same, where the four clusters of the plan are looked at.
    pub(crate) fn raised_within(
        self,
        change: &Change<Silent>,
        pairs: &[Pair],
        from: Option<FhId>,
    ) -> Result<Events, Fail> {
        let plan = change.before.plan;
        if self.calls > MOST || plan.control_count() > MOST || plan.cluster_count() != 4 {
            return Err(Fail::new("four clusters of a few controls"));
        }
        let mut events = self.events;
        raise_of_four(change, pairs, from, &mut events);
        Ok(events)
    }

    /// The events once what another range and another value of one control change is raised.
    pub(crate) fn range_raised(
        self,
        after: &Moment<Silent>,
        control: u32,
        old: &Ctrl,
        old_value: &CtrlValue,
    ) -> Result<Events, Fail>
        requires { control < length after.now.plan.now.controls }
    {
        if self.calls > MOST || after.plan.control_count() > MOST {
            return Err(Fail::new("a few controls"));
        }
        let mut events = self.events;
        raise_range(after, control, old, old_value, &mut events);
        Ok(events)
    }
}

// Raises what changes, where each of the plan's four clusters is looked at.
fn raise_of_four(change: &Change<Silent>, pairs: &[Pair], from: Option<FhId>, events: &mut Events)
    requires numbers { (j : ℕ) → (events_of events.old j).next + length change.now.before.plan.now.controls ≤ 4294967295 }
    requires four { length change.now.before.plan.now.clusters ≡ 4 }
{
    raise_within(change, pairs, from, &[3, 0, 2, 1], events);
}

/// Whether the same waits for each file handle.
pub(crate) fn are_alike(events: &Events, others: &Events) -> bool {
    for fh in 0..3 {
        if !events.is_like(others, FhId(fh)) {
            return false;
        }
    }
    true
}

/// What an event tells: the control's number, the changes, the value and the flags.
pub(crate) type Told = (u32, u32, i64, u32);

fn tells(event: &Event, first: u32, told: Told) -> bool {
    let (control, changes, value, flags) = told;
    event.id.0 == first.wrapping_add(control)
        && event.changes.bits() == changes
        && event.value == value
        && event.flags.bits() == flags
}

/// Whether a file handle, for which none was raised before, takes just these, which are of controls whose ids begin at `first`.
pub(crate) fn takes(events: &mut Events, fh: u32, first: u32, all: &[Told]) -> bool {
    let mut left = all.len();
    for (place, &told) in all.iter().enumerate() {
        left = left.wrapping_sub(1);
        match events.take(FhId(fh)) {
            Ok(event) => {
                if !tells(&event, first, told)
                    || event.sequence as usize != place
                    || event.pending as usize != left
                {
                    return false;
                }
            }
            Err(_) => return false,
        }
    }
    events.take(FhId(fh)) == Err(Errno::ENOENT)
}
