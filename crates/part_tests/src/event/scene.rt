//! Control events, of which as many are raised as calls are made at most.

ghost use Rattle.std.specs.Prelude.{ℕ, ◌≤◌};
ghost use Rattle.ctrl_events.specs.Events.{events_of};

use crate::event::calls::{CH_VALUE, Call, payload};
use bitflags::Flags as FlagSet;
use ctrl_events::{Event, Events};
use ctrl_types::{Changes, Errno, FhId, SubFlags};
use std::alloc::Global;

/// The events, and how many calls were made.
#[derive(Drop)]
pub(crate) struct Scene {
    events: Events,
    calls: u32,
    ghost counted: { (j : ℕ) → (events_of events j).next ≤ calls },
}

impl Scene {
    /// No call was made.
    pub(crate) fn new(alloc: Global) -> Scene {
        Scene {
            events: Events::new(alloc),
            calls: 0,
        }
    }

    /// What a call answers: a take its event, every other nothing. ERANGE where too many calls were made.
    pub(crate) fn answer(&mut self, call: Call) -> Result<Option<Event>, Errno> {
        if self.calls == u32::MAX {
            return Err(Errno::ERANGE);
        }
        match call {
            Call::Subscribe(fh, control, flags, value) => {
                self.subscribe(fh, control, flags, CH_VALUE, value)
            }
            Call::SubscribeSaying(fh, control, flags, changes, value) => {
                self.subscribe(fh, control, flags, changes, value)
            }
            Call::Unsubscribe(fh, control) => {
                self.unsubscribe(fh, control);
                Ok(None)
            }
            Call::Raise(control, changes, value, from) => {
                self.raise(control, changes, value, from);
                Ok(None)
            }
            Call::Take(fh) => match self.take(fh) {
                Ok(event) => Ok(Some(event)),
                Err(errno) => Err(errno),
            },
            Call::Drop(fh) => {
                self.drop_fh(fh);
                Ok(None)
            }
        }
    }

    fn subscribe(
        &mut self,
        fh: u32,
        control: u32,
        flags: u32,
        changes: u32,
        value: i64,
    ) -> Result<Option<Event>, Errno> {
        if self.calls == u32::MAX {
            return Err(Errno::ERANGE);
        }
        let answer = self.events.subscribe(
            FhId(fh),
            control,
            SubFlags::from_bits_retain(flags),
            Changes::from_bits_retain(changes),
            &payload(control, value),
        );
        self.calls += 1;
        match answer {
            Ok(()) => Ok(None),
            Err(_) => Err(Errno::ENOMEM),
        }
    }

    fn raise(&mut self, control: u32, changes: u32, value: i64, from: Option<u32>) {
        if self.calls == u32::MAX {
            return;
        }
        let from = match from {
            Some(fh) => Some(FhId(fh)),
            None => None,
        };
        self.events.raise(
            control,
            Changes::from_bits_retain(changes),
            &payload(control, value),
            from,
        );
        self.calls += 1;
    }

    fn unsubscribe(&mut self, fh: u32, control: u32) {
        self.events.unsubscribe(FhId(fh), control);
    }

    fn take(&mut self, fh: u32) -> Result<Event, Errno> {
        self.events.take(FhId(fh))
    }

    fn drop_fh(&mut self, fh: u32) {
        self.events.drop_fh(FhId(fh));
    }

    /// The number of a file handle's next event.
    pub(crate) fn next_sequence(&self, fh: u32) -> u32 {
        self.events.next_sequence(FhId(fh))
    }

    /// The flags with which it is subscribed to a control.
    pub(crate) fn subscribed(&self, fh: u32, control: u32) -> Option<SubFlags> {
        self.events.subscribed(FhId(fh), control)
    }

    /// The event that waits for it at a place, with the number of its control.
    pub(crate) fn waiting(&self, fh: u32, place: usize) -> Option<(u32, Event)> {
        self.events.waiting(FhId(fh), place)
    }

    /// How many wait for it.
    pub(crate) fn pending_len(&self, fh: u32) -> usize {
        self.events.pending_len(FhId(fh))
    }

    /// Whether nothing is kept of any file handle.
    pub(crate) fn is_empty(&self) -> bool {
        self.events.is_empty()
    }

    /// Whether a file handle's events are the same in another.
    pub(crate) fn is_like(&self, other: &Scene, fh: u32) -> bool {
        self.events.is_like(&other.events, FhId(fh))
    }
}
