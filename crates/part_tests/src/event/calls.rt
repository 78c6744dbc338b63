//! Calls about events, and looks at them.

use crate::event::scene::Scene;
use bitflags::Flags as FlagSet;
use ctrl_events::{Event, Payload};
use ctrl_types::{Changes, CtrlId, Errno, Flags, Kind, SubFlags};

/// What an event at once says where a call doesn't.
pub(crate) const CH_VALUE: u32 = 1;

/// A call. Flags and changes stand as bits, and a payload as the control's value.
#[derive(Clone, Copy)]
pub(crate) enum Call {
    /// A file handle, a control, the flags, and the value of an event at once, which says that it changed.
    Subscribe(u32, u32, u32, i64),
    /// A file handle, a control, the flags, and what an event at once says that changed, with its value.
    SubscribeSaying(u32, u32, u32, u32, i64),
    /// A file handle and a control.
    Unsubscribe(u32, u32),
    /// A control, what changed, its value, and the file handle that it comes from.
    Raise(u32, u32, i64, Option<u32>),
    /// A file handle.
    Take(u32),
    /// A file handle.
    Drop(u32),
}

/// What an event tells.
#[derive(Clone, Copy)]
pub(crate) struct Told {
    pub(crate) control: u32,
    pub(crate) changes: u32,
    pub(crate) value: i64,
    pub(crate) sequence: u32,
    pub(crate) pending: u32,
}

/// A look.
#[derive(Clone, Copy)]
pub(crate) enum Look {
    /// What waits for a file handle, in order.
    Waits(u32, &'static [Told]),
    /// The number of its next event.
    Next(u32, u32),
    /// The flags with which it is subscribed to a control.
    Subscribed(u32, u32, Option<u32>),
    /// Whether nothing is kept of any file handle.
    Empty(bool),
}

/// What is told of a control that has a value, whose range goes with it.
pub(crate) fn payload(control: u32, value: i64) -> Payload {
    Payload {
        id: CtrlId(control),
        kind: Kind::Menu,
        value,
        flags: Flags::UPDATE,
        minimum: value.wrapping_sub(3),
        maximum: value.wrapping_add(9),
        step: 2,
        default_value: value.wrapping_add(1),
    }
}

/// The event that tells it.
pub(crate) fn event(told: Told) -> Event {
    Event {
        id: CtrlId(told.control),
        kind: Kind::Menu,
        changes: Changes::from_bits_retain(told.changes),
        value: told.value,
        flags: Flags::UPDATE,
        minimum: told.value.wrapping_sub(3),
        maximum: told.value.wrapping_add(9),
        step: 2,
        default_value: told.value.wrapping_add(1),
        sequence: told.sequence,
        pending: told.pending,
    }
}

/// Whether an answer is what is wanted: the event that a take answers, or nothing.
pub(crate) fn is_wanted(
    answer: Result<Option<Event>, Errno>,
    want: Result<Option<Told>, Errno>,
) -> bool {
    match want {
        Ok(Some(told)) => answer == Ok(Some(event(told))),
        Ok(None) => answer == Ok(None),
        Err(errno) => answer == Err(errno),
    }
}

/// Whether a look shows what it says.
pub(crate) fn shows(scene: &Scene, look: Look) -> bool {
    match look {
        Look::Waits(fh, all) => waits(scene, fh, all),
        Look::Next(fh, number) => scene.next_sequence(fh) == number,
        Look::Subscribed(fh, control, flags) => match (scene.subscribed(fh, control), flags) {
            (Some(own), Some(bits)) => own == SubFlags::from_bits_retain(bits),
            (None, None) => true,
            _ => false,
        },
        Look::Empty(is_empty) => scene.is_empty() == is_empty,
    }
}

// Whether just these events wait for a file handle, in this order.
fn waits(scene: &Scene, fh: u32, all: &[Told]) -> bool {
    for (place, told) in all.iter().enumerate() {
        if scene.waiting(fh, place) != Some((told.control, event(*told))) {
            return false;
        }
    }
    scene.pending_len(fh) == all.len() && scene.waiting(fh, all.len()).is_none()
}
