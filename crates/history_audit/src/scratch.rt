ghost use Rattle.std.specs.Prelude.{◌≡◌, ◌<◌, ◌↔◌, IsTrue, length, slice_get};
ghost use Rattle.std.specs.Option.{option_and_then, option_map_or};
ghost use Rattle.ctrl_clusters.specs.Moments.{parts};
ghost use Rattle.ctrl_events.specs.Events.{event_at};
ghost use Rattle.history_audit.specs.Scratch.{HasParts, events_for, flags_of_all, open_events, shown_of};

use crate::progress::Progress;
use ctrl_calls::Driver;
use ctrl_clusters::{Moment, Ranges, flags_under};
use ctrl_events::{Event, Events};
use ctrl_forecast::Board;
use ctrl_types::{CtrlValue, FhId, Flags};
use frame_queue::Frames;
use indexmap::IndexMap;
use std::marker::Model;

/// What a history makes of a device, worked out of its steps alone. Contracts see it as what it shows: the present ranges, values and flags, the
/// requests with their queue, what the queued frames will have, and, for each open file handle in the order of opening, the events that wait
/// for it and the number of its next event; and as what was replayed, from which an audit can go on.
#[derive(Drop)]
pub struct Scratch {
    // the state that the steps made; its grabs are seen in the flags alone
    made: Progress,
    // by control
    flags: Vec<Flags>,
    forecasts: Board,
}

impl Model for Scratch {
    ghost use Rattle.history_audit.specs.Scratch.{AuditedData, shown_of};

    ghost Value = { AuditedData };

    ghost view = { λ s. record { shown = shown_of s.made.state s.flags.items s.forecasts.forecasts; made = s.made } };
}

impl Scratch {
    // This state, with the flags and the forecasts that they make.
    pub(crate) fn of(made: Progress, flags: Vec<Flags>, forecasts: Board) -> Scratch
        ensures { result ≡ record { shown = shown_of made.state flags.items forecasts.forecasts; made = made } }
    {
        Scratch {
            made,
            flags,
            forecasts,
        }
    }

    /// What was replayed, from which an audit of a longer history can go on, see `go_on`. It takes no memory.
    pub fn put_aside(self) -> Progress
        ensures { result ≡ self.made }
    {
        let Scratch {
            made,
            flags: _,
            forecasts: _,
        } = self;
        made
    }

    /// The controls with their present ranges, in the order of the plan's numbers. It takes no memory.
    pub fn ranges(&self) -> &Ranges
        ensures { result.now ≡ self.now.shown.ranges }
    {
        self.made.state.controls().ranges()
    }

    /// The present values, one for each control, in the order of the plan's numbers. It takes no memory.
    pub fn values(&self) -> &[CtrlValue]
        ensures { result.now ≡ self.now.shown.values }
    {
        self.made.state.controls().values()
    }

    /// The present flags, likewise. It takes no memory.
    pub fn flags(&self) -> &[Flags]
        ensures { result.now ≡ self.now.shown.flags }
    {
        self.flags.as_slice()
    }

    /// The requests, the queue of frames, and the request whose frame is being made. It takes no memory.
    pub fn frames(&self) -> &Frames
        ensures { result.now ≡ self.now.shown.frames }
    {
        self.made.state.frames()
    }

    /// What the queued frames will have, in the order of the queue. It takes no memory.
    pub fn forecasts(&self) -> &Board
        ensures { result.now.forecasts ≡ self.now.shown.forecasts }
    {
        &self.forecasts
    }

    /// The event that waits for a file handle at a place, from 0, with the number of its control; none where fewer wait, or where the file
    /// handle isn't open. It is as it would be taken there: `pending` is the number of those that wait behind it. It takes no memory.
    pub fn waiting(&self, fh: FhId, place: usize) -> Option<(u32, Event)>
        ensures { result ≡ option_and_then (λ o. event_at o.waiting place) (events_for self.now.shown.events fh) }
    {
        self.made.waiting(fh, place)
    }

    /// The number of the next event that is raised for a file handle: how many were; 0 where it isn't open. It takes no memory.
    pub fn next_sequence(&self, fh: FhId) -> u32
        ensures { result ≡ option_map_or (λ o. o.next) (events_for self.now.shown.events fh) 0 }
    {
        self.made.next_sequence(fh)
    }

    /// Whether it has these ranges and values, the flags that they make with these grabs, these requests with their queue, the same of each queued frame, and
    /// these open file handles with the same events that wait, in the same order, and the same numbers of their next events. What a begin applied of a
    /// request, subscriptions, and the handlers of file handles are left out. It takes no memory and asks nobody.
    ///
    /// - `at`: what the device is built of, and the ranges, the values and the grabs of its controls.
    /// - `frames`: the requests, their queue, and the one whose frame is being made.
    /// - `board`: what the queued frames will have.
    /// - `file_handles`: the open file handles, each with its handler, in the order of their opening.
    /// - `events`: the events of file handles, of these and any others.
    pub fn has_parts<D: Driver>(
        &self,
        at: &Moment<D>,
        frames: &Frames,
        board: &Board,
        file_handles: &IndexMap<u32, u32>,
        events: &Events,
    ) -> bool
        ensures { IsTrue result ↔ HasParts self.now.shown at.now.plan.now (parts at.now) frames.now board.now.forecasts file_handles.now.entries events.now }
    {
        if !self.ranges().is_like(at.ranges) {
            return false;
        }
        if !are_values(self.values(), at.values) {
            return false;
        }
        if !are_flags(at, self.flags()) {
            return false;
        }
        if !self.frames().is_like(frames) {
            return false;
        }
        if !self.forecasts().is_like(board) {
            return false;
        }
        self.has_events(file_handles, events)
    }

    // Whether it has these open file handles and their events.
    fn has_events(&self, file_handles: &IndexMap<u32, u32>, events: &Events) -> bool
        ensures { IsTrue result ↔ (self.now.shown.events ≡ open_events events.now file_handles.now.entries) }
    {
        are_events(
            self.made.state.file_handles(),
            self.made.state.events(),
            file_handles,
            events,
        )
    }
}

// Whether these are the same values.
fn are_values(own: &[CtrlValue], values: &[CtrlValue]) -> bool
    ensures { IsTrue result ↔ (own.now ≡ values.now) }
{
    own == values
}

// Whether these are the flags of each control at a moment.
fn are_flags<D: Driver>(at: &Moment<D>, flags: &[Flags]) -> bool
    ensures { IsTrue result ↔ flags.now ≡ flags_of_all at.now.plan.now at.now.values.now at.now.grabs.now }
{
    let count = at.plan.control_count();
    if flags.len() != count as usize {
        return false;
    }
    for control in 0..count {
        if !are_equal(flags[control as usize], flags_under(at, control)) {
            return false;
        }
    }
    true
}

// Whether these are the same flags.
fn are_equal(one: Flags, other: Flags) -> bool
    ensures { IsTrue result ↔ (one ≡ other) }
{
    one == other
}

// Whether the file handles are the same, in the same order, and each has the same events and the same number of the next.
fn are_events(
    own_handles: &IndexMap<u32, u32>,
    own_events: &Events,
    file_handles: &IndexMap<u32, u32>,
    events: &Events,
) -> bool
    ensures { IsTrue result ↔ (open_events own_events.now own_handles.now.entries ≡ open_events events.now file_handles.now.entries) }
{
    let count = own_handles.len();
    if file_handles.len() != count {
        return false;
    }
    for place in 0..count {
        if !are_alike_at(own_handles, own_events, file_handles, events, place) {
            return false;
        }
    }
    true
}

// Whether the file handle at a place is the same, with the same events.
fn are_alike_at(
    own_handles: &IndexMap<u32, u32>,
    own_events: &Events,
    file_handles: &IndexMap<u32, u32>,
    events: &Events,
    place: usize,
) -> bool
    requires own { place < length own_handles.now.entries }
    requires others { place < length file_handles.now.entries }
    ensures { IsTrue result ↔ (slice_get (open_events own_events.now own_handles.now.entries) place ≡ slice_get (open_events events.now file_handles.now.entries) place) }
{
    match (own_handles.get_index(place), file_handles.get_index(place)) {
        (Some((own, _)), Some((other, _))) => {
            if own != other {
                return false;
            }
            own_events.is_like(events, FhId(*own))
        }
        _ => false,
    }
}
