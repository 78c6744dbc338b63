ghost use Rattle.std.specs.Prelude.{◌≡◌, ◌↔◌, ◌<◌, ◌≤◌, ℕ, true, false, Some, length, get_or, is_some, slice_get, IsTrue, OnOk, OnErr, if◌then◌else◌};
ghost use Rattle.std.specs.Option.{option_map};
ghost use Rattle.ctrl_events.specs.Order.{has, logged, entry_number};
ghost use Rattle.ctrl_events.specs.Queue.{no_flags, no_latest, waiting_from, event_to, events_to, changes_before, HasGrown};
ghost use Rattle.ctrl_events.specs.Heard.{IsHeard};
ghost use Rattle.ctrl_events.specs.Events.{no_events, flags_in, event_of, event_at, raised, with_subscription, after_subscribe, after_unsubscribe, first_waiting, after_take, reaches, WaitsForSubscribed};

use crate::event::{Event, Latest, Payload};
use crate::marks::mark_all;
use crate::order::{Order, next_entry, number_at};
use bitflags::Flags;
use ctrl_types::{Changes, Check, SubFlags};
use std::alloc::{AllocError, Global};
use std::marker::Model;

/// The subscriptions of a file handle, the events that wait for it, in the order of their last raises, and the number of the next. Both are
/// orders of controls; the flags of a subscription and what was raised last of a control stand at its number. There is room for an event of
/// each subscription, so that a raise needs no memory; a raise, a take and the end of a subscription take a few steps each in the mean, however
/// many wait.
#[derive(Drop)]
pub(crate) struct Queue {
    subscribed: Order,
    flags: Vec<SubFlags>,
    waiting: Order,
    latest: Vec<Latest>,
    next: u32,
}

impl Model for Queue {
    ghost use Rattle.ctrl_events.specs.Events.{FileEvents};
    ghost use Rattle.ctrl_events.specs.Queue.{subscriptions, events_to, IsQueue};

    ghost Value = { FileEvents };

    ghost view = { λ q. record { subscribed = subscriptions q.flags.items q.subscribed.members; waiting = events_to q.latest.items q.waiting.members; next = q.next } };

    ghost invariant = { λ q. IsQueue q.subscribed.members q.flags.items q.latest.items q.waiting.members q.waiting.bound q.waiting.room q.next };
}

impl Queue {
    /// Nothing is subscribed. It takes no memory.
    pub(crate) fn new(alloc: Global) -> Queue
        ensures { result ≡ no_events }
    {
        Queue {
            subscribed: Order::new(alloc),
            flags: Vec::new(alloc),
            waiting: Order::new(alloc),
            latest: Vec::new(alloc),
            next: 0,
        }
    }

    /// The flags of the subscription to a control.
    pub(crate) fn flags_of(&self, control: u32) -> Option<SubFlags>
        ensures { result ≡ flags_in self.now.subscribed control }
    {
        if !self.subscribed.contains(control) {
            return None;
        }
        Some(self.flags[control as usize])
    }

    /// How many events wait.
    pub(crate) fn len(&self) -> usize
        ensures waiting { result ≡ length self.now.waiting }
        ensures kept { WaitsForSubscribed self.now }
    {
        self.waiting.len()
    }

    /// The number of the next event.
    pub(crate) fn next(&self) -> u32
        ensures { result ≡ self.now.next }
    {
        self.next
    }

    /// The event that waits at a place, with the number of its control, as it would be taken there.
    pub(crate) fn event_at(&self, place: usize) -> Option<(u32, Event)>
        ensures { result ≡ event_at self.now.waiting place }
    {
        // No more wait than were raised, so that their number fits.
        let _raised = self.next;
        match self.waiting.nth(place) {
            Some(control) => {
                let behind = self.waiting.len() - place - 1;
                Some((
                    control,
                    event_of(behind as u32, &self.latest[control as usize]),
                ))
            }
            None => None,
        }
    }

    /// Whether the same events wait for another.
    pub(crate) fn waits_like(&self, other: &Queue) -> bool
        ensures { IsTrue result ↔ (self.now.waiting ≡ other.now.waiting) }
    {
        are_alike(
            self.waiting.entries(),
            self.latest.as_slice(),
            other.waiting.entries(),
            other.latest.as_slice(),
        )
    }

    /// Subscribes to a control, where it isn't subscribed yet, and makes room for its event. The error is that a growth was refused.
    pub(crate) fn subscribe(
        &mut self,
        control: u32,
        flags: SubFlags,
        changes: Changes,
        payload: &Payload,
    ) -> Result<(), AllocError>
        requires { self.old.next < 4294967295 }
        ensures ok { OnOk result (self.new ≡ after_subscribe control flags changes payload.now self.old) }
        ensures err { OnErr result (self.new ≡ self.old) }
    {
        if self.flags_of(control).is_some() {
            return Ok(());
        }
        self.add(control, flags, payload)?;
        if flags.intersects(SubFlags::SEND_INITIAL) {
            self.put(control, changes, payload);
        }
        Ok(())
    }

    // Adds a subscription to a control that has none, with room for its event.
    fn add(&mut self, control: u32, flags: SubFlags, payload: &Payload) -> Result<(), AllocError>
        requires { is_some (flags_in self.old.subscribed control) ≡ false }
        ensures ok { OnOk result (self.new ≡ with_subscription control flags self.old) }
        ensures there { OnOk result (is_some (flags_in self.new.subscribed control) ≡ true) }
        ensures err { OnErr result (self.new ≡ self.old) }
    {
        let fits = self.subscribed.len() + 1;
        self.subscribed.reserve(control, fits)?;
        self.waiting.reserve(control, fits)?;
        make_room(&mut self.flags, &mut self.latest, control, payload)?;
        self.flags[control as usize] = flags;
        self.subscribed.push(control);
        Ok(())
    }

    /// Ends the subscription to a control, and drops what waits of it.
    pub(crate) fn unsubscribe(&mut self, control: u32)
        ensures { self.new ≡ after_unsubscribe control self.old }
    {
        let _ = self.subscribed.remove(control);
        let _ = self.waiting.remove(control);
    }

    /// Takes the first event that waits, where one does.
    pub(crate) fn take(&mut self) -> Result<Event, Check>
        ensures answer { result ≡ first_waiting self.old.waiting }
        ensures events { self.new ≡ after_take self.old }
    {
        match self.waiting.take_first() {
            Some(control) => Ok(event_of(
                self.waiting.len() as u32,
                &self.latest[control as usize],
            )),
            None => Err(Check::NoEventWaits),
        }
    }

    /// Raises an event of a control, which is the file handle's own or another's, where it reaches the file handle. It tells whether the file
    /// handle is subscribed to the control.
    pub(crate) fn raise(
        &mut self,
        control: u32,
        changes: Changes,
        payload: &Payload,
        is_own: bool,
    ) -> bool
        requires { self.old.next < 4294967295 }
        ensures answer { result ≡ is_some (flags_in self.old.subscribed control) }
        ensures events { self.new ≡ (if reaches is_own (flags_in self.old.subscribed control) then raised control changes payload.now self.old else self.old) }
    {
        let flags = self.flags_of(control);
        if is_reached(flags, is_own) {
            self.put(control, changes, payload);
        }
        flags.is_some()
    }

    /// Marks a place for each control that is subscribed and of which there are marks.
    pub(crate) fn mark(&self, heard: &mut Vec<u64>, place: usize)
        ensures marked { (c : ℕ) → is_some (flags_in self.now.subscribed c) ≡ true → c < length heard.old.items → IsHeard heard.new.items place c }
        ensures kept { (p c : ℕ) → IsHeard heard.old.items p c → IsHeard heard.new.items p c }
    {
        mark_all(self.subscribed.entries(), heard, place);
    }

    // Has an event of a control that is subscribed wait as the last.
    fn put(&mut self, control: u32, changes: Changes, payload: &Payload)
        requires subscribed { is_some (flags_in self.old.subscribed control) ≡ true }
        requires next { self.old.next < 4294967295 }
        ensures { self.new ≡ raised control changes payload.now self.old }
    {
        let waited = self.waiting.put_last(control);
        let before = changes_before(waited, &self.latest[control as usize]);
        self.latest[control as usize] = Latest {
            changes: before.union(changes),
            payload: *payload,
            sequence: self.next,
        };
        self.next += 1;
    }
}

// Whether a raise reaches a file handle, by the flags of its subscription, where it has one.
fn is_reached(flags: Option<SubFlags>, is_own: bool) -> bool
    ensures { result ≡ reaches is_own flags }
{
    match flags {
        Some(flags) => !is_own || flags.intersects(SubFlags::ALLOW_FEEDBACK),
        None => false,
    }
}

// Makes room for a control's flags and for what is raised last of it; what is there stays.
fn make_room(
    flags: &mut Vec<SubFlags>,
    latest: &mut Vec<Latest>,
    control: u32,
    payload: &Payload,
) -> Result<(), AllocError>
    ensures bound { OnOk result (control < length flags.new.items) }
    ensures raisable { OnOk result (control < length latest.new.items) }
    ensures grown { HasGrown flags.old.items flags.new.items latest.old.items latest.new.items }
{
    make_flags(flags, control)?;
    make_latest(latest, control, payload)
}

// Makes room for a control's flags; those that are there stay.
fn make_flags(flags: &mut Vec<SubFlags>, control: u32) -> Result<(), AllocError>
    ensures bound { OnOk result (control < length flags.new.items) }
    ensures grows { length flags.old.items ≤ length flags.new.items }
    ensures kept { (c : ℕ) → c < length flags.old.items → get_or flags.new.items c no_flags ≡ get_or flags.old.items c no_flags }
{
    let at = control as usize;
    if at < flags.len() {
        return Ok(());
    }
    flags.resize(at + 1, SubFlags::empty())
}

// Makes room for what is raised last of a control; what is there stays.
fn make_latest(latest: &mut Vec<Latest>, control: u32, shown: &Payload) -> Result<(), AllocError>
    ensures bound { OnOk result (control < length latest.new.items) }
    ensures grows { length latest.old.items ≤ length latest.new.items }
    ensures kept { (c : ℕ) → c < length latest.old.items → get_or latest.new.items c no_latest ≡ get_or latest.old.items c no_latest }
{
    let at = control as usize;
    if at < latest.len() {
        return Ok(());
    }
    let first = Latest {
        changes: Changes::empty(),
        payload: *shown,
        sequence: 0,
    };
    latest.resize(at + 1, first)
}

// What the event of a control that waits, if one does, says that changed.
fn changes_before(waited: bool, latest: &Latest) -> Changes
    ensures { result ≡ changes_before waited latest.now }
{
    if waited {
        latest.changes
    } else {
        Changes::empty()
    }
}

// The event that is taken, where so many still wait.
fn event_of(pending: u32, latest: &Latest) -> Event
    ensures { result ≡ event_of pending (waiting_from 0 latest.now) }
{
    let payload = latest.payload;
    Event {
        id: payload.id,
        kind: payload.kind,
        changes: latest.changes,
        value: payload.value,
        flags: payload.flags,
        minimum: payload.minimum,
        maximum: payload.maximum,
        step: payload.step,
        default_value: payload.default_value,
        sequence: latest.sequence,
        pending,
    }
}

// Whether the same events of two orders wait, in the same order.
fn are_alike(
    log: &[Option<u32>],
    latest: &[Latest],
    others: &[Option<u32>],
    latest_of_others: &[Latest],
) -> bool
    requires own { (c : ℕ) → has (logged log.now) c ≡ true → c < length latest.now }
    requires other { (c : ℕ) → has (logged others.now) c ≡ true → c < length latest_of_others.now }
    ensures { IsTrue result ↔ (events_to latest.now (logged log.now) ≡ events_to latest_of_others.now (logged others.now)) }
{
    let mut at = 0;
    for entry in log {
        let Some(control) = entry else {
            continue;
        };
        at = next_entry(others, at);
        if !is_alike(*control, latest, others, at, latest_of_others) {
            return false;
        }
        at += 1;
    }
    next_entry(others, at) >= others.len()
}

// Whether the event of a control is the one that waits at a place among others.
fn is_alike(
    control: u32,
    latest: &[Latest],
    others: &[Option<u32>],
    at: usize,
    latest_of_others: &[Latest],
) -> bool
    requires own { control < length latest.now }
    requires other { (c : ℕ) → Some c ≡ entry_number (slice_get others.now at) → c < length latest_of_others.now }
    ensures alike { IsTrue result ↔ (Some (event_to latest.now control) ≡ option_map (event_to latest_of_others.now) (entry_number (slice_get others.now at))) }
    ensures within { IsTrue result → at < length others.now }
{
    match number_at(others, at) {
        Some(other) => is_same(
            control,
            &latest[control as usize],
            other,
            &latest_of_others[other as usize],
        ),
        None => false,
    }
}

// Whether two events that wait are the same.
fn is_same(control: u32, latest: &Latest, other: u32, latest_of_other: &Latest) -> bool
    ensures { IsTrue result ↔ (waiting_from control latest.now ≡ waiting_from other latest_of_other.now) }
{
    control == other && *latest == *latest_of_other
}
