ghost use Rattle.std.specs.Prelude.{◌≡◌, ◌↔◌, ◌<◌, ◌%◌, ◌-◌, ℕ, [], IsTrue, length, IfSome, OnErr, OnOk, None, true, slice_get, nat_eq};
ghost use Rattle.std.specs.Option.{option_map};
ghost use Rattle.std.specs.List.{IsDistinct};
ghost use Rattle.std.specs.Map.{keys_of, lookup};
ghost use Rattle.ctrl_types.specs.Checks.{with_errno};
ghost use Rattle.ctrl_events.specs.Events.{events_of, only_at, no_events, flags_in, event_at, after_subscribe, after_unsubscribe, first_waiting, after_take, after_raise, is_from, WaitsForSubscribed, IsLike};
ghost use Rattle.ctrl_events.specs.Heard.{IsHeard, HaveBits, listens};
ghost use Rattle.ctrl_events.specs.Files.{changed_at, raised_in_entry};

use crate::event::{Event, Payload};
use crate::marks::{hear, heard_by, lowest_bit, with_bit, without_bit};
use crate::queue::Queue;
use ctrl_types::{Changes, Check, Errno, FhId, SubFlags};
use indexmap::IndexMap;
use std::alloc::{AllocError, Global};
use std::marker::Model;

/// The control events of file handles. Contracts see what is kept of each: its subscriptions, the events that wait, in the order of their last
/// raises, and the number of the next. A file handle needs no call before its first subscription.
///
/// A raise goes to the file handles alone that may be subscribed: for each control there is a bit of each 64th place at which a file handle is
/// kept. A subscription sets it, and a raise clears it where none at these places is subscribed any longer. Where a file handle is forgotten, the
/// last takes its place, so that its bits are set there first.
#[derive(Drop)]
pub struct Events {
    files: IndexMap<u32, Queue>,
    heard: Vec<u64>,
    alloc: Global,
}

impl Model for Events {
    ghost use Rattle.ctrl_events.specs.Events.{EventsData};

    ghost Value = { EventsData };

    ghost use Rattle.ctrl_events.specs.Heard.{AreHeard};

    ghost view = { λ e. record { files = e.files.entries } };

    ghost invariant = { λ e. AreHeard e.heard.items e.files.entries };
}

impl Events {
    /// No file handle has a subscription, and no event was raised. It takes no memory; `subscribe` takes its own from `alloc`.
    pub fn new(alloc: Global) -> Events
        ensures { (j : ℕ) → events_of result j ≡ no_events }
    {
        Events {
            files: IndexMap::new(alloc),
            heard: Vec::new(alloc),
            alloc,
        }
    }

    /// Whether nothing is kept of any file handle: none that is open has ever had a subscription. It takes no memory.
    pub fn is_empty(&self) -> bool
        ensures { IsTrue result ↔ (self.now.files ≡ []) }
    {
        self.files.is_empty()
    }

    /// The flags with which a file handle is subscribed to the events of a control, where it is.
    ///
    /// - `control`: the number of a control.
    pub fn subscribed(&self, fh: FhId, control: u32) -> Option<SubFlags>
        ensures { result ≡ flags_in (events_of self.now fh.0).subscribed control }
    {
        match self.files.get(&fh.0) {
            Some(queue) => queue.flags_of(control),
            None => None,
        }
    }

    /// How many events wait for a file handle. They are of controls to which it is subscribed, and no control has two.
    pub fn pending_len(&self, fh: FhId) -> usize
        ensures pending { result ≡ length (events_of self.now fh.0).waiting }
        ensures kept { WaitsForSubscribed (events_of self.now fh.0) }
    {
        match self.files.get(&fh.0) {
            Some(queue) => queue.len(),
            None => 0,
        }
    }

    /// The event that waits for a file handle at a place, from 0, with the number of its control. It is as it would be taken there:
    /// `pending` is the number of those that wait behind it.
    pub fn waiting(&self, fh: FhId, place: usize) -> Option<(u32, Event)>
        ensures { result ≡ event_at (events_of self.now fh.0).waiting place }
    {
        match self.files.get(&fh.0) {
            Some(queue) => queue.event_at(place),
            None => None,
        }
    }

    /// The number of the next event that is raised for a file handle: how many were.
    pub fn next_sequence(&self, fh: FhId) -> u32
        ensures { result ≡ (events_of self.now fh.0).next }
    {
        match self.files.get(&fh.0) {
            Some(queue) => queue.next(),
            None => 0,
        }
    }

    /// Whether the same events wait for a file handle in the same order, with control, changes, payload and number, and the next has the same
    /// number. Subscriptions don't count. It takes no memory.
    pub fn is_like(&self, other: &Events, fh: FhId) -> bool
        ensures { IsTrue result ↔ IsLike (events_of self.now fh.0) (events_of other.now fh.0) }
    {
        if self.next_sequence(fh) != other.next_sequence(fh) {
            return false;
        }
        self.waits_like(other, fh)
    }

    // Whether the same events wait for a file handle in the same order.
    fn waits_like(&self, other: &Events, fh: FhId) -> bool
        ensures { IsTrue result ↔ ((events_of self.now fh.0).waiting ≡ (events_of other.now fh.0).waiting) }
    {
        match self.files.get(&fh.0) {
            Some(queue) => match other.files.get(&fh.0) {
                Some(others) => queue.waits_like(others),
                None => queue.len() == 0,
            },
            None => other.pending_len(fh) == 0,
        }
    }

    /// Subscribes a file handle to the events of a control (`VIDIOC_SUBSCRIBE_EVENT`), and makes room for the one that can wait. A
    /// subscription that is there stays as it is. A new one raises an event at once, for this file handle alone, where its flags say so.
    ///
    /// - `control`: the number of a control.
    /// - `changes`, `payload`: what such an event says.
    ///
    /// The caller owes that the number of the file handle's next event is below 4294967295. The error is that a growth was refused; nothing is
    /// changed then.
    pub fn subscribe(
        &mut self,
        fh: FhId,
        control: u32,
        flags: SubFlags,
        changes: Changes,
        payload: &Payload,
    ) -> Result<(), AllocError>
        requires { (events_of self.old fh.0).next < 4294967295 }
        ensures ok { OnOk result ((j : ℕ) → events_of self.new j ≡ only_at fh.0 (after_subscribe control flags changes payload.now) j (events_of self.old j)) }
        ensures err { OnErr result (self.new ≡ self.old) }
    {
        let Some(place) = self.files.get_index_of(&fh.0) else {
            return self.subscribe_first(fh, control, flags, changes, payload);
        };
        if hear(&mut self.heard, control, place).is_err() {
            return Err(AllocError);
        }
        self.files[place].subscribe(control, flags, changes, payload)
    }

    // Subscribes a file handle for which nothing is kept; its place is behind all others.
    fn subscribe_first(
        &mut self,
        fh: FhId,
        control: u32,
        flags: SubFlags,
        changes: Changes,
        payload: &Payload,
    ) -> Result<(), AllocError>
        requires { lookup (nat_eq fh.0) self.old.files ≡ None }
        ensures ok { OnOk result ((j : ℕ) → events_of self.new j ≡ only_at fh.0 (after_subscribe control flags changes payload.now) j (events_of self.old j)) }
        ensures err { OnErr result (self.new ≡ self.old) }
    {
        let place = self.files.len();
        if hear(&mut self.heard, control, place).is_err() {
            return Err(AllocError);
        }
        let mut queue = Queue::new(self.alloc);
        if queue.subscribe(control, flags, changes, payload).is_err() {
            return Err(AllocError);
        }
        match self.files.insert(fh.0, queue) {
            Ok(_) => Ok(()),
            Err(_) => Err(AllocError),
        }
    }

    /// Ends a file handle's subscription to the events of a control (`VIDIOC_UNSUBSCRIBE_EVENT`), where there is one, and drops what waits of
    /// the control. It takes no memory and refuses nothing.
    ///
    /// - `control`: the number of a control.
    pub fn unsubscribe(&mut self, fh: FhId, control: u32)
        ensures { (j : ℕ) → events_of self.new j ≡ only_at fh.0 (after_unsubscribe control) j (events_of self.old j) }
    {
        if let Some(queue) = self.files.get_mut(&fh.0) {
            queue.unsubscribe(control);
        }
    }

    /// Takes the first event that waits for a file handle (`VIDIOC_DQEVENT`). Refused by check 32 of docs/RULES.md (ENOENT, 2), which changes
    /// nothing. It takes no memory.
    pub fn take(&mut self, fh: FhId) -> Result<Event, Errno>
        ensures answer { result ≡ with_errno (first_waiting (events_of self.old fh.0).waiting) }
        ensures events { (j : ℕ) → events_of self.new j ≡ only_at fh.0 after_take j (events_of self.old j) }
    {
        match self.take_first(fh) {
            Ok(event) => Ok(event),
            Err(check) => Err(check.errno()),
        }
    }

    /// The same, where a refusal is the check.
    pub fn take_first(&mut self, fh: FhId) -> Result<Event, Check>
        ensures answer { result ≡ first_waiting (events_of self.old fh.0).waiting }
        ensures events { (j : ℕ) → events_of self.new j ≡ only_at fh.0 after_take j (events_of self.old j) }
    {
        match self.files.get_mut(&fh.0) {
            Some(queue) => queue.take(),
            None => Err(Check::NoEventWaits),
        }
    }

    /// Raises an event of a control for the file handles that are subscribed to it. At most one event of a control waits for a file handle:
    /// a further raise joins the changes, replaces the payload, takes the next number and makes it the last. It takes no memory and refuses
    /// nothing.
    ///
    /// - `control`: the number of a control.
    /// - `changes`, `payload`: what the event says.
    /// - `from`: the file handle whose call raises it, if any; it gets the event where its subscription allows feedback.
    ///
    /// With at most 64 file handles it costs a step for each that is subscribed, and once a step for each bit that is left of one that no longer
    /// is; with more, such a step is one for each 64 of them.
    ///
    /// The caller owes that the number of each file handle's next event is below 4294967295.
    pub fn raise(&mut self, control: u32, changes: Changes, payload: &Payload, from: Option<FhId>)
        requires { (j : ℕ) → (events_of self.old j).next < 4294967295 }
        ensures { (j : ℕ) → events_of self.new j ≡ after_raise control changes payload.now (option_map (λ fh. fh.0) from) j (events_of self.old j) }
    {
        let mut rest = self.bits_of(control);
        let mut still = 0;
        while rest > 0 {
            let bit = lowest_bit(rest);
            let is_heard = self.raise_in(bit, control, changes, payload, from);
            still = with_bit(still, bit, is_heard);
            rest = without_bit(rest, bit);
        }
        self.keep_heard(control, still);
    }

    // The bits of the places at which a file handle may be subscribed to a control. No file handle has two places.
    fn bits_of(&self, control: u32) -> u64
        ensures bits { HaveBits result control self.now.files }
        ensures distinct { IsDistinct nat_eq (keys_of self.now.files) }
    {
        let _count = self.files.len();
        heard_by(self.heard.as_slice(), control)
    }

    // For how many file handles something is kept.
    fn count(&self) -> usize
        ensures files { result ≡ length self.now.files }
        ensures small { result < 9223372036854775808 }
    {
        self.files.len()
    }

    // Raises an event of a control for the file handles at the places of a bit, and answers whether one of them is subscribed to the control.
    fn raise_in(
        &mut self,
        bit: usize,
        control: u32,
        changes: Changes,
        payload: &Payload,
        from: Option<FhId>,
    ) -> bool
        requires bit { bit < 64 }
        requires next { (p : ℕ) → p % 64 ≡ bit → IfSome (slice_get self.old.files p) (λ e. e.1.next < 4294967295) }
        ensures raised { (p : ℕ) → p % 64 ≡ bit → slice_get self.new.files p ≡ option_map (raised_in_entry control changes payload.now (option_map (λ fh. fh.0) from)) (slice_get self.old.files p) }
        ensures others { (p : ℕ) → (p % 64 ≡ bit → ⊥) → slice_get self.new.files p ≡ slice_get self.old.files p }
        ensures heard { (p : ℕ) → p % 64 ≡ bit → listens self.old.files p control ≡ true → result ≡ true }
    {
        let count = self.count();
        let mut is_heard = false;
        let mut place = bit;
        while place < count {
            is_heard = self.raise_at(place, is_heard, control, changes, payload, from);
            place += 64;
        }
        is_heard
    }

    // Raises an event of a control for the file handle at a place, and answers whether that or one before is subscribed to the control.
    fn raise_at(
        &mut self,
        place: usize,
        is_heard: bool,
        control: u32,
        changes: Changes,
        payload: &Payload,
        from: Option<FhId>,
    ) -> bool
        requires place { place < length self.old.files }
        requires next { IfSome (slice_get self.old.files place) (λ e. e.1.next < 4294967295) }
        ensures files { self.new.files ≡ changed_at place (raised_in_entry control changes payload.now (option_map (λ fh. fh.0) from)) self.old.files }
        ensures own { listens self.old.files place control ≡ true → result ≡ true }
        ensures kept { is_heard ≡ true → result ≡ true }
    {
        let is_own = self.is_at(place, from);
        either(
            is_heard,
            self.files[place].raise(control, changes, payload, is_own),
        )
    }

    // Keeps the bits of the places at which a file handle is subscribed to a control, in place of those of which some may no longer be.
    fn keep_heard(&mut self, control: u32, bits: u64)
        requires { HaveBits bits control self.old.files }
        ensures { self.new ≡ self.old }
    {
        let at = control as usize;
        if at >= self.heard.len() {
            return;
        }
        self.heard[at] = bits;
    }

    // Whether this file handle is at the place.
    fn is_at(&self, place: usize, from: Option<FhId>) -> bool
        ensures { IfSome (slice_get self.now.files place) (λ e. result ≡ is_from (option_map (λ fh. fh.0) from) e.0) }
    {
        match (self.files.get_index(place), from) {
            (Some((own, _)), Some(fh)) => fh.0 == *own,
            _ => false,
        }
    }

    /// Forgets a file handle (`close`): its subscriptions, what waits for it, and the number of its next event. It takes no memory and refuses
    /// nothing.
    pub fn drop_fh(&mut self, fh: FhId)
        ensures { (j : ℕ) → events_of self.new j ≡ only_at fh.0 (λ f. no_events) j (events_of self.old j) }
    {
        let Some(place) = self.files.get_index_of(&fh.0) else {
            return;
        };
        hear_last(&self.files, &mut self.heard, place);
        let _ = self.files.swap_remove(&fh.0);
    }
}

// Marks a place for each control to which the file handle at the last place is subscribed, where there are marks of the control.
fn hear_last(files: &IndexMap<u32, Queue>, heard: &mut Vec<u64>, place: usize)
    ensures last { (c : ℕ) → listens files.now.entries (length files.now.entries - 1) c ≡ true → c < length heard.old.items → IsHeard heard.new.items place c }
    ensures kept { (p c : ℕ) → IsHeard heard.old.items p c → IsHeard heard.new.items p c }
{
    if let Some((_, queue)) = files.last() {
        queue.mark(heard, place);
    }
}

// Whether one of two is so.
fn either(one: bool, other: bool) -> bool
    ensures one { one ≡ true → result ≡ true }
    ensures other { other ≡ true → result ≡ true }
{
    one || other
}
