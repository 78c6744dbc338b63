//! What the calls about events keep, and what waits, read off what happened. Each law is the contract of a function that does nothing.

ghost use Rattle.std.specs.Prelude.{◌≡◌, ◌≤◌, ◌+◌, ◌++◌, ◌∷◌, [], ℕ, List, Option};
ghost use Rattle.ctrl_types.specs.Events.{joined};
ghost use Rattle.ctrl_types.specs.declared.changes.Changes.{Changes};
ghost use Rattle.ctrl_types.specs.declared.sub_flags.SubFlags.{SubFlags};
ghost use Rattle.ctrl_events.specs.declared.event.Payload.{Payload};
ghost use Rattle.ctrl_events.specs.Events.{FileEvents, Waiting, no_events, other_events, changes_in, raised, with_subscription, after_subscribe, after_unsubscribe, after_take, after_raise, WaitsForSubscribed};
ghost use Rattle.ctrl_events.specs.Pending.{Happening, raise, withdrawn, AreNumbered, IsWhatHappened, pending};

/// Nothing waits at first.
pub fn starts_kept()
    ensures { WaitsForSubscribed no_events }
{}

/// After a subscription what waits is of controls that are subscribed, and no control waits twice.
#[tactic(auto, using(crate::proofs::KeptLemmas::kept_subscribe))]
pub fn subscribe_keeps()
    ensures { (c : ℕ) (flags : SubFlags) (changes : Changes) (payload : Payload) (f : FileEvents) → WaitsForSubscribed f → WaitsForSubscribed (after_subscribe c flags changes payload f) }
{}

/// The same after the end of one.
#[tactic(auto, using(crate::proofs::KeptLemmas::kept_unsubscribe))]
pub fn unsubscribe_keeps()
    ensures { (c : ℕ) (f : FileEvents) → WaitsForSubscribed f → WaitsForSubscribed (after_unsubscribe c f) }
{}

/// The same after an event is taken.
#[tactic(auto, using(crate::proofs::KeptLemmas::kept_take))]
pub fn take_keeps()
    ensures { (f : FileEvents) → WaitsForSubscribed f → WaitsForSubscribed (after_take f) }
{}

/// The same after a raise.
#[tactic(auto, using(crate::proofs::KeptLemmas::kept_raise))]
pub fn raise_keeps()
    ensures { (c : ℕ) (changes : Changes) (payload : Payload) (from : Option ℕ) (fh : ℕ) (f : FileEvents) → WaitsForSubscribed f → WaitsForSubscribed (after_raise c changes payload from fh f) }
{}

/// A subscription raises at most one event for a file handle.
#[tactic(auto, using(crate::proofs::KeptLemmas::counted_subscribe))]
pub fn subscribe_counts()
    ensures { (c : ℕ) (flags : SubFlags) (changes : Changes) (payload : Payload) (f : FileEvents) → (after_subscribe c flags changes payload f).next ≤ f.next + 1 }
{}

/// So does a raise.
#[tactic(auto, using(crate::proofs::KeptLemmas::counted_raise))]
pub fn raise_counts()
    ensures { (c : ℕ) (changes : Changes) (payload : Payload) (from : Option ℕ) (fh : ℕ) (f : FileEvents) → (after_raise c changes payload from fh f).next ≤ f.next + 1 }
{}

/// At first nothing waits. What is withdrawn of a control waits no longer. A raise takes the place of what waits of its control: the changes of both are
/// joined, and it is the last. Once the first is taken, those behind it wait.
pub fn pending_events()
    ensures start { pending [] ≡ [] }
    ensures withdrawn { (hs : List Happening) (c : ℕ) → pending (withdrawn c ∷ hs) ≡ other_events c (pending hs) }
    ensures raised { (hs : List Happening) (w : Waiting) → AreNumbered (raise w ∷ hs) → pending (raise w ∷ hs) ≡ other_events w.control (pending hs) ++ record w { changes = joined (changes_in (pending hs) w.control) w.changes } ∷ [] }
    ensures taken { (hs : List Happening) (w : Waiting) (ws : List Waiting) → AreNumbered hs → pending hs ≡ w ∷ ws → pending (withdrawn w.control ∷ hs) ≡ ws }
{}

/// What is kept of a file handle is what happened to its events, also after a raise, a subscription, its end and a take.
#[tactic(auto, using(crate::proofs::PendingLemmas::kept_start, crate::proofs::PendingLemmas::kept_subscribed))]
pub fn happened_events()
    ensures start { IsWhatHappened [] no_events }
    ensures raised { (hs : List Happening) (f : FileEvents) (c : ℕ) (changes : Changes) (payload : Payload) → IsWhatHappened hs f
        → IsWhatHappened (raise (record { control = c; changes = changes; payload = payload; sequence = f.next }) ∷ hs) (raised c changes payload f) }
    ensures subscribed { (hs : List Happening) (f : FileEvents) (c : ℕ) (flags : SubFlags) → IsWhatHappened hs f → IsWhatHappened hs (with_subscription c flags f) }
    ensures unsubscribed { (hs : List Happening) (f : FileEvents) (c : ℕ) → IsWhatHappened hs f → IsWhatHappened (withdrawn c ∷ hs) (after_unsubscribe c f) }
    ensures taken { (hs : List Happening) (f : FileEvents) (w : Waiting) (ws : List Waiting) → IsWhatHappened hs f → f.waiting ≡ w ∷ ws → IsWhatHappened (withdrawn w.control ∷ hs) (after_take f) }
{}
