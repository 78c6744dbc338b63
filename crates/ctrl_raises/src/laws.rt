//! What raises count. The law is the contract of a function that does nothing.

ghost use Rattle.std.specs.Prelude.{◌≤◌, ◌+◌, ℕ, Option};
ghost use Rattle.std.specs.List.{range_with_len};
ghost use Rattle.ctrl_types.specs.declared.changes.Changes.{Changes};
ghost use Rattle.ctrl_events.specs.declared.event.Payload.{Payload};
ghost use Rattle.ctrl_events.specs.Events.{FileEvents};
ghost use Rattle.ctrl_raises.specs.Raises.{raised_all};

/// For a file handle at most as many events are raised as there are controls.
#[tactic(auto, using(crate::proofs::RaiseLemmas::raises_counted))]
pub fn raises_count()
    ensures { (change : ℕ → Changes) (payload : ℕ → Payload) (from : ℕ → Option ℕ) (fh n : ℕ) (f : FileEvents) → (raised_all change payload from fh (range_with_len 0 n) f).next ≤ f.next + n }
{}
