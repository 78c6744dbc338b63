//! The laws of a device and of its history: what calls, one after another, make of a device, and what one more step makes of each part. Each function is a
//! law that its contract states; none has anything to do.

ghost use Rattle.std.specs.Prelude.{◌≡◌, ◌∷◌, ◌++◌, List, IsErr};
ghost use Rattle.history.specs.Past.{past};
ghost use Rattle.ctrl_calls.specs.Meanings.{Verdicts};
ghost use Rattle.device_history.specs.Legal.{IsLegal};
ghost use Rattle.history_audit.specs.declared.fault.AuditFault.{AuditFault};
ghost use Rattle.history_audit.specs.declared.fault.AuditFault.TheVariants as faults;
ghost use Rattle.history_audit.specs.Fault.{IsFault};
ghost use Rattle.history_audit.specs.Scratch.{Agrees, ScratchData, scratch};
ghost use Rattle.device_state.specs.Device.{DeviceData};
ghost use Rattle.device_state.specs.Runs.{Call, IsRun, entries_added};

pub use device_history::laws::{
    added_raises, asked_pairs, closed_handles, deciding_asks, each_request, frames_as_forecast,
    kept_events, kept_frames, legal_histories, open_handles, present_controls, present_flags,
    queued_requests, raised_events, refusals, request_buffers, request_states, subscriptions,
    told_words, waiting_frames, whole_sets,
};

/// Calls, each of which does what the contract of `handle` says, keep the plan; the last steps are the first ones, and behind them
/// exactly the entries of the accepted calls, in their order; a legal history stays legal; and a refused call, wherever it stands,
/// leaves all but the counts of `work`.
#[tactic(auto, using(crate::proofs::RunLemmas::run_plan, crate::proofs::RunLemmas::run_steps, crate::proofs::RunLemmas::run_legal, crate::proofs::RunLemmas::run_refused))]
pub fn whole_runs()
    ensures plan { (verdicts : Verdicts) (calls : List Call) (first last : DeviceData) → IsRun verdicts first calls last → last.plan ≡ first.plan }
    ensures steps { (verdicts : Verdicts) (calls : List Call) (first last : DeviceData) → IsRun verdicts first calls last → last.steps ≡ first.steps ++ entries_added verdicts first.plan first.steps calls }
    ensures legal { (verdicts : Verdicts) (calls : List Call) (first last : DeviceData) → IsRun verdicts first calls last → IsLegal verdicts first.plan (past first.steps) → IsLegal verdicts last.plan (past last.steps) }
    ensures refused { (verdicts : Verdicts) (before behind : List Call) (call : Call) (first last : DeviceData) → IsRun verdicts first (before ++ call ∷ behind) last → IsErr call.answer
        → (old : DeviceData) × (new : DeviceData) × IsRun verdicts first before old × (new ≡ record old { work = new.work }) × IsRun verdicts new behind last }
{}

/// An audit of a device's own plan and steps, which are legal, as the contract of `steps` says, agrees with it, or wants memory.
#[tactic(auto, using(crate::proofs::AuditLemmas::own_agrees, crate::proofs::AuditLemmas::own_fault))]
pub fn own_audits()
    ensures agrees { (verdicts : Verdicts) (device : DeviceData) (s : ScratchData) → s ≡ scratch verdicts device.plan (past device.steps) → Agrees verdicts device.plan (past device.steps) s }
    ensures memory { (verdicts : Verdicts) (device : DeviceData) (fault : AuditFault) → IsLegal verdicts device.plan (past device.steps) → IsFault verdicts device.plan device.steps fault → fault ≡ faults.Memory }
{}
