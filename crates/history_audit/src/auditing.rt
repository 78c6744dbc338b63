ghost use Rattle.std.specs.Prelude.{◌≡◌, length, IfOk, IfErr, IfSome, OnOk};
ghost use Rattle.history.specs.Past.{past};
ghost use Rattle.device_history.specs.Legal.{IsLegal};
ghost use Rattle.history_audit.specs.Fault.{IsFault};
ghost use Rattle.history_audit.specs.Replay.{HasAtLeast, HasStopped, IsProgressOf, LosesNothing};
ghost use Rattle.history_audit.specs.Scratch.{scratch};

use crate::fault::AuditFault;
use crate::progress::Progress;
use crate::replay::Replay;
use crate::scratch::Scratch;
use ctrl_calls::Driver;
use ctrl_handlers::Plan;
use device_history::Step;
use history::Entry;
use std::alloc::Global;

/// What a history makes of a device: its steps are replayed one after another, from the defaults on, and each must be one that may follow
/// those before it. Validators are asked, as they were by the device; nobody is told.
///
/// - `alloc`: where the answer lies, and what is kept on the way.
/// - `plan`: what the device is built of.
/// - `steps`: the history, oldest first; any entries, of whichever seats.
///
/// Refused with `NotLegal` at the first step that may not follow those before it, with its place, and with `Memory` where a growth was
/// refused.
pub fn audit<D: Driver>(
    alloc: Global,
    plan: &Plan<D>,
    steps: &[Entry<Step>],
) -> Result<Scratch, AuditFault>
    ensures legal { OnOk result (IsLegal D.verdict plan.now (past steps.now)) }
    ensures scratch { IfOk result (λ s. s.shown ≡ scratch D.verdict plan.now (past steps.now)) }
    ensures made { IfOk result (λ s. IsProgressOf D.verdict plan.now steps.now s.made) }
    ensures whole { IfOk result (λ s. s.made.count ≡ length steps.now) }
    ensures fault { IfErr result (λ fault. IsFault D.verdict plan.now steps.now fault) }
{
    match go_on(alloc, plan, steps, None) {
        Ok(scratch) => Ok(scratch),
        Err((_, fault)) => Err(fault),
    }
}

/// Audits a history, as `audit` does, of which the first steps may have been replayed before: only the others are replayed. What it answers is what the whole history
/// makes of a device; validators are asked for the steps that weren't replayed before, and for the forecasts at the end.
///
/// - `alloc`: where the answer lies, and what is kept on the way.
/// - `plan`: what the device is built of.
/// - `steps`: the history, oldest first; the caller owes that it begins with the steps that were replayed.
/// - `made`: what an earlier audit put aside, if there was one, see `Scratch::put_aside`.
///
/// Refused as `audit` is. What was replayed up to there is handed back, put aside, so that nothing is lost where a growth was refused: with `NotLegal`, the steps before
/// that place; with `Memory`, as many as had been put aside before, or more, and `None` only where nothing had been and not even the start could be made.
pub fn go_on<D: Driver>(
    alloc: Global,
    plan: &Plan<D>,
    steps: &[Entry<Step>],
    made: Option<Progress>,
) -> Result<Scratch, (Option<Progress>, AuditFault)>
    requires { IfSome made (IsProgressOf D.verdict plan.now steps.now) }
    ensures legal { OnOk result (IsLegal D.verdict plan.now (past steps.now)) }
    ensures scratch { IfOk result (λ s. s.shown ≡ scratch D.verdict plan.now (past steps.now)) }
    ensures made { IfOk result (λ s. IsProgressOf D.verdict plan.now steps.now s.made) }
    ensures fault { IfErr result (λ e. IsFault D.verdict plan.now steps.now e.1) }
    ensures aside { IfErr result (λ e. IfSome e.0 (IsProgressOf D.verdict plan.now steps.now)) }
    ensures whole { IfOk result (λ s. s.made.count ≡ length steps.now) }
    ensures kept { IfErr result (λ e. LosesNothing made e.0) }
    ensures stopped { IfErr result (λ e. HasStopped e.1 e.0) }
{
    match made {
        Some(made) => replay_rest(steps, Replay::resume(alloc, plan, steps, made)),
        None => match Replay::new(alloc, plan, steps) {
            Ok(replay) => replay_rest(steps, replay),
            Err(_) => Err((None, AuditFault::Memory)),
        },
    }
}

// Replays the steps that weren't replayed yet.
fn replay_rest<D: Driver>(
    steps: &[Entry<Step>],
    mut replay: Replay<'_, D>,
) -> Result<Scratch, (Option<Progress>, AuditFault)>
    requires { replay.all ≡ steps.now }
    ensures legal { OnOk result (IsLegal D.verdict replay.entry.plan (past steps.now)) }
    ensures scratch { IfOk result (λ s. s.shown ≡ scratch D.verdict replay.entry.plan (past steps.now)) }
    ensures made { IfOk result (λ s. IsProgressOf D.verdict replay.entry.plan steps.now s.made) }
    ensures fault { IfErr result (λ e. IsFault D.verdict replay.entry.plan steps.now e.1) }
    ensures aside { IfErr result (λ e. IfSome e.0 (IsProgressOf D.verdict replay.entry.plan steps.now)) }
    ensures whole { IfOk result (λ s. s.made.count ≡ length steps.now) }
    ensures kept { IfErr result (λ e. HasAtLeast (length replay.entry.steps) e.0) }
    ensures stopped { IfErr result (λ e. HasStopped e.1 e.0) }
{
    let first = replay.replayed() as usize;
    for _ in first..steps.len() {
        let index = replay.replayed();
        match replay.next() {
            Ok(true) => {}
            Ok(false) => return Err((Some(replay.put_aside()), AuditFault::NotLegal { index })),
            Err(_) => return Err((Some(replay.put_aside()), AuditFault::Memory)),
        }
    }
    match replay.finish() {
        Ok(scratch) => Ok(scratch),
        Err(made) => Err((Some(made), AuditFault::Memory)),
    }
}
