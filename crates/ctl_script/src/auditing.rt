ghost use Rattle.std.specs.Prelude.{◌≡◌, ◌≢◌, length, IfSome};
ghost use Rattle.history.specs.Past.{past};
ghost use Rattle.history_audit.specs.Replay.{IsProgressOf};
ghost use Rattle.history_audit.specs.Scratch.{Agrees};
ghost use Rattle.script_replies.specs.declared.audited.Audited.TheVariants as audits;

use ctrl_calls::Driver;
use device_state::{AuditFault, Device, Progress, Scratch, go_on};
use script_replies::Audited;
use std::alloc::Global;

/// Works out what a device's own steps make of its plan, and compares that with what it has. It agrees, where no growth is refused. Steps that an earlier audit
/// replayed aren't replayed again: what they made is gone on from. All others are replayed, and the whole is compared.
///
/// - `alloc`: where lies what is worked out.
/// - `device`: is only looked at.
/// - `made`: what the audit before put aside, if there was one, which the caller owes to have been of this device. It becomes what this one puts aside.
#[tactic(auto, using(device_state::proofs::AuditLemmas::own_agrees, device_state::proofs::AuditLemmas::own_fault))]
pub fn audit_of<D: Driver>(
    alloc: Global,
    device: &Device<D>,
    made: &mut Option<Progress>,
) -> Audited
    requires { IfSome made.old (IsProgressOf D.verdict device.now.plan device.now.steps) }
    ensures agrees { result ≢ audits.Memory → result ≡ audits.Equal (length device.now.steps) }
    ensures made { IfSome made.new (IsProgressOf D.verdict device.now.plan device.now.steps) }
{
    match go_on(alloc, device.plan(), device.steps(), made.take()) {
        Ok(scratch) => {
            let audited = compared(device, &scratch);
            *made = Some(scratch.put_aside());
            audited
        }
        Err((so_far, fault)) => {
            *made = so_far;
            match fault {
                AuditFault::NotLegal { .. } => Audited::Differs,
                AuditFault::Memory => Audited::Memory,
            }
        }
    }
}

/// Compares a device with what was worked out of some history of its plan.
pub fn compared<D: Driver>(device: &Device<D>, scratch: &Scratch) -> Audited
    ensures equal { Agrees D.verdict device.now.plan (past device.now.steps) scratch.now.shown → result ≡ audits.Equal (length device.now.steps) }
    ensures differs { (Agrees D.verdict device.now.plan (past device.now.steps) scratch.now.shown → ⊥) → result ≡ audits.Differs }
{
    if device.agrees(scratch) {
        Audited::Equal(device.steps().len())
    } else {
        Audited::Differs
    }
}
