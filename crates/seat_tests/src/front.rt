//! A seat looks at the front while another's call is in hand.

use crate::acts::{Act, Flags, Heard, act_both};
use crate::asks::{opens, set};
use crate::devices::waiting_sample;
use std::sync::Arc;
use std::test::Fail;
use turn_desk::Desk;

// The notifier of a set goes on only once another thread's look at the front was answered, so a look that waits for the turn, and a lock
// around everything, fail here. The step of the set isn't entered then.
#[test]
fn looks_while_another_calls(rt: HostRuntime) -> Result<(), Fail> {
    let alloc = rt.alloc();
    let flags = Arc::new(alloc, Flags::new())?;
    let device = waiting_sample(alloc, flags.clone()?)?;
    let (desk, first) = Desk::new(alloc, device).ok().ok_or("no memory for a desk")?;
    let (first, fh) = opens(&rt, &desk, first);
    let (first, second) = desk.another(&rt, first);
    let (Some(fh), Ok(second)) = (fh, second) else {
        panic!(rt; "no file handle, or no seat")
    };
    let caller = Heard {
        seat: first,
        answers: Vec::with_capacity(alloc, 1)?,
        front: 0,
    };
    let looker = Heard {
        seat: second,
        answers: Vec::new(alloc),
        front: 0,
    };
    let calls = vec![in alloc; Act::Ask(set(alloc, fh, 4)?)]?;
    let looks = vec![in alloc; Act::Wait(0), Act::Look, Act::Raise(1)]?;
    let (caller, looker, are_done) = act_both(&rt, &desk, &flags, (caller, calls), (looker, looks));
    assert!(rt; are_done && flags.are_in_time() && looker.front == 1 && caller.answers.len() == 1);
    Ok(())
}
