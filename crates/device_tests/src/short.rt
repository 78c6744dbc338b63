//! A device, and audits of it, that are made while memory is short: each growth is refused, and then as much more is there that the next one is.

use crate::closures::Counting;
use crate::scene::{Counters, asked, behind, counters, device, plan, told};
use ctl_script::{Audited, audit_of};
use ctrl_types::Errno;
use device_state::Device;
use hoard::Hoard;
use std::alloc::{AllocError, Global};

// So often each is made, each time with so many bytes more than before.
const MOST: usize = 4096;

const MORE: usize = 16;

// Makes a device, first without memory. As long as it is refused nobody is told, and the plan is handed back, of which it is made then. How often it was refused;
// none where something else came of it.
fn refusals_of_a_device(
    alloc: Global,
    hoard: &mut Hoard,
    counters: &Counters,
) -> Result<Option<usize>, AllocError> {
    let mut plan = plan(alloc, counters)?;
    for times in 0..MOST {
        hoard.starve(MORE * times);
        let made = Device::new(alloc, plan);
        hoard.feed();
        plan = match made {
            Ok(_) => return Ok((told(counters) == 4).then_some(times)),
            Err((plan, errno)) => {
                if errno != Errno::ENOMEM || told(counters) > 0 {
                    return Ok(None);
                }
                plan
            }
        };
    }
    Ok(None)
}

// Nine steps, four of which are judged, by one validator each.
const STEPS: &[u8] = b"\
open f 1
set f cur gain=9
set f cur red=200
set f cur blue=7
sub f red initial
alloc r
set f req:r gain=8
buffer r 7
grab red on
";

const COUNT: usize = 9;

const JUDGED: u64 = 4;

// Audits a device, first without memory. An audit goes on from what the one before had replayed, so each refusal has a validator asked once more at the most. How
// often it was refused; none where something else came of it.
fn refusals_of_an_audit(
    alloc: Global,
    hoard: &mut Hoard,
    device: &Device<Counting>,
    counters: &Counters,
) -> Option<usize> {
    let before = asked(counters);
    let mut made = None;
    for times in 0..MOST {
        hoard.starve(MORE * times);
        let audited = audit_of(alloc, device, &mut made);
        hoard.feed();
        match audited {
            Audited::Memory => {}
            Audited::Equal(count) => {
                let again = asked(counters).wrapping_sub(before);
                let is_gone_on = again >= JUDGED && again <= JUDGED.saturating_add(times as u64);
                return (count == COUNT && is_gone_on).then_some(times);
            }
            Audited::Differs => return None,
        }
    }
    None
}

#[test]
fn a_device_and_an_audit_that_are_refused_memory(rt: HostRuntime) -> Result<(), AllocError> {
    let alloc = rt.alloc();
    let mut hoard = Hoard::new(alloc)?;
    let made = refusals_of_a_device(alloc, &mut hoard, &counters(alloc)?)?;
    let counters = counters(alloc)?;
    let (device, _) = behind(alloc, device(alloc, &counters)?, STEPS)?;
    let before = told(&counters);
    let audited = refusals_of_an_audit(alloc, &mut hoard, &device, &counters);
    let is_told = told(&counters) != before;
    assert!(rt;
        made > Some(4) && audited > Some(10) && !is_told,
        "{made:?} {audited:?}"
    );
    Ok(())
}
