//! What the callers ask.

ghost use Rattle.turn_desk.specs.Views.{IsSeatOf};

use ctrl_calls::Driver;
use ctrl_types::{CtrlId, CtrlValue, ExtControl, Fault, FhId};
use device_state::{Ask, ControlList, Device, Reply};
use std::alloc::{AllocError, Global};
use std::sync::Wait;
use turn_desk::{Desk, DeskSeat};

const BRIGHTNESS: CtrlId = CtrlId(0x0098_0900);

fn brightness(alloc: Global, value: i64) -> Result<ControlList, AllocError> {
    let mut list = Vec::with_capacity(alloc, 1)?;
    list.push(ExtControl {
        id: BRIGHTNESS,
        value: CtrlValue::Number(value),
    })?;
    Ok(ControlList::from_vec(list))
}

/// The ask for brightness through a file handle.
pub fn get(alloc: Global, fh: FhId) -> Result<Ask, AllocError> {
    Ok(Ask::GetCtrls {
        fh,
        which: 0,
        request: None,
        list: brightness(alloc, 0)?,
    })
}

/// The ask to set it.
pub fn set(alloc: Global, fh: FhId, value: i64) -> Result<Ask, AllocError> {
    Ok(Ask::SetCtrls {
        fh,
        which: 0,
        request: None,
        list: brightness(alloc, value)?,
    })
}

/// Whether a reply has this value alone.
pub fn has_value(answer: &Result<Reply, Fault>, value: i64) -> bool {
    match answer {
        Ok(Reply::Controls(list)) => match list.as_slice() {
            [entry] => entry.value == CtrlValue::Number(value),
            _ => false,
        },
        _ => false,
    }
}

/// The file handle of a reply.
pub fn handle_of(answer: Result<Reply, Fault>) -> Option<FhId> {
    match answer {
        Ok(Reply::Fh(fh, ..)) => Some(fh),
        _ => None,
    }
}

/// Asks for a file handle on handler 1.
pub fn opens<D: Driver, R: Wait>(
    rt: &R,
    desk: &Desk<Device<D>>,
    seat: DeskSeat<Device<D>>,
) -> (DeskSeat<Device<D>>, Option<FhId>)
    requires { IsSeatOf desk.now seat }
    ensures { IsSeatOf desk.now result.0 }
{
    let (seat, answer) = desk.call(rt, seat, &Ask::OpenFh { handler: 1 });
    (seat, handle_of(answer))
}
