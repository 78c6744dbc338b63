//! The device at the desk, one caller after another.

ghost use Rattle.std.specs.Prelude.{◌≡◌, []};
ghost use Rattle.turn_desk.specs.Views.{IsSeatOf};

use crate::pair::courses::{Course, goes};
use ctrl_calls::Driver;
use ctrl_types::{CtrlId, CtrlValue, ExtControl, Fault, FhId};
use device_state::{Ask, ControlList, Device, Reply};
use std::alloc::{AllocError, Global};
use std::sync::Wait;
use std::test::Fail;
use turn_desk::{Desk, DeskFault, DeskSeat, SeatList};

const BRIGHTNESS: CtrlId = CtrlId(0x0098_0900);

fn brightness(alloc: Global, value: i64) -> Result<ControlList, AllocError> {
    let mut list = Vec::new(alloc);
    list.push(ExtControl {
        id: BRIGHTNESS,
        value: CtrlValue::Number(value),
    })?;
    Ok(ControlList::from_vec(list))
}

// The ask for brightness through a file handle, or to set it.
fn get(alloc: Global, fh: FhId) -> Result<Ask, AllocError> {
    Ok(Ask::GetCtrls {
        fh,
        which: 0,
        request: None,
        list: brightness(alloc, 0)?,
    })
}

fn set(alloc: Global, fh: FhId, value: i64) -> Result<Ask, AllocError> {
    Ok(Ask::SetCtrls {
        fh,
        which: 0,
        request: None,
        list: brightness(alloc, value)?,
    })
}

// Whether a reply has this value alone.
fn has_value(answer: &Result<Reply, Fault>, value: i64) -> bool {
    match answer {
        Ok(Reply::Controls(list)) => match list.as_slice() {
            [entry] => entry.value == CtrlValue::Number(value),
            _ => false,
        },
        _ => false,
    }
}

// Asks at a seat, where there was memory for the ask, and says whether the reply has this value alone.
fn answers<D: Driver, R: Wait>(
    rt: &R,
    desk: &Desk<Device<D>>,
    seat: DeskSeat<Device<D>>,
    ask: Result<Ask, AllocError>,
    value: i64,
) -> (DeskSeat<Device<D>>, bool)
    requires { IsSeatOf desk.now seat }
    ensures { IsSeatOf desk.now result.0 }
{
    let Ok(ask) = ask else {
        return (seat, false);
    };
    let (seat, answer) = desk.call(rt, seat, &ask);
    (seat, has_value(&answer, value))
}

// Asks for a file handle on handler 1.
fn opens<D: Driver, R: Wait>(
    rt: &R,
    desk: &Desk<Device<D>>,
    seat: DeskSeat<Device<D>>,
) -> (DeskSeat<Device<D>>, Option<FhId>)
    requires { IsSeatOf desk.now seat }
    ensures { IsSeatOf desk.now result.0 }
{
    let (seat, answer) = desk.call(rt, seat, &Ask::OpenFh { handler: 1 });
    match answer {
        Ok(Reply::Fh(fh, ..)) => (seat, Some(fh)),
        _ => (seat, None),
    }
}

// Closes a desk without its one seat, and then with it; says why the first was refused, and how many steps the device has.
fn closes_alone<D: Driver>(
    alloc: Global,
    desk: Desk<Device<D>>,
    seat: DeskSeat<Device<D>>,
) -> Option<(DeskFault, usize)>
    requires { IsSeatOf desk seat }
{
    let Err((desk, none, fault)) = desk.close(SeatList::from_vec(Vec::new(alloc))) else {
        return None;
    };
    let mut seats = none.into_vec();
    seats.push(seat).ok()?;
    let device = desk.close(SeatList::from_vec(seats)).ok()?;
    Some((fault, device.steps().len()))
}

/// Whether one seat opens a file handle, sets brightness to 2 and reads 4, and the desk isn't closed without it, and is with it.
pub fn one_seat<D: Driver, R: Wait>(
    rt: &R,
    alloc: Global,
    device: Device<D>,
) -> Result<bool, AllocError>
    requires { device.steps ≡ [] }
{
    let Ok((desk, seat)) = Desk::new(alloc, device) else {
        return Err(AllocError);
    };
    let (seat, fh) = opens(rt, &desk, seat);
    let Some(fh) = fh else {
        return Ok(false);
    };
    let (seat, is_set) = answers(rt, &desk, seat, set(alloc, fh, 2), 4);
    let (seat, is_read) = answers(rt, &desk, seat, get(alloc, fh), 4);
    let closed = closes_alone(alloc, desk, seat);
    Ok(is_set && is_read && closed == Some((DeskFault::SeatsOut { given: 0, made: 1 }, 2)))
}

#[test]
fn one_seat_reads_what_it_set(rt: HostRuntime) -> Result<(), Fail> {
    assert!(rt; goes(&rt, Course::OneSeat)?);
    Ok(())
}
