//! A write at one seat is read back at another while memory is short.

ghost use Rattle.std.specs.Prelude.{◌≡◌, [], IfSome};
ghost use Rattle.turn_desk.specs.Views.{IsSeatOf};

use crate::asks::{get, handle_of, has_value, set};
use crate::devices::{Waiting, agrees, sample};
use ctrl_types::{Errno, Fault, FhId};
use device_state::{Ask, Device, Reply};
use hoard::Hoard;
use std::alloc::Global;
use std::sync::Wait;
use std::test::Fail;
use turn_desk::{Desk, DeskFault, DeskSeat, SeatList};

type Seat = DeskSeat<Device<Waiting>>;

// How many calls of a run want memory: a desk is made, and asked five times.
const CALLS: u32 = 6;

// How many budgets there are at most, each of 16 bytes more than the one before.
const BUDGETS: usize = 512;

// At which call of a run memory is short, and how much is left for it.
#[derive(Drop)]
struct Short<'a> {
    hoard: &'a mut Hoard,
    call: u32,
    left: usize,
    // which call comes next
    next: u32,
    was_refused: bool,
}

impl Short<'_> {
    // Before a call.
    fn begin(&mut self) {
        if self.next == self.call {
            self.hoard.starve(self.left);
        }
    }

    // Behind it.
    fn end(&mut self) {
        if self.next == self.call {
            self.hoard.feed();
        }
        self.next = self.next.saturating_add(1);
    }
}

// Whether an ask was refused for want of memory; a list with one entry has the index 1 then.
fn is_refusal(ask: &Ask, answer: &Result<Reply, Fault>) -> bool {
    let index = match ask {
        Ask::GetCtrls { .. } | Ask::SetCtrls { .. } => Some(1),
        _ => None,
    };
    matches!(answer, Err(fault) if fault.errno == Errno::ENOMEM && fault.index == index)
}

// Asks at a seat. An ask that was refused for want of memory is put again.
fn asked<R: Wait>(
    rt: &R,
    short: &mut Short<'_>,
    desk: &Desk<Device<Waiting>>,
    seat: Seat,
    ask: &Ask,
) -> (Seat, Result<Reply, Fault>)
    requires { IsSeatOf desk.now seat }
    ensures { IsSeatOf desk.now result.0 }
{
    short.begin();
    let (seat, answer) = desk.call(rt, seat, ask);
    short.end();
    if !is_refusal(ask, &answer) {
        return (seat, answer);
    }
    short.was_refused = true;
    desk.call(rt, seat, ask)
}

// Makes a desk, at the second try where the first finds no memory.
fn opened(
    alloc: Global,
    short: &mut Short<'_>,
    device: Device<Waiting>,
) -> Option<(Desk<Device<Waiting>>, Seat)>
    requires { device.steps ≡ [] }
    ensures { IfSome result (λ made. IsSeatOf made.0 made.1) }
{
    short.begin();
    let made = Desk::new(alloc, device);
    short.end();
    match made {
        Ok(made) => Some(made),
        Err((device, _)) => {
            short.was_refused = true;
            Desk::new(alloc, device).ok()
        }
    }
}

// Closes a desk with nothing left: not with one seat, and then with both.
fn closed(
    alloc: Global,
    hoard: &mut Hoard,
    desk: Desk<Device<Waiting>>,
    first: Seat,
    second: Seat,
) -> Option<Device<Waiting>>
    requires first { IsSeatOf desk first }
    requires second { IsSeatOf desk second }
{
    let mut seats = Vec::with_capacity(alloc, 2).ok()?;
    hoard.starve(0);
    seats.push_reserved(first);
    let Err((desk, seats, fault)) = desk.close(SeatList::from_vec(seats)) else {
        return None;
    };
    let mut seats = seats.into_vec();
    seats.push(second).ok()?;
    let device = desk.close(SeatList::from_vec(seats)).ok()?;
    hoard.feed();
    if fault == (DeskFault::SeatsOut { given: 1, made: 2 }) {
        Some(device)
    } else {
        None
    }
}

// Seat 0 opens a file handle and sets brightness to 4, which seat 1 reads. It sets it to 8; seat 1 sees three steps, the two meet, and seat 1 reads 8. What
// was refused for want of memory is asked again, and the audit at the end agrees. It says whether anything was refused.
fn goes<R: Wait>(rt: &R, alloc: Global, mut short: Short<'_>) -> Option<bool> {
    let (desk, first) = opened(alloc, &mut short, sample(alloc).ok()?)?;
    let (first, second) = desk.another(rt, first);
    let Ok(second) = second else {
        return None;
    };
    let (first, opened) = asked(rt, &mut short, &desk, first, &Ask::OpenFh { handler: 1 });
    let fh = handle_of(opened)?;
    let (first, set_4) = asked(rt, &mut short, &desk, first, &set(alloc, fh, 4).ok()?);
    let (second, get_4) = asked(rt, &mut short, &desk, second, &get(alloc, fh).ok()?);
    let (first, set_8) = asked(rt, &mut short, &desk, first, &set(alloc, fh, 8).ok()?);
    let mut second = second;
    let front = desk.front(&mut second);
    let (first, second) = desk.meet(first, second);
    let (second, get_8) = asked(rt, &mut short, &desk, second, &get(alloc, fh).ok()?);
    let device = closed(alloc, short.hoard, desk, first, second)?;
    let are_read = has_value(&set_4, 4)
        && has_value(&get_4, 4)
        && has_value(&set_8, 8)
        && has_value(&get_8, 8);
    let is_so = are_read && front == 3 && agrees(alloc, &device, 3);
    if is_so { Some(short.was_refused) } else { None }
}

// Whether a call was refused at the least budget, and no more at a greater one, and each run was as told.
fn is_swept<R: Wait>(rt: &R, alloc: Global, hoard: &mut Hoard, call: u32) -> bool {
    for k in 0..BUDGETS {
        hoard.feed();
        let short = Short {
            hoard,
            call,
            left: 16 * k,
            next: 0,
            was_refused: false,
        };
        match goes(rt, alloc, short) {
            Some(true) => {}
            Some(false) => return k > 0,
            None => return false,
        }
    }
    false
}

#[test]
fn reads_back_while_memory_is_short(rt: HostRuntime) -> Result<(), Fail> {
    let mut hoard = Hoard::new(rt.alloc())?;
    for call in 0..CALLS {
        assert!(rt; is_swept(&rt, rt.alloc(), &mut hoard, call), "{call}");
    }
    Ok(())
}
