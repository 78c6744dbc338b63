ghost use Rattle.std.specs.Prelude.{◌≡◌, true, IfErr, IfOk, OnErr};
ghost use Rattle.std.specs.List.{All};
ghost use Rattle.device_history.specs.AskChecks.{published};
ghost use Rattle.device_state.specs.Device.{MayRefuse};
ghost use Rattle.following_ranges.specs.Following.{HandlesAndFollows, IsOfRoom, is_change};

use crate::asking::{RangeAsk, follow};
use ctrl_calls::Driver;
use ctrl_types::Refusal;
use device_history::spoken;
use device_state::{Ask, Device, Reply};
use range_followers::Follower;
use std::alloc::{AllocError, Global};

/// Answers an ask at a seat as `Device::ask` does, and then has ranges follow (of this project): where the ask moved a value that some control follows, each
/// control whose range isn't the one that it is wanted to have (`wanted_range`) is asked once to have it, in rising control numbers, by `ModifyRange` at the same
/// seat. Each is a step like any other. So it is too behind an accepted change that moved no followed value, where a range that was refused is owed; a change is a
/// set of present values, the begin of a frame, and a range change. No other ask is made; so none behind one that is refused, a get, a try or a store.
///
/// - `alloc`: where the answers to the device's own asks lie, and for the moment the values of before. Only a change takes room.
/// - `device`: any.
/// - `followers`: how its controls follow others. Of two of one number the first counts; one whose control isn't there, or is neither an integer nor an integer64,
///   is none. No control that follows is to be followed, so that those asks move no followed value.
/// - `owed`: whether a range that was refused is owed, false at first; the caller keeps it from one ask of the device to the next. Where ranges were asked for it is then whether one of them was
///   refused, and else what it was.
/// - `seat`: who asks, a number that is kept with each step.
/// - `ask`: any ask.
///
/// Answered is what the ask is, a refusal as what refuses it, and each of the device's own in their order. Only want of memory (ENOMEM, 12) and the limit of steps (ENOSPC, 28) refuse one of these: what was
/// asked stands then, the others are asked, and the next accepted change has it asked again.
///
/// The error is that no room was made for the answers, behind a change alone; the device wasn't asked then, and what is owed stays.
pub fn handle_and_follow<D: Driver>(
    alloc: Global,
    device: &mut Device<D>,
    followers: &[Follower],
    owed: &mut bool,
    seat: u32,
    ask: &Ask,
) -> Result<(Result<Reply, Refusal>, Vec<RangeAsk>), AllocError>
    ensures ok { IfOk result (λ told. HandlesAndFollows D.verdict followers.now device.old device.new owed.old owed.new seat ask.now (published ask.now told.0) told.1.items) }
    ensures why { IfOk result (λ told. IfErr told.0 (MayRefuse D.verdict device.old ask.now)) }
    ensures of_room { IfOk result (λ told. All (λ one. IsOfRoom one.refusal) told.1.items) }
    ensures err { OnErr result (device.new ≡ device.old) }
    ensures err_owed { OnErr result (owed.new ≡ owed.old) }
    ensures err_change { OnErr result (is_change ask.now ≡ true) }
{
    if !is_change(ask) {
        return Ok((device.ask(seat, ask), Vec::new(alloc)));
    }
    let before = Vec::from_slice(alloc, device.values())?;
    let room = device.plan().control_count() as usize;
    let mut due = Vec::with_capacity(alloc, room)?;
    let mut asked = Vec::with_capacity(alloc, room)?;
    let answer = device.ask(seat, ask);
    if answer.is_err() {
        return Ok((answer, asked));
    }
    follow(
        device,
        followers,
        before.as_slice(),
        owed,
        seat,
        &mut due,
        &mut asked,
    );
    Ok((answer, asked))
}

// Whether an ask can be a change: a set that speaks of no request, the begin of a frame, and a range change.
fn is_change(ask: &Ask) -> bool
    ensures { result ≡ is_change ask.now }
{
    match ask {
        Ask::SetCtrls { which, request, .. } => spoken(*which, *request).is_none(),
        Ask::Begin | Ask::ModifyRange { .. } => true,
        _ => false,
    }
}
