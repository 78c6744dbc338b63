//! What queued frames will have where a range follows a value, as they are queued and once one is taken out.

ghost use Rattle.ctrl_clusters.specs.Following.{AreAtRest};
ghost use Rattle.ctrl_clusters.specs.Moments.{parts};

use crate::forecast::driver::Ordered;
use crate::values::{are_numbers, pairs_of};
use bitflags::Flags as FlagSet;
use ctrl_calls::Work;
use ctrl_clusters::{Controls, Moment};
use ctrl_forecast::Queued;
use ctrl_handlers::{DefaultSource, Follower, Plan, PlanBuilder, Source};
use ctrl_settle::Ctrl;
use ctrl_types::{CtrlId, Flags, Kind, Pair, RequestId};
use frame_forecast::Board;
use std::alloc::{AllocError, Global};
use std::test::Fail;

fn number(id: u32) -> Result<Ctrl, Fail> {
    match Ctrl::new(
        CtrlId(id),
        Kind::Integer,
        0,
        255,
        1,
        0,
        0,
        Flags::empty(),
        false,
    ) {
        Ok(ctrl) => Ok(ctrl),
        Err(_) => Err(Fail::new("a control")),
    }
}

// Three numbers of 0 to 255; the maximum of the second is 20 more than the first.
fn plan_of(alloc: Global) -> Result<Plan<Ordered>, Fail> {
    let mut builder = PlanBuilder::new(alloc);
    let handler = builder.handler()?;
    for id in 0..3 {
        builder.control(handler, number(id)?)?;
    }
    builder.follow(&Follower {
        control: 1,
        minimum: None,
        maximum: Some(Source {
            control: 0,
            plus: 20,
        }),
        default_value: DefaultSource::Number(0),
    })?;
    match builder.finish() {
        Ok(plan) => Ok(plan),
        Err(_) => Err(Fail::new("the plan")),
    }
}

// What frames ask for, the place of one that is taken out, where one is, and what the others will have then.
struct Case {
    frames: &'static [&'static [(u32, i64)]],
    taken_out: Option<usize>,
    rows: &'static [[i64; 3]],
}

const CASES: &[Case] = &[
    // it is judged by the range of before, which follows afterwards
    Case {
        frames: &[&[(0, 200), (1, 100)]],
        taken_out: None,
        rows: &[[200, 20, 0]],
    },
    // the first makes room for the second
    Case {
        frames: &[&[(0, 200)], &[(1, 250)], &[(0, 90), (2, 7)]],
        taken_out: None,
        rows: &[[200, 0, 0], [200, 220, 0], [90, 110, 7]],
    },
    // and takes it away where it is taken out
    Case {
        frames: &[&[(0, 200)], &[(1, 250)], &[(0, 90), (2, 7)]],
        taken_out: Some(0),
        rows: &[[0, 20, 0], [90, 20, 7]],
    },
    Case {
        frames: &[&[(0, 200)], &[(1, 250)], &[(0, 90), (2, 7)]],
        taken_out: Some(1),
        rows: &[[200, 0, 0], [90, 0, 7]],
    },
];

// Whether the frames will have these values, and there are no others.
fn has(
    alloc: Global,
    board: &Board,
    at: &Moment<Ordered>,
    rows: &[[i64; 3]],
) -> Result<bool, AllocError> {
    for (place, numbers) in rows.iter().enumerate() {
        let Some(row) = board.row(place, at.values) else {
            return Ok(false);
        };
        let forecast = row.to_forecast(alloc)?;
        if !are_numbers(forecast.values.as_slice(), numbers) {
            return Ok(false);
        }
    }
    Ok(board.len() == rows.len())
}

fn queued<'a>(alloc: Global, asked: &'a [Vec<Pair>]) -> Result<Vec<Queued<'a>>, AllocError> {
    let mut queued = Vec::new(alloc);
    for pairs in asked {
        queued.push(Queued::new(RequestId(1), 1, pairs.as_slice()))?;
    }
    Ok(queued)
}

// Whether a case is so.
#[tactic(auto, using(frame_forecast::proofs::BoardLemmas::own_queued))]
fn holds(alloc: Global, at: &Moment<Ordered>, case: &Case) -> Result<bool, AllocError>
    requires { AreAtRest at.now.plan.now (parts at.now) }
{
    let mut asked = Vec::new(alloc);
    for frame in case.frames {
        asked.push(pairs_of(alloc, frame)?)?;
    }
    let mut work = Work::new();
    let queued = queued(alloc, asked.as_slice())?;
    let mut board = Board::compute(alloc, at, queued.as_slice(), &mut work)?;
    if let Some(place) = case.taken_out {
        if place < board.len() {
            board.remove(place, at, &mut work);
        }
    }
    has(alloc, &board, at, case.rows)
}

#[test]
#[tactic(auto, using(ctrl_clusters::proofs::FollowingLemmas::start_rested))]
fn frames_follow_what_those_before_them_leave(rt: HostRuntime) -> Result<(), Fail> {
    let alloc = rt.alloc();
    let plan = plan_of(alloc)?;
    let controls = Controls::of_plan(alloc, &plan)?;
    let at = controls.at(&plan);
    for case in CASES {
        assert!(rt; holds(alloc, &at, case)?);
    }
    Ok(())
}
