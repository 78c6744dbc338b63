//! Room to judge a frame in.

ghost use Rattle.std.specs.Prelude.{IfOk};
ghost use Rattle.frame_forecast.specs.Boards.{IsRoomFor};

use ctrl_calls::Driver;
use ctrl_clusters::{Ranges, default_values};
use ctrl_handlers::Plan;
use ctrl_types::CtrlValue;
use std::alloc::{AllocError, Global};
use std::marker::Model;

/// A range and two values for each control of a plan, to judge a frame in. Contracts see the ranges, and how many values there are.
#[derive(Drop)]
pub(crate) struct JudgingRoom {
    pub(crate) ranges: Ranges,
    pub(crate) values: Vec<CtrlValue>,
    pub(crate) spare: Vec<CtrlValue>,
}

impl Model for JudgingRoom {
    ghost use Rattle.std.specs.Prelude.{length};
    ghost use Rattle.frame_forecast.specs.Boards.{RoomData};

    ghost Value = { RoomData };

    ghost view = { λ r. record { ranges = r.ranges; values = length r.values.items; spare = length r.spare.items } };
}

impl JudgingRoom {
    /// Room for the controls of a plan. The error is that a growth was refused.
    pub(crate) fn new<D: Driver>(alloc: Global, plan: &Plan<D>) -> Result<JudgingRoom, AllocError>
        ensures { IfOk result (IsRoomFor plan.now) }
    {
        Ok(JudgingRoom {
            ranges: Ranges::of_plan(alloc, plan)?,
            values: default_values(alloc, plan.controls())?,
            spare: default_values(alloc, plan.controls())?,
        })
    }
}
