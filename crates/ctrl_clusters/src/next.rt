//! What comes next: ranges and values into which a change is written before it is made, and how ranges follow there.

ghost use Rattle.std.specs.Prelude.{◌≡◌, ◌<◌, false, length, nat_eq, slice_set};
ghost use Rattle.std.specs.List.{All, list_any};
ghost use Rattle.ctrl_settle.specs.Settle.{settled_anew};
ghost use Rattle.ctrl_handlers.specs.Plan.{IsPlan, control_in, names_twice};
ghost use Rattle.ctrl_clusters.specs.Following.{HaveFollowed, HaveFollowedAt, range_under, ranges_under, values_under};
ghost use Rattle.ctrl_clusters.specs.Ranges.{HasRangeFor, modified};
ghost use Rattle.ctrl_clusters.specs.Rows.{AreControlsOf, value_at};

use crate::following::range_under as range_of;
use crate::ranges::Ranges;
use ctrl_calls::Driver;
use ctrl_handlers::Plan;
use ctrl_settle::{Ctrl, settle_anew};
use ctrl_types::CtrlValue;

/// The ranges and the values of a device's controls once more, into which a change is written before it is made (of this project).
#[derive(Drop)]
pub struct Next {
    /// The ranges afterwards, in the order of the controls' numbers.
    pub ranges: Ranges,
    /// The values afterwards, one for each control.
    pub values: Vec<CtrlValue>,
}

impl Next {
    /// Gives a control another range, and settles its value by the range that it then has: where it follows, the bounds that do and the default are the ones that the values
    /// give it (Linux driver API, `v4l2_ctrl_modify_range`). It takes no memory and refuses nothing.
    ///
    /// - `plan`: what the device is built of; the caller owes that these are its controls, with a value for each.
    /// - `control`: the number of a control; the caller owes one that is there.
    /// - `changed`: the control with its new range, as `Ctrl::with_range` makes it; the caller owes that its id, kind, flags, skipped items and number of elements
    ///   are those that it had.
    pub fn give_range<D: Driver>(&mut self, plan: &Plan<D>, control: u32, changed: Ctrl)
        requires plan { AreControlsOf plan.now self.old.ranges }
        requires known { control < length plan.now.controls }
        requires same { HasRangeFor (control_in self.old.ranges control) changed }
        requires values { length self.old.values.items ≡ length plan.now.controls }
        ensures ranges { self.new.ranges ≡ modified self.old.ranges control changed }
        ensures values { self.new.values.items ≡ slice_set self.old.values.items control (settled_anew (range_under plan.now.followers (modified self.old.ranges control changed) self.old.values.items control) (value_at self.old.values.items control)) }
        ensures stay { AreControlsOf plan.now self.new.ranges }
    {
        self.ranges.modify(control, changed);
        let range = range_of(
            plan.followers(),
            &self.ranges,
            self.values.as_slice(),
            control,
        );
        self.settle(control, &range);
    }

    /// Has each range that follows be the one that the values give, and settles the value of its control by it, in some clusters, where outside of these it is so already
    /// (of this project). No validator is asked, and grabs don't matter. It takes no memory and refuses nothing.
    ///
    /// - `plan`: what the device is built of; the caller owes that these are its controls, with a value for each.
    /// - `clusters`: the numbers of some clusters, each once and below `Plan::cluster_count`.
    pub fn follow<D: Driver>(&mut self, plan: &Plan<D>, clusters: &[u32])
        requires plan { AreControlsOf plan.now self.old.ranges }
        requires values { length self.old.values.items ≡ length plan.now.controls }
        requires known { All (λ k. k < length plan.now.clusters) clusters.now }
        requires once { names_twice clusters.now ≡ false }
        requires followed { HaveFollowed plan.now clusters.now self.old.ranges self.old.values.items }
        ensures ranges { self.new.ranges ≡ ranges_under plan.now.followers self.old.ranges self.old.values.items }
        ensures values { self.new.values.items ≡ values_under plan.now.followers self.old.ranges self.old.values.items }
        ensures stay { AreControlsOf plan.now self.new.ranges }
    {
        if plan.followers().is_empty() {
            return;
        }
        for &cluster in clusters {
            self.follow_members(plan, plan.members(cluster));
        }
    }

    // The same of some controls, each once.
    fn follow_members<D: Driver>(&mut self, plan: &Plan<D>, members: &[u32])
        requires sound { IsPlan plan.now }
        requires plan { AreControlsOf plan.now self.old.ranges }
        requires values { length self.old.values.items ≡ length plan.now.controls }
        requires known { All (λ c. c < length plan.now.controls) members.now }
        requires once { names_twice members.now ≡ false }
        ensures followed { HaveFollowedAt plan.now.followers (λ c. list_any (nat_eq c) members.now) self.old.ranges self.old.values.items self.new.ranges self.new.values.items }
        ensures stay { AreControlsOf plan.now self.new.ranges }
    {
        for &member in members {
            self.follow_one(plan, member);
        }
    }

    // Has the range of a control be the one that the values give, where it follows, and settles its value by it.
    fn follow_one<D: Driver>(&mut self, plan: &Plan<D>, control: u32)
        requires plan { AreControlsOf plan.now self.old.ranges }
        requires values { length self.old.values.items ≡ length plan.now.controls }
        requires known { control < length plan.now.controls }
        ensures followed { HaveFollowedAt plan.now.followers (λ c. nat_eq c control) self.old.ranges self.old.values.items self.new.ranges self.new.values.items }
        ensures stay { AreControlsOf plan.now self.new.ranges }
    {
        if plan.follower(control).is_none() {
            return;
        }
        let range = range_of(
            plan.followers(),
            &self.ranges,
            self.values.as_slice(),
            control,
        );
        self.settle(control, &range);
        self.ranges.modify(control, range);
    }

    // Settles the value of a control by a range.
    fn settle(&mut self, control: u32, range: &Ctrl)
        requires { control < length self.old.values.items }
        ensures ranges { self.new.ranges ≡ self.old.ranges }
        ensures values { self.new.values.items ≡ slice_set self.old.values.items control (settled_anew range.now (value_at self.old.values.items control)) }
    {
        let value = settle_anew(range, &self.values[control as usize]);
        self.values[control as usize] = value;
    }
}
