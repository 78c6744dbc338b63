//! The values that some of the queued frames leave.

ghost use Rattle.std.specs.Prelude.{◌≡◌, ◌<◌, ◌≤◌, ◌↔◌, ℕ, length, IfOk, IsTrue};
ghost use Rattle.ctrl_handlers.specs.Plan.{AreAmong};
ghost use Rattle.ctrl_clusters.specs.Following.{range_under};
ghost use Rattle.ctrl_clusters.specs.Rows.{value_at};
ghost use Rattle.frame_forecast.specs.Sparse.{values_upto};

use crate::sparse::{SparseFrame, range_before, value_before};
use ctrl_clusters::Ranges;
use ctrl_settle::Ctrl;
use ctrl_types::CtrlValue;
use range_followers::Follower;
use std::alloc::{AllocError, Global};
use std::marker::Model;

/// The values that queued frames leave, each over those of the one before: a look, which takes no memory (of this project). Contracts see it as the values, one for each
/// control.
#[derive(Drop)]
pub struct Behind<'a> {
    frames: &'a [SparseFrame],
    // those before the first of them
    values: &'a [CtrlValue],
}

impl<'a> Model for Behind<'a> {
    ghost use Rattle.std.specs.Prelude.{List, length};
    ghost use Rattle.ctrl_types.specs.declared.value.CtrlValue.{CtrlValue};
    ghost use Rattle.frame_forecast.specs.Sparse.{values_upto};

    ghost Value = { List CtrlValue };

    ghost view = { λ b. values_upto b.values.now b.frames.now (length b.frames.now) };
}

impl<'a> Behind<'a> {
    // Behind so many of the frames, where these values stand before the first.
    #[tactic(auto, using(crate::proofs::BoardLemmas::upto_taken))]
    pub(crate) fn of(frames: &'a [SparseFrame], count: usize, values: &'a [CtrlValue]) -> Behind<'a>
        requires { count ≤ length frames.now }
        ensures { result ≡ values_upto values.now frames.now count }
    {
        Behind {
            frames: &frames[..count],
            values,
        }
    }

    /// The value of a control (of this project). It takes no memory.
    ///
    /// - `control`: the number of a control; the caller owes one that is there.
    pub fn value(&self, control: u32) -> CtrlValue
        requires { control < length self.now }
        ensures { result ≡ value_at self.now control }
    {
        value_before(self.frames, self.frames.len(), self.values, control)
    }

    /// A control with the range that these values give it: the one that is wanted for them, where it follows, and else its own (of this project). It takes no memory.
    ///
    /// - `followers`: how ranges follow, each a control that has a value, as what it follows has.
    /// - `ranges`: the controls with their ranges, before the first frame or behind any.
    /// - `control`: the number of a control; the caller owes one that is there.
    pub fn range(&self, followers: &[Follower], ranges: &Ranges, control: u32) -> Ctrl
        requires followers { AreAmong (length self.now) followers.now }
        requires control { control < length ranges.now }
        ensures { result ≡ range_under followers.now ranges.now self.now control }
    {
        range_before(
            followers,
            ranges,
            self.frames,
            self.frames.len(),
            self.values,
            control,
        )
    }

    // Whether these are the values that others are, of as many controls.
    pub(crate) fn is_like(&self, other: &Behind<'_>) -> bool
        requires same { length self.now ≡ length other.now }
        requires few { length self.now ≤ 4294967295 }
        ensures { IsTrue result ↔ (self.now ≡ other.now) }
    {
        self.is_like_below(other, self.values.len())
    }

    // Whether the first controls have the same values.
    fn is_like_below(&self, other: &Behind<'_>, count: usize) -> bool
        requires within { count ≤ length self.now }
        requires same { length self.now ≡ length other.now }
        requires few { length self.now ≤ 4294967295 }
        ensures { IsTrue result ↔ ((k : ℕ) → k < count → value_at self.now k ≡ value_at other.now k) }
    {
        for control in 0..count {
            if !self.is_like_at(other, control) {
                return false;
            }
        }
        true
    }

    // Whether a control has the same value.
    fn is_like_at(&self, other: &Behind<'_>, control: usize) -> bool
        requires within { control < length self.now }
        requires other { control < length other.now }
        requires few { length self.now ≤ 4294967295 }
        ensures { IsTrue result ↔ (value_at self.now control ≡ value_at other.now control) }
    {
        let number = control as u32;
        self.value(number).is_same(&other.value(number))
    }

    /// The same in memory of its own (of this project), which is taken from `alloc`. The error is that a growth was refused.
    pub fn to_values(&self, alloc: Global) -> Result<Vec<CtrlValue>, AllocError>
        ensures { IfOk result (λ values. values.items ≡ self.now) }
    {
        let mut values = Vec::from_slice(alloc, self.values)?;
        write_all(&mut values, self.frames);
        Ok(values)
    }
}

// Writes what frames give into values, one after another.
fn write_all(values: &mut Vec<CtrlValue>, frames: &[SparseFrame])
    ensures { values.new.items ≡ values_upto values.old.items frames.now (length frames.now) }
{
    for frame in frames {
        frame.write_into(values);
    }
}
