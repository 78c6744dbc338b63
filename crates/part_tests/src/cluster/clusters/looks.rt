// What a plan is asked at values, as data.
ghost use Rattle.std.specs.Prelude.{◌<◌, length};

use super::planning::{Made, Named, plan_of};
use super::rows::is_work;
use crate::cluster::common::controls_of;
use crate::cluster::driver::Strict;
use crate::values::{are_numbers, is_row, pairs_of, row_of};
use bitflags::Flags as FlagSet;
use ctrl_calls::{ClusterRow, RowValues, Work};
use ctrl_clusters::{
    Moment, flags_under, inactive, judge, present_row, range_at, read_row, validated_row,
};
use ctrl_forecast::overlay;
use ctrl_types::{CtrlValue, Errno, Pair};
use std::alloc::{AllocError, Global};
use std::process::Abort;
use std::test::Fail;

/// What a plan is asked, and what it answers.
#[derive(Clone, Copy)]
pub enum Look {
    // what the row of a cluster becomes under pairs, and how many validators are asked
    Becomes(u32, &'static [(u32, i64)], Answer, u64),
    // what a cluster makes of a row, and how many validators are asked
    Judges(u32, &'static [i64], Answer, u64),
    // the row of some controls
    Row(&'static [u32], &'static [i64]),
    // the control is inactive
    Inactive(u32, bool),
    // the flags of a control under grabs
    Flags(u32, &'static [bool], u32),
    // the minimum and the maximum that the values give a control
    Range(u32, i64, i64),
    // under grabs pairs are laid over the values: the values then, the clusters that are refused, and how many validators are asked
    Lays(&'static [bool], &'static [(u32, i64)], &'static [i64], &'static [u32], u64),
}

pub type Answer = Result<&'static [i64], Errno>;

// Whether this is answered, and where it is accepted the row has these values.
fn is_answer(answer: Result<(), Errno>, row: &RowValues, want: Answer) -> bool {
    match (answer, want) {
        (Ok(()), Ok(values)) => is_row(row, values),
        (Err(errno), Err(wanted)) => errno == wanted,
        _ => false,
    }
}

fn is_becoming(
    at: &Moment<Strict>,
    cluster: u32,
    pairs: &[Pair],
    want: Answer,
    asked: u64,
) -> bool {
    if cluster >= at.plan.cluster_count() {
        return false;
    }
    let mut work = Work::new();
    let mut row = RowValues::zeros(at.plan.members(cluster).len());
    let answer = validated_row(at, cluster, pairs, &mut row, &mut work);
    is_answer(answer, &row, want) && is_work(&work, asked, 0)
}

fn is_judged(at: &Moment<Strict>, cluster: u32, numbers: &[i64], want: Answer, asked: u64) -> bool {
    let Some(mut row) = row_of(numbers) else {
        return false;
    };
    if cluster >= at.plan.cluster_count() || row.len() != at.plan.members(cluster).len() {
        return false;
    }
    let mut work = Work::new();
    let answer = judge(at, cluster, &mut row, &mut work);
    // a row that is refused stays
    is_answer(answer, &row, want)
        && (want.is_ok() || is_row(&row, numbers))
        && is_work(&work, asked, 0)
}

fn has_row(values: &[CtrlValue], members: &[u32], want: &[i64]) -> bool {
    let count = values.len();
    if members.len() > 8 || !members.iter().all(|member| (*member as usize) < count) {
        return false;
    }
    let mut read = ClusterRow::zeros(members.len());
    read_row(values, members, &mut read);
    are_numbers(read.values(), want) && are_numbers(present_row(values, members).values(), want)
}

// The same moment under other grabs; none where they aren't as many as the controls.
fn under<'a>(at: &Moment<'a, Strict>, grabs: &'a [bool]) -> Option<Moment<'a, Strict>> {
    if grabs.len() != at.plan.controls().len() {
        return None;
    }
    Some(Moment {
        plan: at.plan,
        ranges: at.ranges,
        values: at.values,
        grabs,
    })
}

fn has_flags(at: &Moment<Strict>, control: u32, want: u32) -> bool {
    control < at.plan.control_count() && flags_under(at, control).bits() == want
}

fn has_range(at: &Moment<Strict>, control: u32, want: (i64, i64)) -> bool
    requires { control < length at.now.plan.now.controls }
{
    let ctrl = range_at(at, control);
    (ctrl.minimum(), ctrl.maximum()) == want
}

fn lays(
    alloc: Global,
    at: &Moment<Strict>,
    pairs: &[Pair],
    want: (&[i64], &[u32], u64),
) -> Result<bool, AllocError> {
    let mut work = Work::new();
    let laid = overlay(alloc, at, pairs, &mut work)?;
    let is_laid = are_numbers(laid.values.as_slice(), want.0) && laid.refused.as_slice() == want.1;
    Ok(is_laid && is_work(&work, want.2, 0))
}

fn shows(alloc: Global, at: &Moment<Strict>, look: Look) -> Result<bool, Fail> {
    Ok(match look {
        Look::Becomes(cluster, asked, want, count) => {
            let pairs = pairs_of(alloc, asked)?;
            is_becoming(at, cluster, pairs.as_slice(), want, count)
        }
        Look::Judges(cluster, row, want, asked) => is_judged(at, cluster, row, want, asked),
        Look::Row(members, want) => has_row(at.values, members, want),
        Look::Inactive(control, want) => {
            control < at.plan.control_count() && inactive(at.plan, at.values, control) == want
        }
        Look::Flags(control, grabs, want) => match under(at, grabs) {
            Some(held) => has_flags(&held, control, want),
            None => false,
        },
        Look::Range(control, minimum, maximum) => {
            control < at.plan.control_count() && has_range(at, control, (minimum, maximum))
        }
        Look::Lays(grabs, asked, want, refused, count) => {
            let pairs = pairs_of(alloc, asked)?;
            match under(at, grabs) {
                Some(held) => lays(alloc, &held, pairs.as_slice(), (want, refused, count))?,
                None => false,
            }
        }
    })
}

/// A plan of these controls and clusters shows this at these values.
pub fn holds(
    rt: &impl Abort,
    alloc: Global,
    made: &[Made],
    named: &[Named],
    numbers: &[i64],
    looks: &[Look],
) -> Result<(), Fail> {
    let plan = plan_of(alloc, made, named, &mut Vec::new(alloc))?;
    let controls = controls_of(alloc, &plan, numbers)?;
    let at = controls.at(&plan);
    for (row, &look) in looks.iter().enumerate() {
        let is_shown = shows(alloc, &at, look)?;
        assert!(rt; is_shown, "look {row}");
    }
    Ok(())
}
