//! The row of a cluster under values that are asked for.

ghost use Rattle.std.specs.Prelude.{◌≡◌, ◌<◌, ◌≤◌, true, length, is_some, unwrap_or, Ok, Err, OnOk, IfErr, IfSome};
ghost use Rattle.std.specs.List.{All};
ghost use Rattle.ctrl_calls.specs.declared.row.TheConstants.{MAX_MEMBERS};
ghost use Rattle.ctrl_settle.specs.Faults.{IsWellFormed};
ghost use Rattle.ctrl_settle.specs.Settle.{settle};
ghost use Rattle.ctrl_handlers.specs.Plan.{control_in};
ghost use Rattle.ctrl_types.specs.Checks.{with_errno};
ghost use Rattle.ctrl_types.specs.Pairs.{last_value};
ghost use Rattle.ctrl_clusters.specs.Rows.{value_at, overwritten, settle_row, member_value};
ghost use Rattle.ctrl_clusters.specs.Judging.{is_value, takes_row};
ghost use Rattle.ctrl_clusters.specs.Lone.{AreLone};

use crate::ranges::Ranges;
use ctrl_calls::RowValues;
use ctrl_settle::settle_value;
use ctrl_types::{Check, CtrlValue, Errno, Pair};

/// Settles what is asked of a cluster's members, in member order, into a row: the last pair's value of each, or else its present one. The errno is that of the
/// first that doesn't settle. The members take the settled row as it is.
pub(crate) fn settle_row(
    ranges: &Ranges,
    values: &[CtrlValue],
    pairs: &[Pair],
    members: &[u32],
    row: &mut RowValues,
) -> Result<(), Errno>
    requires known { All (λ c. c < length ranges.now) members.now }
    requires values { All (λ c. c < length values.now) members.now }
    requires lone { AreLone ranges.now members.now }
    requires long { length row.old ≡ length members.now }
    ensures ok { OnOk result (settle_row ranges.now members.now (overwritten values.now pairs.now members.now) ≡ Ok row.new) }
    ensures err { IfErr result (λ errno. settle_row ranges.now members.now (overwritten values.now pairs.now members.now) ≡ Err errno) }
    ensures taken { OnOk result (takes_row ranges.now members.now row.new ≡ true) }
    ensures long { length row.new ≡ length members.now }
{
    for (place, &member) in members.iter().enumerate() {
        match settle_asked(ranges, values, pairs, member) {
            Ok(value) => row.set(place, value),
            Err(check) => return Err(check.errno()),
        }
    }
    Ok(())
}

// What a control takes for what is asked of it.
#[tactic(auto, unfolding(ctrl_settle::specs::Settle::settle))]
fn settle_asked(
    ranges: &Ranges,
    values: &[CtrlValue],
    pairs: &[Pair],
    control: u32,
) -> Result<CtrlValue, Check>
    requires known { control < length ranges.now }
    requires values { control < length values.now }
    ensures settled { with_errno result ≡ settle (control_in ranges.now control) (unwrap_or (last_value pairs.now control) (value_at values.now control)) }
    ensures well_formed { IsWellFormed (control_in ranges.now control) }
{
    settle_value(ranges.range(control), asked_of(values, pairs, control))
}

// The value that is asked of a control: its last pair's, or else its present one.
#[tactic(auto, using(crate::proofs::RowLemmas::asked_next))]
fn asked_of<'a>(values: &'a [CtrlValue], pairs: &'a [Pair], control: u32) -> &'a CtrlValue
    requires { control < length values.now }
    ensures { result.now ≡ unwrap_or (last_value pairs.now control) (value_at values.now control) }
{
    let mut asked = &values[control as usize];
    for pair in pairs {
        if pair.control == control {
            asked = &pair.value;
        }
    }
    asked
}

/// The row of these values, where the members take them as they are; a row of another length they don't take.
pub(crate) fn taken_row(ranges: &Ranges, members: &[u32], values: &[CtrlValue]) -> Option<RowValues>
    requires known { All (λ c. c < length ranges.now) members.now }
    requires few { length members.now ≤ MAX_MEMBERS }
    requires lone { AreLone ranges.now members.now }
    ensures taken { is_some result ≡ takes_row ranges.now members.now values.now }
    ensures row { IfSome result (λ row. row ≡ values.now) }
    ensures long { IfSome result (λ row. length row ≡ length members.now) }
{
    if !takes_row(ranges, members, values) {
        return None;
    }
    RowValues::from_slice(values)
}

// Whether members take the values of a row as they are.
fn takes_row(ranges: &Ranges, members: &[u32], row: &[CtrlValue]) -> bool
    requires { All (λ c. c < length ranges.now) members.now }
    ensures taken { result ≡ takes_row ranges.now members.now row.now }
    ensures long { result ≡ true → length row.now ≡ length members.now }
{
    if row.len() != members.len() {
        return false;
    }
    for (place, &member) in members.iter().enumerate() {
        if !takes_at(ranges, member, row, place) {
            return false;
        }
    }
    true
}

// Whether a member takes its value of a row as it is.
#[tactic(auto, unfolding(ctrl_settle::specs::Settle::settle))]
fn takes_at(ranges: &Ranges, member: u32, row: &[CtrlValue], place: usize) -> bool
    requires known { member < length ranges.now }
    requires within { place < length row.now }
    ensures { result ≡ is_value (settle (control_in ranges.now member) (value_at row.now place)) (value_at row.now place) }
{
    match settle_value(ranges.range(member), &row[place]) {
        Ok(taken) => taken.is_same(&row[place]),
        Err(_) => false,
    }
}

/// The value that a row gives one of a cluster's members, where the control is one (Linux driver API, "V4L2 Controls", "Control
/// Clusters").
///
/// - `members`: the numbers of the cluster's members, in member order.
/// - `row`: a value for each of them; the caller owes exactly as many.
/// - `control`: the number of a control, which needn't be a member; then there is none.
///
/// It takes no memory and refuses nothing.
#[tactic(auto, using(crate::proofs::RowLemmas::given_next))]
pub fn member_value(members: &[u32], row: &RowValues, control: u32) -> Option<CtrlValue>
    requires { length row.now ≡ length members.now }
    ensures { result ≡ member_value members.now row.now control }
{
    for (place, &member) in members.iter().enumerate() {
        if member == control {
            return Some(row.value(place));
        }
    }
    None
}
