//! What a cluster is judged over in a frame that is queued: the values and the ranges of its members before that frame.

ghost use Rattle.std.specs.Prelude.{◌≡◌, ◌<◌, ◌≤◌, ◌+◌, cond, length, slice_set, Ok, Err, IfOk, IfErr};
ghost use Rattle.std.specs.List.{All};
ghost use Rattle.ctrl_handlers.specs.Plan.{members};
ghost use Rattle.ctrl_clusters.specs.Following.{range_under, ranges_under};
ghost use Rattle.ctrl_clusters.specs.Overlay.{is_touched, row_after};
ghost use Rattle.ctrl_clusters.specs.Ranges.{StayControlsOf};
ghost use Rattle.ctrl_clusters.specs.Rows.{AreControlsOf, row_of, value_at};
ghost use Rattle.frame_forecast.specs.Sparse.{IsLoaded, values_upto};

use crate::sparse::{SparseFrame, range_before, value_before};
use ctrl_calls::{Driver, RowValues, Work};
use ctrl_clusters::{Moment, Ranges};
use ctrl_forecast::row_after;
use ctrl_types::{CtrlValue, Errno, Pair};

// Loads the value and the range that a control has before the frame at a place.
fn load_control<D: Driver>(
    values: &mut Vec<CtrlValue>,
    ranges: &mut Ranges,
    at: &Moment<D>,
    frames: &[SparseFrame],
    place: usize,
    control: u32,
)
    requires place { place ≤ length frames.now }
    requires control { control < length at.now.plan.now.controls }
    requires values { length values.old.items ≡ length at.now.plan.now.controls }
    requires ranges { AreControlsOf at.now.plan.now ranges.old }
    ensures values { values.new.items ≡ slice_set values.old.items control (value_at (values_upto at.now.values.now frames.now place) control) }
    ensures ranges { ranges.new ≡ slice_set ranges.old control (range_under at.now.plan.now.followers at.now.ranges.now (values_upto at.now.values.now frames.now place) control) }
    ensures stay { AreControlsOf at.now.plan.now ranges.new }
{
    let range = range_before(
        at.plan.followers(),
        at.ranges,
        frames,
        place,
        at.values,
        control,
    );
    values[control as usize] = value_before(frames, place, at.values, control);
    ranges.modify(control, range);
}

// Loads the values and the ranges of some controls.
fn load_members<D: Driver>(
    values: &mut Vec<CtrlValue>,
    ranges: &mut Ranges,
    at: &Moment<D>,
    frames: &[SparseFrame],
    place: usize,
    members: &[u32],
)
    requires place { place ≤ length frames.now }
    requires members { All (λ c. c < length at.now.plan.now.controls) members.now }
    requires values { length values.old.items ≡ length at.now.plan.now.controls }
    requires ranges { AreControlsOf at.now.plan.now ranges.old }
    ensures loaded { All (λ c. IsLoaded at.now.plan.now.followers at.now.ranges.now (values_upto at.now.values.now frames.now place) values.new.items ranges.new c) members.now }
    ensures long { length values.new.items ≡ length at.now.plan.now.controls }
    ensures stay { AreControlsOf at.now.plan.now ranges.new }
{
    for &member in members {
        load_control(values, ranges, at, frames, place, member);
    }
}

/// Whether a cluster has a member among what a frame asks for, and then makes its row what it is in that frame, where any of its length stands; one without such a
/// member keeps the row that it has before the frame. The error is why it is refused. The row says nothing then, nor where no member is among the pairs.
///
/// - `values`, `ranges`: room for a value and a range of each control, which is written.
/// - `frames`, `place`: the frames, and the place of this one.
pub(crate) fn judged_row<D: Driver>(
    values: &mut Vec<CtrlValue>,
    ranges: &mut Ranges,
    at: &Moment<D>,
    frames: &[SparseFrame],
    place: usize,
    asked: &[Pair],
    cluster: u32,
    row: &mut RowValues,
    work: &mut Work,
) -> Result<bool, Errno>
    requires place { place ≤ length frames.now }
    requires cluster { cluster < length at.now.plan.now.clusters }
    requires values { length values.old.items ≡ length at.now.plan.now.controls }
    requires ranges { AreControlsOf at.now.plan.now ranges.old }
    requires row { length row.old ≡ length (members at.now.plan.now cluster) }
    ensures ok { IfOk result (λ is_settled. row_after D.verdict at.now.plan.now (ranges_under at.now.plan.now.followers at.now.ranges.now (values_upto at.now.values.now frames.now place)) (values_upto at.now.values.now frames.now place) at.now.grabs.now asked.now cluster ≡ Ok (cond is_settled row.new (row_of (values_upto at.now.values.now frames.now place) (members at.now.plan.now cluster)))) }
    ensures err { IfErr result (λ errno. row_after D.verdict at.now.plan.now (ranges_under at.now.plan.now.followers at.now.ranges.now (values_upto at.now.values.now frames.now place)) (values_upto at.now.values.now frames.now place) at.now.grabs.now asked.now cluster ≡ Err errno) }
    ensures long { length row.new ≡ length (members at.now.plan.now cluster) }
    ensures room { length values.new.items ≡ length at.now.plan.now.controls }
    ensures stay { AreControlsOf at.now.plan.now ranges.new }
    ensures asked { work.new.asked ≤ work.old.asked + cond (is_touched asked.now (members at.now.plan.now cluster)) 1 0 }
    ensures grows { work.old.asked ≤ work.new.asked }
    ensures told { work.new.told ≡ work.old.told }
{
    load_members(values, ranges, at, frames, place, at.plan.members(cluster));
    let over = Moment {
        plan: at.plan,
        ranges,
        values: values.as_slice(),
        grabs: at.grabs,
    };
    row_after(&over, asked, cluster, row, work)
}
