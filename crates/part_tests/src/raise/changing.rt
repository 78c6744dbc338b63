//! A change of a plan's controls.

ghost use Rattle.ctrl_clusters.specs.Rows.{AreControlsOf};

use crate::raise::planning::Silent;
use ctrl_clusters::{Change, Moment, Ranges};
use ctrl_types::CtrlValue;

/// The change from a moment to other ranges, values and grabs; none where there aren't as many values and grabs as controls.
pub(crate) fn change<'a>(
    before: Moment<'a, Silent>,
    ranges: &'a Ranges,
    values: &'a [CtrlValue],
    grabs: &'a [bool],
) -> Option<Change<'a, Silent>>
    requires { AreControlsOf before.plan.now ranges.now }
{
    let count = before.plan.controls().len();
    if values.len() != count || grabs.len() != count {
        return None;
    }
    Some(Change {
        before,
        ranges,
        values,
        grabs,
    })
}
