//! Why clusters of queued frames are refused, in words.

use crate::why::put_broken;
use crate::words::{members_of, put_cluster, word_of};
use ctrl_calls::Driver;
use ctrl_types::{Check, CtrlValue, Errno};
use device_state::{Device, Plan};
use frame_reasons::{ClusterReason, frame_reason};
use script_lines::ControlWords;
use std::alloc::{AllocError, Global};
use view_layout::Page;

/// Clusters that are refused in a frame, by their numbers, each with the reason.
pub type RefusedClusters = Vec<(u32, ClusterReason)>;

/// The clusters that will be refused in the frame at a place of the queue, in rising order, each with the reason; none where no frame is queued there. The error
/// is that a growth was refused.
pub fn refused_at<D: Driver>(
    alloc: Global,
    device: &Device<D>,
    place: usize,
) -> Result<RefusedClusters, AllocError> {
    let mut found = Vec::new(alloc);
    let Some(row) = device.row(place) else {
        return Ok(found);
    };
    for cluster in row.refused {
        if let Some(reason) = frame_reason(device, place, *cluster) {
            found.push((*cluster, reason))?;
        }
    }
    Ok(found)
}

/// Puts a cluster on a page, and why it is refused: the check of docs/RULES.md by which a list with these values would be, and what doesn't meet it.
///
/// - `becomes`: what stands between the cluster and the reason: that it is refused, or will be.
pub fn put_refused_cluster<D: Driver>(
    page: &mut Page,
    known: &ControlWords,
    plan: &Plan<D>,
    becomes: &str,
    cluster: u32,
    reason: ClusterReason,
) {
    put_cluster(page, known, plan, cluster);
    page.put(becomes);
    match reason {
        ClusterReason::Grabbed(control) => {
            put_broken(page, Check::EntryGrabbed);
            page.put(": ");
            page.put(word_of(known, control));
        }
        ClusterReason::ValueNotTaken {
            control,
            value,
            check,
        } => {
            put_broken(page, check);
            page.put(": ");
            put_asked(page, known, control, &value);
        }
        ClusterReason::RowNotTaken(row) => {
            // (the number and the words are those of each row that is refused)
            put_broken(page, Check::RowRefused(Errno::EINVAL));
            page.put(":");
            for (member, value) in members_of(plan, cluster).iter().zip(row.values()) {
                page.put(" ");
                put_asked(page, known, *member, value);
            }
        }
    }
}

// Puts a control on a page with the value that it would have.
fn put_asked(page: &mut Page, known: &ControlWords, control: u32, value: &CtrlValue) {
    page.put(word_of(known, control));
    page.put("=");
    page.put_value(value);
}
