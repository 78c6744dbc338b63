//! What cases run on.

use crate::case::Case;
use crate::starved::counting::Counts;
use crate::starved::rebuilt::{is_alike, rebuilt};
use ctrl_handlers::Plan;
use data_driver::Data;
use device_file::read_device;
use script_lines::ControlWords;
use std::alloc::{AllocError, Global};

/// The device of a file.
#[derive(Drop)]
pub struct Ground {
    /// What it is built of.
    pub plan: Plan<Data>,
    /// The words for its controls.
    pub words: ControlWords,
    /// Whether it is another than the sample device, and has a notifier.
    pub is_other_told: bool,
}

/// What a case runs on; nothing where its file describes no device that can be built once more with closures that count. The first of all cases is the file of the sample device.
pub fn ground_of(
    alloc: Global,
    cases: &[Case<'_>],
    case: &Case<'_>,
) -> Result<Option<Ground>, AllocError> {
    let Some(file) = cases.get(case.device) else {
        return Ok(None);
    };
    let Ok(read) = read_device(alloc, file.text.as_slice()) else {
        return Ok(None);
    };
    let counts = Counts::new(alloc)?;
    if !is_alike(&read.plan, &rebuilt(alloc, &read.plan, &counts)?) {
        return Ok(None);
    }
    let is_told = (0..read.plan.cluster_count()).any(|it| read.plan.notifier(it).is_some());
    Ok(Some(Ground {
        plan: read.plan,
        words: read.words,
        is_other_told: case.device > 0 && is_told,
    }))
}
