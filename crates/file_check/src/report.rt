use crate::clusters::warn_of_clusters;
use crate::controls::warn_of_controls;
use crate::draft::Draft;
use crate::lines::Lines;
use device_file::{DeviceFile, read_device};
use file_faults::{FileFault, explain};
use std::alloc::{AllocError, Global};

/// How many faults are said of a file at most (of this project).
pub const MAX_FAULTS: usize = 20;

// How often a file is read at most: for each table with a fault a few times, also for those of which nothing is said.
const MOST_READS: usize = 1_000;

/// What is said of a device file.
#[derive(Drop)]
pub struct Report {
    /// The device; none where the file has a fault.
    pub device: Option<DeviceFile>,
    /// What is said, a line each, without its end: the faults, as `explain` has them, and then the warnings, which begin with `warning: `.
    pub lines: Vec<String>,
}

/// Checks a file that describes a device.
///
/// - `text`: the bytes of the file.
///
/// Of each handler, each control, each cluster and each class the first fault is said, of the first 20 that have one, in the order in which `read_device` meets them; so the first
/// line is the fault that it answers. What may only come of a fault further up isn't said: a table with a fault counts as one that has none, with the same name, id
/// and members; and where a control, or a handler, has a name that can't be known, no name of a control, or of a handler, is said to be unknown. Where the file as a
/// whole is wrong, as its syntax is, or a handler or control is one too many, nothing that stands behind it is said. Warnings are of controls and clusters without a fault.
///
/// The error is that a growth was refused.
pub fn check_file(alloc: Global, text: &[u8]) -> Result<Report, AllocError> {
    let Some(mut draft) = Draft::read(alloc, text)? else {
        return unread(alloc, text);
    };
    let mut lines = Lines::new(alloc, text);
    for _ in 0..MOST_READS {
        let (place, fault) = match draft.device(alloc) {
            Ok(device) => {
                put_warnings(&mut lines, &draft, &device)?;
                return Ok(Report {
                    device: if draft.is_whole() { Some(device) } else { None },
                    lines: lines.all,
                });
            }
            Err(FileFault::Memory) => return Err(AllocError),
            Err(FileFault::Table { place, fault }) => (place, fault),
        };
        if draft.is_news(place, fault.problem) {
            lines.fault(&draft.fault_in_file(place, fault))?;
        }
        if lines.all.len() == MAX_FAULTS || !draft.mend(alloc, place, &fault)? {
            break;
        }
    }
    Ok(Report {
        device: None,
        lines: lines.all,
    })
}

// What is said of a file that is too long, or no TOML.
fn unread(alloc: Global, text: &[u8]) -> Result<Report, AllocError> {
    let mut lines = Vec::new(alloc);
    let device = match read_device(alloc, text) {
        Ok(device) => Some(device),
        Err(FileFault::Memory) => return Err(AllocError),
        Err(fault) => {
            lines.push(explain(alloc, text, &fault)?)?;
            None
        }
    };
    Ok(Report { device, lines })
}

fn put_warnings(
    lines: &mut Lines<'_>,
    draft: &Draft,
    device: &DeviceFile,
) -> Result<(), AllocError> {
    let controls = draft.controls(lines.alloc)?;
    warn_of_controls(lines, draft, &device.plan, controls.as_slice())?;
    warn_of_clusters(lines, draft, device, controls.as_slice())
}
