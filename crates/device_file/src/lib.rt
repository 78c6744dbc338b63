//! A device that is described by a file: its handlers, controls, menus and clusters, what the clusters are held to, and what is told of
//! them. The file is TOML; its schema and every refusal stand in docs/DEVICES.md.
#![tactic(auto)]

mod class_names;
mod classes;
mod clusters;
mod device;
mod handlers;
mod headings;
mod items;
mod ranges;
mod refusals;
mod stop;

pub use class_names::{ClassNames, MAX_CLASS_NAME};
pub use device::{DeviceFile, MAX_FILE, device_in, read_camera, read_device};
pub use file_faults::{FileFault, Key, KeyFault, Place, Problem, Sort, explain, line_of};
