ghost use Rattle.std.specs.Prelude.{◌≡◌, ◌≤◌, length, map, Ok, Some, IfOk, IfErr, OnOk};
ghost use Rattle.toml.specs.Parse.{parse_document};
ghost use Rattle.toml.specs.View.{table_view, view};
ghost use Rattle.ctrl_handlers.specs.Plan.{finished};
ghost use Rattle.device_file.specs.Devices.{Describes, IsRefusedWith, IsUnreadable, camera_of, data_of, device_of, file_of, names_in, parts_of, with_clusters_of};
ghost use Rattle.device_file.specs.Stops.{FileStops};
ghost use Rattle.file_faults.specs.declared.fault.FileFault.TheVariants as files;

use crate::class_names::ClassNames;
use crate::classes::add_classes;
use crate::clusters::add_clusters;
use crate::handlers::add_handlers;
use crate::headings::add_headings;
use ctrl_handlers::{Plan, PlanBuilder};
use ctrl_settle::Ctrl;
use data_driver::Data;
use file_faults::{FILE_KEYS, FileFault, Key, KeyFault, Place, Problem, Sort};
use file_tables::reading::{elements, no_others};
use range_followers::Follower;
use script_lines::ControlWords;
use std::alloc::Global;
use toml::{Table, Value};

/// How many bytes a device file has at most (of this project).
pub const MAX_FILE: usize = 1_048_576;

/// What a file describes.
#[derive(Drop)]
pub struct DeviceFile {
    /// The plan of its handlers, controls, menus and clusters.
    pub plan: Plan<Data>,
    /// The words by which scripts name its controls, in the order of their numbers.
    pub words: ControlWords,
    /// How ranges follow other controls, in the order of the numbers of those that follow; none of these is followed. Each control has the range that it is wanted to
    /// have at the start (`following_ranges` has it move later).
    pub followers: Vec<Follower>,
    /// The names that the file gives to classes of its controls, by which their headings are called.
    pub classes: ClassNames,
}

/// Reads a file that describes a device.
///
/// - `text`: the bytes of the file, which are UTF-8 and TOML; at most 1 MiB. An empty file is a device of nothing.
///
/// Refused with the first fault that is met, in the order of docs/DEVICES.md; `explain` has it in words.
#[tactic(auto, using(crate::proofs::Files::unread, crate::proofs::Files::first_fault))]
pub fn read_device(alloc: Global, text: &[u8]) -> Result<DeviceFile, FileFault>
    ensures ok { IfOk result (λ file. Describes device_of text.now (data_of file)) }
    ensures err { IfErr result (IsRefusedWith text.now) }
{
    match table_of(alloc, text) {
        Ok(file) => device_in(alloc, &file),
        Err(fault) => Err(fault),
    }
}

/// Reads a file that describes a device, as a camera shows it to programs: what `read_device` reads, with the same numbers, and behind it the headings of classes. A handler
/// has one for each class of which it shows a control, under the id that is the class with bit 0 set, where it shows nothing under this id. They stand behind the
/// controls of the file: those of handler 0, then of handler 1, and so on, of each rising by their ids; of more than 256 controls the last headings are left out. A
/// heading has no word, is alone in its cluster, and can be neither read nor written; handlers that add its handler have their own.
///
/// - `text`: as of `read_device`.
///
/// Refused as by `read_device`.
#[tactic(auto, using(crate::proofs::Files::unread, crate::proofs::Files::first_fault))]
pub fn read_camera(alloc: Global, text: &[u8]) -> Result<DeviceFile, FileFault>
    ensures ok { IfOk result (λ file. Describes camera_of text.now (data_of file)) }
    ensures err { IfErr result (IsRefusedWith text.now) }
{
    match table_of(alloc, text) {
        Ok(file) => camera_in(alloc, &file),
        Err(fault) => Err(fault),
    }
}

// The table of a file.
#[tactic(auto, using(crate::proofs::Files::too_long, crate::proofs::Files::no_toml))]
fn table_of(alloc: Global, text: &[u8]) -> Result<Table, FileFault>
    ensures short { IfOk result (λ _. length text.now ≤ MAX_FILE) }
    ensures ok { IfOk result (λ file. parse_document text.now ≡ Some (table_view file)) }
    ensures err { IfErr result (IsUnreadable text.now) }
{
    if text.len() > MAX_FILE {
        return Err(KeyFault::new(Key::Table, Problem::TooLong).at(Place::File));
    }
    match toml::table_from_slice(alloc, text) {
        Ok(file) => Ok(file),
        Err(error) => {
            if error.is_memory() {
                Err(FileFault::Memory)
            } else {
                Err(KeyFault::new(Key::Table, Problem::Syntax(error)).at(Place::File))
            }
        }
    }
}

/// Reads the table of a file that describes a device, as `read_device` does.
///
/// - `file`: any table.
///
/// Refused with the first fault that is met, in the order of docs/DEVICES.md.
pub fn device_in(alloc: Global, file: &Table) -> Result<DeviceFile, FileFault>
    ensures ok { IfOk result (λ it. device_of (table_view file.now) ≡ Ok (data_of it)) }
    ensures err { IfErr result (FileStops (device_of (table_view file.now))) }
{
    let parts = parts_in(alloc, file)?;
    finish(parts)
}

// The same with the headings of classes, as `read_camera` reads it.
fn camera_in(alloc: Global, file: &Table) -> Result<DeviceFile, FileFault>
    ensures ok { IfOk result (λ it. camera_of (table_view file.now) ≡ Ok (data_of it)) }
    ensures err { IfErr result (FileStops (device_of (table_view file.now))) }
{
    let plain = device_in(alloc, file)?;
    let mut parts = parts_in(alloc, file)?;
    match add_headings(&mut parts.builder, &plain.plan) {
        Ok(()) => finish(parts),
        Err(_) => Err(FileFault::Memory),
    }
}

// What a file describes, before its plan is finished.
#[derive(Drop)]
struct Parts {
    builder: PlanBuilder<Data>,
    words: ControlWords,
    followers: Vec<Follower>,
    classes: ClassNames,
}

// Reads the parts of a file's table.
fn parts_in(alloc: Global, file: &Table) -> Result<Parts, FileFault>
    ensures ok { IfOk result (λ it. parts_of (table_view file.now) ≡ Ok (file_of it.builder it.words it.followers.items it.classes)) }
    ensures err { IfErr result (FileStops (parts_of (table_view file.now))) }
{
    if let Err(fault) = no_others(file, FILE_KEYS) {
        return Err(fault.at(Place::File));
    }
    let tables = match elements(file, Key::Handler, Sort::Tables) {
        Ok(tables) => tables,
        Err(fault) => return Err(fault.at(Place::File)),
    };
    let mut builder = PlanBuilder::new(alloc);
    let mut words = ControlWords::new(alloc);
    let mut followers = Vec::new(alloc);
    add_handlers(alloc, &mut builder, tables, &mut words, &mut followers)?;
    add_clusters_of(alloc, &mut builder, tables, file, &words)?;
    let classes = classes_in(alloc, builder.controls(), file)?;
    Ok(Parts {
        builder,
        words,
        followers,
        classes,
    })
}

// Adds the clusters of a file, whose handlers are these, and whose controls have these words.
fn add_clusters_of(
    alloc: Global,
    builder: &mut PlanBuilder<Data>,
    handlers: &[Value],
    file: &Table,
    words: &ControlWords,
) -> Result<(), FileFault>
    ensures ok { OnOk result (with_clusters_of (map view handlers.now) (table_view file.now) words.now builder.old ≡ Ok builder.new) }
    ensures err { IfErr result (FileStops (with_clusters_of (map view handlers.now) (table_view file.now) words.now builder.old)) }
{
    match elements(file, Key::Cluster, Sort::Tables) {
        Ok(tables) => add_clusters(alloc, builder, handlers, tables, words),
        Err(fault) => Err(fault.at(Place::File)),
    }
}

// The names that a file, whose controls are these, gives to classes.
fn classes_in(alloc: Global, controls: &[Ctrl], file: &Table) -> Result<ClassNames, FileFault>
    ensures ok { IfOk result (λ names. names_in controls.now (table_view file.now) ≡ Ok names) }
    ensures err { IfErr result (FileStops (names_in controls.now (table_view file.now))) }
{
    let tables = match elements(file, Key::Class, Sort::Tables) {
        Ok(tables) => tables,
        Err(fault) => return Err(fault.at(Place::File)),
    };
    let mut names = ClassNames::new(alloc);
    add_classes(alloc, &mut names, controls, tables)?;
    Ok(names)
}

// Finishes the plan. The error is that a growth was refused.
fn finish(parts: Parts) -> Result<DeviceFile, FileFault>
    ensures ok { IfOk result (λ it. data_of it ≡ file_of (finished parts.builder) parts.words parts.followers.items parts.classes) }
    ensures err { IfErr result (λ fault. fault ≡ files.Memory) }
{
    let Parts {
        builder,
        words,
        followers,
        classes,
    } = parts;
    match builder.finish() {
        Ok(plan) => Ok(DeviceFile {
            plan,
            words,
            followers,
            classes,
        }),
        Err(_) => Err(FileFault::Memory),
    }
}
