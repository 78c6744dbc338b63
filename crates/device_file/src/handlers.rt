//! The handlers of a file, with their controls.

ghost use Rattle.std.specs.Prelude.{◌≡◌, ◌+◌, ◌<◌, ◌≤◌, [], length, map, position, Ok, IfOk, IfErr, OnOk};
ghost use Rattle.std.specs.Result.{result_map_both};
ghost use Rattle.toml.specs.View.{view, table_view};
ghost use Rattle.ctrl_handlers.specs.declared.limits.TheConstants.{MAX_HANDLERS};
ghost use Rattle.device_file.specs.Stops.{FileStops, Stops};
ghost use Rattle.device_file.specs.Handlers.{added_in as number_added, device, handler_in, handler_named, has_name as is_named, new_name as name_for, with_built, with_control_of, with_controls, with_handler_of, with_handlers, with_named, with_new_handler, with_other, with_others};

use crate::items::add_items;
use crate::ranges::{keep, read_in};
use crate::refusals::{refused_adding, refused_control, refused_handler};
use crate::stop::ReadError;
use ctrl_handlers::PlanBuilder;
use ctrl_settle::Ctrl;
use data_driver::Data;
use file_faults::{CONTROL_KEYS, FileFault, HANDLER_KEYS, Key, KeyFault, Place, Problem, Sort};
use file_tables::name_in;
use file_tables::reading::{elements, needed_text, table_with, text};
use range_followers::Follower;
use script_lines::ControlWords;
use std::alloc::Global;
use toml::{Table, Value};

// Adds the handlers that these values describe with their controls, and the words for these.
pub(crate) fn add_handlers(
    alloc: Global,
    builder: &mut PlanBuilder<Data>,
    tables: &[Value],
    words: &mut ControlWords,
    followers: &mut Vec<Follower>,
) -> Result<(), FileFault>
    requires none { builder.old.handlers ≡ [] }
    ensures ok { OnOk result (with_handlers [] (device builder.old words.old followers.old.items) 0 (map view tables.now) ≡ Ok (device builder.new words.new followers.new.items)) }
    ensures err { IfErr result (FileStops (with_handlers [] (device builder.old words.old followers.old.items) 0 (map view tables.now))) }
{
    for number in 0..tables.len() {
        let earlier = &tables[..number];
        add_handler(
            alloc,
            builder,
            earlier,
            number,
            &tables[number],
            words,
            followers,
        )?;
    }
    Ok(())
}

// Adds the handler of this number with its controls; these stand further up.
fn add_handler(
    alloc: Global,
    builder: &mut PlanBuilder<Data>,
    earlier: &[Value],
    number: usize,
    value: &Value,
    words: &mut ControlWords,
    followers: &mut Vec<Follower>,
) -> Result<(), FileFault>
    requires many { length builder.old.handlers ≡ number }
    requires few { number ≤ MAX_HANDLERS }
    requires above { length earlier.now ≤ number }
    ensures many { OnOk result (length builder.new.handlers ≡ number + 1) }
    ensures few { OnOk result (number + 1 ≤ MAX_HANDLERS) }
    ensures ok { OnOk result (with_handler_of (map view earlier.now) (device builder.old words.old followers.old.items) number (view value.now) ≡ Ok (device builder.new words.new followers.new.items)) }
    ensures err { IfErr result (FileStops (with_handler_of (map view earlier.now) (device builder.old words.old followers.old.items) number (view value.now))) }
{
    let place = Place::Handler(number);
    let handler = match handler_table(earlier, value) {
        Ok(handler) => handler,
        Err(fault) => return Err(fault.at(place)),
    };
    let number = match put_handler(builder, earlier, handler) {
        Ok(number) => number,
        Err(error) => return Err(error.at(place)),
    };
    match elements(handler, Key::Control, Sort::Tables) {
        Ok(tables) => add_controls(alloc, builder, number, tables, words, followers),
        Err(fault) => Err(fault.at(place)),
    }
}

// The table of a handler, which has no other keys, and a name that no earlier one has.
fn handler_table<'a>(earlier: &[Value], value: &'a Value) -> Result<&'a Table, KeyFault>
    ensures { result_map_both (λ handler. table_view handler.now) (λ fault. fault) result ≡ handler_in (map view earlier.now) (view value.now) }
{
    let handler = table_with(value, HANDLER_KEYS)?;
    let name = needed_text(handler, Key::Name)?;
    match place_of(earlier, name) {
        Some(_) => Err(KeyFault::new(Key::Name, Problem::NameTaken)),
        None => Ok(handler),
    }
}

// Which of some handlers has a name.
fn place_of(handlers: &[Value], name: &str) -> Option<usize>
    ensures { result ≡ handler_named (map view handlers.now) name.now }
{
    first_named(handlers, name)
}

fn first_named(handlers: &[Value], name: &str) -> Option<usize>
    ensures { result ≡ position (λ handler. is_named name.now (view handler)) handlers.now }
{
    handlers.iter().position(|handler| has_name(handler, name))
}

fn has_name(handler: &Value, name: &str) -> bool
    ensures { result ≡ is_named name.now (view handler.now) }
{
    match handler.as_table() {
        Some(handler) => match text(handler, Key::Name) {
            Ok(Some(text)) => text == name,
            _ => false,
        },
        None => false,
    }
}

// Adds a handler, which adds others; its number.
fn put_handler(
    builder: &mut PlanBuilder<Data>,
    earlier: &[Value],
    handler: &Table,
) -> Result<u32, ReadError>
    requires few { length builder.old.handlers ≤ MAX_HANDLERS }
    requires above { length earlier.now ≤ length builder.old.handlers }
    ensures number { IfOk result (λ number. number ≡ length builder.old.handlers) }
    ensures many { OnOk result (length builder.new.handlers ≡ length builder.old.handlers + 1) }
    ensures few { OnOk result (length builder.old.handlers + 1 ≤ MAX_HANDLERS) }
    ensures ok { OnOk result (with_new_handler (map view earlier.now) builder.old (length builder.old.handlers) (table_view handler.now) ≡ Ok builder.new) }
    ensures err { IfErr result (Stops (with_new_handler (map view earlier.now) builder.old (length builder.old.handlers) (table_view handler.now))) }
{
    let number = match builder.handler() {
        Ok(number) => number,
        Err(fault) => return Err(refused_handler(fault)),
    };
    match elements(handler, Key::Adds, Sort::Array) {
        Ok(names) => add_others(builder, number, names, earlier)?,
        Err(fault) => return Err(ReadError::Key(fault)),
    }
    Ok(number)
}

// Adds what earlier handlers of these names show.
fn add_others(
    builder: &mut PlanBuilder<Data>,
    number: u32,
    names: &[Value],
    earlier: &[Value],
) -> Result<(), ReadError>
    requires few { length earlier.now ≤ MAX_HANDLERS }
    requires above { length earlier.now ≤ number }
    requires there { number < length builder.old.handlers }
    ensures many { OnOk result (length builder.new.handlers ≡ length builder.old.handlers) }
    ensures ok { OnOk result (with_others (map view earlier.now) builder.old number 0 (map view names.now) ≡ Ok builder.new) }
    ensures err { IfErr result (Stops (with_others (map view earlier.now) builder.old number 0 (map view names.now))) }
{
    for place in 0..names.len() {
        add_other(builder, number, place, &names[place], earlier)?;
    }
    Ok(())
}

// Adds what an earlier handler shows.
fn add_other(
    builder: &mut PlanBuilder<Data>,
    number: u32,
    place: usize,
    name: &Value,
    earlier: &[Value],
) -> Result<(), ReadError>
    requires few { length earlier.now ≤ MAX_HANDLERS }
    requires above { length earlier.now ≤ number }
    requires there { number < length builder.old.handlers }
    ensures many { OnOk result (length builder.new.handlers ≡ length builder.old.handlers) }
    ensures ok { OnOk result (with_other (map view earlier.now) builder.old number place (view name.now) ≡ Ok builder.new) }
    ensures err { IfErr result (Stops (with_other (map view earlier.now) builder.old number place (view name.now))) }
{
    let added = match added_in(place, name, earlier) {
        Ok(added) => added,
        Err(fault) => return Err(ReadError::Key(fault)),
    };
    match builder.add_handler(number, added) {
        Ok(()) => Ok(()),
        Err(fault) => Err(refused_adding(fault, place)),
    }
}

// The number of the earlier handler that a value names.
fn added_in(place: usize, name: &Value, earlier: &[Value]) -> Result<u32, KeyFault>
    requires few { length earlier.now ≤ MAX_HANDLERS }
    ensures number { result ≡ number_added (map view earlier.now) place (view name.now) }
    ensures below { IfOk result (λ added. added < length earlier.now) }
{
    let Some(word) = name.as_str() else {
        return Err(KeyFault::of_element(Key::Adds, place, Problem::Not(Sort::Text)));
    };
    match place_of(earlier, word) {
        Some(added) => Ok(added as u32),
        None => Err(KeyFault::of_element(Key::Adds, place, Problem::UnknownHandler)),
    }
}

// Adds these controls of a handler, and their words.
fn add_controls(
    alloc: Global,
    builder: &mut PlanBuilder<Data>,
    handler: u32,
    tables: &[Value],
    words: &mut ControlWords,
    followers: &mut Vec<Follower>,
) -> Result<(), FileFault>
    ensures many { OnOk result (length builder.new.handlers ≡ length builder.old.handlers) }
    ensures ok { OnOk result (with_controls (device builder.old words.old followers.old.items) handler 0 (map view tables.now) ≡ Ok (device builder.new words.new followers.new.items)) }
    ensures err { IfErr result (FileStops (with_controls (device builder.old words.old followers.old.items) handler 0 (map view tables.now))) }
{
    for number in 0..tables.len() {
        match add_control(alloc, builder, handler, &tables[number], words, followers) {
            Ok(()) => {}
            Err(error) => return Err(error.at(Place::Control(handler as usize, number))),
        }
    }
    Ok(())
}

// Adds a control with its items, and its word.
fn add_control(
    alloc: Global,
    builder: &mut PlanBuilder<Data>,
    handler: u32,
    value: &Value,
    words: &mut ControlWords,
    followers: &mut Vec<Follower>,
) -> Result<(), ReadError>
    ensures many { OnOk result (length builder.new.handlers ≡ length builder.old.handlers) }
    ensures ok { OnOk result (with_control_of (device builder.old words.old followers.old.items) handler (view value.now) ≡ Ok (device builder.new words.new followers.new.items)) }
    ensures err { IfErr result (Stops (with_control_of (device builder.old words.old followers.old.items) handler (view value.now))) }
{
    let control = match table_with(value, CONTROL_KEYS) {
        Ok(control) => control,
        Err(fault) => return Err(ReadError::Key(fault)),
    };
    match new_name(control, words) {
        Ok(name) => add_named(alloc, builder, handler, control, name, words, followers),
        Err(fault) => Err(ReadError::Key(fault)),
    }
}

// What scripts call the control of a table; no other control has the name.
fn new_name<'a>(control: &'a Table, words: &ControlWords) -> Result<&'a str, KeyFault>
    ensures { result_map_both (λ name. name.now) (λ fault. fault) result ≡ name_for words.now (table_view control.now) }
{
    match name_in(control) {
        Ok(name) => {
            if words.number_of(name.as_bytes()).is_some() {
                Err(KeyFault::new(Key::Name, Problem::NameTaken))
            } else {
                Ok(name)
            }
        }
        Err(fault) => Err(fault),
    }
}

// Adds the control of a table, which scripts call so.
fn add_named(
    alloc: Global,
    builder: &mut PlanBuilder<Data>,
    handler: u32,
    control: &Table,
    name: &str,
    words: &mut ControlWords,
    followers: &mut Vec<Follower>,
) -> Result<(), ReadError>
    ensures many { OnOk result (length builder.new.handlers ≡ length builder.old.handlers) }
    ensures ok { OnOk result (with_named (device builder.old words.old followers.old.items) handler (table_view control.now) name.now ≡ Ok (device builder.new words.new followers.new.items)) }
    ensures err { IfErr result (Stops (with_named (device builder.old words.old followers.old.items) handler (table_view control.now) name.now)) }
{
    let read = match read_in(builder.controls(), words, followers.as_slice(), control) {
        Ok(read) => read,
        Err(fault) => return Err(ReadError::Key(fault)),
    };
    let number = build_control(builder, handler, control, read.ctrl)?;
    match words.push(alloc, name.as_bytes(), read.ctrl.id(), number) {
        Ok(()) => keep(followers, number, &read),
        Err(_) => Err(ReadError::Memory),
    }
}

// Adds a control with the items of its table; its number.
fn build_control(
    builder: &mut PlanBuilder<Data>,
    handler: u32,
    control: &Table,
    ctrl: Ctrl,
) -> Result<u32, ReadError>
    ensures many { OnOk result (length builder.new.handlers ≡ length builder.old.handlers) }
    ensures number { IfOk result (λ number. number ≡ length builder.old.controls) }
    ensures ok { OnOk result (with_built builder.old handler (table_view control.now) ctrl ≡ Ok builder.new) }
    ensures err { IfErr result (Stops (with_built builder.old handler (table_view control.now) ctrl)) }
{
    match builder.control(handler, ctrl) {
        Ok(number) => {
            add_items(builder, number, ctrl, control)?;
            Ok(number)
        }
        Err(fault) => Err(refused_control(fault)),
    }
}
