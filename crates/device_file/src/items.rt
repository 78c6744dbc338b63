//! The items of a control's menu.

ghost use Rattle.std.specs.Prelude.{◌≡◌, length, map, Ok, IfOk, IfErr};
ghost use Rattle.toml.specs.Data.{as_array, as_str, as_table};
ghost use Rattle.toml.specs.View.{view, table_view};
ghost use Rattle.ctrl_handlers.specs.Builder.{name_refusal, number_refusal};
ghost use Rattle.ctrl_handlers.specs.Plan.{with_item};
ghost use Rattle.menu_items.specs.declared.item.MenuItem.TheVariants.{Name, Number};
ghost use Rattle.device_file.specs.Stops.{Stops};
ghost use Rattle.device_file.specs.Refusals.{item_fault, refused, unless_refused};
ghost use Rattle.device_file.specs.Items.{index_named, index_problem, is_empty_text, name_problem, number_problem, with_given, with_items, with_list, with_listed, with_menu_of, with_member, with_table};

use crate::refusals::refused_item;
use crate::stop::ReadError;
use ctrl_handlers::{PlanBuilder, PlanFault};
use ctrl_settle::Ctrl;
use ctrl_types::Kind;
use data_driver::Data;
use file_faults::{Key, KeyFault, Problem, Sort};
use file_tables::reading::{find, values_of};
use toml::{Table, Value};

// Adds the items of a menu: an array has them in order, where an empty name is none, and a table by their indexes.
pub(crate) fn add_items(
    builder: &mut PlanBuilder<Data>,
    control: u32,
    ctrl: Ctrl,
    table: &Table,
) -> Result<(), ReadError>
    ensures many { IfOk result (λ _. length builder.new.handlers ≡ length builder.old.handlers) }
    ensures ok { IfOk result (λ _. with_items builder.old control ctrl (table_view table.now) ≡ Ok builder.new) }
    ensures err { IfErr result (Stops (with_items builder.old control ctrl (table_view table.now))) }
{
    match find(table, Key::Menu) {
        None => Ok(()),
        Some(menu) => add_menu(builder, control, ctrl, menu),
    }
}

fn add_menu(
    builder: &mut PlanBuilder<Data>,
    control: u32,
    ctrl: Ctrl,
    menu: &Value,
) -> Result<(), ReadError>
    ensures many { IfOk result (λ _. length builder.new.handlers ≡ length builder.old.handlers) }
    ensures ok { IfOk result (λ _. with_menu_of builder.old control ctrl (as_array (view menu.now)) (as_table (view menu.now)) ≡ Ok builder.new) }
    ensures err { IfErr result (Stops (with_menu_of builder.old control ctrl (as_array (view menu.now)) (as_table (view menu.now)))) }
{
    match menu.as_array() {
        Some(items) => add_list(builder, control, ctrl, values_of(items)),
        None => match menu.as_table() {
            Some(items) => add_table(builder, control, ctrl, items),
            None => Err(ReadError::Key(KeyFault::new(Key::Menu, Problem::Not(Sort::Menu)))),
        },
    }
}

fn add_list(
    builder: &mut PlanBuilder<Data>,
    control: u32,
    ctrl: Ctrl,
    items: &[Value],
) -> Result<(), ReadError>
    ensures many { IfOk result (λ _. length builder.new.handlers ≡ length builder.old.handlers) }
    ensures ok { IfOk result (λ _. with_list builder.old control ctrl 0 (map view items.now) ≡ Ok builder.new) }
    ensures err { IfErr result (Stops (with_list builder.old control ctrl 0 (map view items.now))) }
{
    for place in 0..items.len() {
        add_listed(builder, control, ctrl, place, &items[place])?;
    }
    Ok(())
}

// Adds the item of an array at its place; an empty name is none.
fn add_listed(
    builder: &mut PlanBuilder<Data>,
    control: u32,
    ctrl: Ctrl,
    place: usize,
    item: &Value,
) -> Result<(), ReadError>
    ensures many { IfOk result (λ _. length builder.new.handlers ≡ length builder.old.handlers) }
    ensures ok { IfOk result (λ _. with_listed builder.old control ctrl place (view item.now) ≡ Ok builder.new) }
    ensures err { IfErr result (Stops (with_listed builder.old control ctrl place (view item.now))) }
{
    let Ok(index) = u32::try_from(place) else {
        return Err(ReadError::Key(KeyFault::of_element(Key::Menu, place, Problem::OutsideMenu)));
    };
    if is_hole(item) {
        return Ok(());
    }
    add_item(builder, control, ctrl, index, item)
}

// Whether an element of an array is no item: an empty name.
fn is_hole(item: &Value) -> bool
    ensures { result ≡ is_empty_text (as_str (view item.now)) }
{
    match item.as_str() {
        Some(name) => name.len() == 0,
        None => false,
    }
}

fn add_table(
    builder: &mut PlanBuilder<Data>,
    control: u32,
    ctrl: Ctrl,
    items: &Table,
) -> Result<(), ReadError>
    ensures many { IfOk result (λ _. length builder.new.handlers ≡ length builder.old.handlers) }
    ensures ok { IfOk result (λ _. with_table builder.old control ctrl (table_view items.now) ≡ Ok builder.new) }
    ensures err { IfErr result (Stops (with_table builder.old control ctrl (table_view items.now))) }
{
    for (key, item) in items.iter() {
        add_member(builder, control, ctrl, key.as_str(), item)?;
    }
    Ok(())
}

// Adds the item of a table at the index that its key writes.
fn add_member(
    builder: &mut PlanBuilder<Data>,
    control: u32,
    ctrl: Ctrl,
    key: &str,
    item: &Value,
) -> Result<(), ReadError>
    ensures many { IfOk result (λ _. length builder.new.handlers ≡ length builder.old.handlers) }
    ensures ok { IfOk result (λ _. with_member builder.old control ctrl key.now (view item.now) ≡ Ok builder.new) }
    ensures err { IfErr result (Stops (with_member builder.old control ctrl key.now (view item.now))) }
{
    match index_of(key) {
        Ok(index) => add_item(builder, control, ctrl, index, item),
        Err(fault) => Err(ReadError::Key(fault)),
    }
}

// The index that a key of a table of items writes.
#[tactic(auto, using(crate::proofs::Indexes::index_ok, crate::proofs::Indexes::index_err))]
fn index_of(key: &str) -> Result<u32, KeyFault>
    ensures { result ≡ index_named key.now }
{
    match key.parse::<u32>() {
        Ok(index) => Ok(index),
        Err(_) => Err(KeyFault::new(Key::Menu, Problem::NotItemIndex)),
    }
}

fn add_item(
    builder: &mut PlanBuilder<Data>,
    control: u32,
    ctrl: Ctrl,
    index: u32,
    item: &Value,
) -> Result<(), ReadError>
    ensures many { IfOk result (λ _. length builder.new.handlers ≡ length builder.old.handlers) }
    ensures ok { IfOk result (λ _. with_given builder.old control ctrl index (view item.now) ≡ Ok builder.new) }
    ensures err { IfErr result (Stops (with_given builder.old control ctrl index (view item.now))) }
{
    match item.as_str() {
        Some(name) => add_name(builder, control, ctrl, index, name),
        None => match item.as_integer() {
            Some(number) => add_number(builder, control, ctrl, index, number),
            None => Err(ReadError::Key(KeyFault::of_element(
                Key::Menu,
                index as usize,
                Problem::NotItem,
            ))),
        },
    }
}

fn add_name(
    builder: &mut PlanBuilder<Data>,
    control: u32,
    ctrl: Ctrl,
    index: u32,
    name: &str,
) -> Result<(), ReadError>
    ensures many { IfOk result (λ _. length builder.new.handlers ≡ length builder.old.handlers) }
    ensures ok { IfOk result (λ _. unless_refused (item_fault index (name_problem ctrl.kind ctrl index)) (name_refusal builder.old control index name.now) (with_item builder.old control index (Name name.now)) ≡ Ok builder.new) }
    ensures err { IfErr result (Stops (unless_refused (item_fault index (name_problem ctrl.kind ctrl index)) (name_refusal builder.old control index name.now) (with_item builder.old control index (Name name.now)))) }
{
    match builder.menu_name(control, index, name) {
        Ok(()) => Ok(()),
        Err(fault) => Err(refused_name(fault, ctrl, index)),
    }
}

fn add_number(
    builder: &mut PlanBuilder<Data>,
    control: u32,
    ctrl: Ctrl,
    index: u32,
    number: i64,
) -> Result<(), ReadError>
    ensures many { IfOk result (λ _. length builder.new.handlers ≡ length builder.old.handlers) }
    ensures ok { IfOk result (λ _. unless_refused (item_fault index (number_problem ctrl.kind ctrl index)) (number_refusal builder.old control index) (with_item builder.old control index (Number number)) ≡ Ok builder.new) }
    ensures err { IfErr result (Stops (unless_refused (item_fault index (number_problem ctrl.kind ctrl index)) (number_refusal builder.old control index) (with_item builder.old control index (Number number)))) }
{
    match builder.menu_number(control, index, number) {
        Ok(()) => Ok(()),
        Err(fault) => Err(refused_number(fault, ctrl, index)),
    }
}

// What the refusal of a name at an index is.
fn refused_name(fault: PlanFault, ctrl: Ctrl, index: u32) -> ReadError
    ensures { result ≡ refused (item_fault index (name_problem ctrl.kind ctrl index)) fault }
{
    refused_item(fault, index, name_problem_of(ctrl, index))
}

// The same of a number.
fn refused_number(fault: PlanFault, ctrl: Ctrl, index: u32) -> ReadError
    ensures { result ≡ refused (item_fault index (number_problem ctrl.kind ctrl index)) fault }
{
    refused_item(fault, index, number_problem_of(ctrl, index))
}

// What is wrong with a name that a control doesn't take at an index.
fn name_problem_of(ctrl: Ctrl, index: u32) -> Problem
    ensures { result ≡ name_problem ctrl.kind ctrl index }
{
    match ctrl.kind() {
        Kind::Menu => index_problem_of(ctrl, index),
        Kind::IntegerMenu => Problem::OtherItem,
        _ => Problem::NotMenu,
    }
}

// The same of a number.
fn number_problem_of(ctrl: Ctrl, index: u32) -> Problem
    ensures { result ≡ number_problem ctrl.kind ctrl index }
{
    match ctrl.kind() {
        Kind::IntegerMenu => index_problem_of(ctrl, index),
        Kind::Menu => Problem::OtherItem,
        _ => Problem::NotMenu,
    }
}

// What is wrong with an index that a menu doesn't take.
fn index_problem_of(ctrl: Ctrl, index: u32) -> Problem
    ensures { result ≡ index_problem ctrl index }
{
    let index = i64::from(index);
    if ctrl.minimum() <= index && index <= ctrl.maximum() {
        Problem::SkippedItem
    } else {
        Problem::OutsideMenu
    }
}
