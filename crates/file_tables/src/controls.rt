//! A control as its table describes it.

ghost use Rattle.std.specs.Prelude.{◌≡◌, Err, IfOk, map, pos};
ghost use Rattle.std.specs.List.{list_any};
ghost use Rattle.toml.specs.View.{view, table_view};
ghost use Rattle.ctrl_settle.specs.Control.{control_of};
ghost use Rattle.ctrl_settle.specs.Faults.{CanDeclare, IsWellFormed};
ghost use Rattle.ctrl_settle.specs.FirstFault.{can_skip, has_elems};
ghost use Rattle.file_tables.specs.Reading.{read_as};
ghost use Rattle.file_tables.specs.Controls.{bit_at, control_at, description_in, elems_in, flag_bits_of, flag_of, flags_in, id_by_name, id_by_number, id_in, is_sayable, kind_in, last_item, lies_in, maximums, minimums, misfit, divides, name_at, range, said_of, skip_bits_of, skip_in, skipped, step_in, usual_maximum, usual_step, wrong_elems};

use crate::bounds::{first_default, first_maximum, first_minimum, read_bound};
use crate::names::{flag_named, kind_named};
use crate::reading::{elements, elements_of, find, needed_text, number, number_or, truth};
use bitflags::Flags as FlagSet;
use control_ids::id_named;
use ctrl_settle::{Ctrl, CtrlConfig, CtrlFault};
use ctrl_types::{CtrlId, Flags, Kind, MAX_ELEMENTS};
use file_faults::{Key, KeyFault, Problem, Sort};
use toml::{Table, Value};

/// The control that a table describes, whose keys are known (`struct v4l2_ctrl_config`). Its name and its items aren't looked at, nor what its range follows: a bound that
/// follows another control counts as the other bound, or as 0 where both do, and the default then as the minimum.
///
/// - `table`: the table, which has no other keys.
///
/// Refused with the first fault, in the order of docs/DEVICES.md: key by key, and then what is wrong with them together.
pub fn control_in(table: &Table) -> Result<Ctrl, KeyFault>
    ensures described { result ≡ control_at (table_view table.now) }
    ensures well_formed { IfOk result IsWellFormed }
{
    let config = config_in(table)?;
    match config.build() {
        Ok(ctrl) => Ok(ctrl),
        Err(fault) => Err(fault_of(&config, fault)),
    }
}

// Which key of a control that is refused is wrong, and how.
fn fault_of(config: &CtrlConfig, fault: CtrlFault) -> KeyFault
    ensures { result ≡ said_of (control_of config.now) fault }
{
    match fault {
        CtrlFault::BadRange => KeyFault::new(Key::Min, Problem::BadRange),
        CtrlFault::ZeroStep => KeyFault::new(Key::Step, Problem::ZeroStep),
        CtrlFault::KindBounds => misfit_of(config),
        CtrlFault::BadDefault => KeyFault::new(Key::Default, Problem::BadDefault),
    }
}

// The first of skip, elems, min and max that isn't of the type; step where these are.
fn misfit_of(config: &CtrlConfig) -> KeyFault
    ensures { result ≡ misfit (control_of config.now) }
{
    let problem = Problem::NotOfType(config.kind);
    if !skip_fits(config.kind, config.skip) {
        KeyFault::new(Key::Skip, problem)
    } else if !elems_fit(config.kind, config.elems) {
        KeyFault::new(Key::Elems, elems_problem(config.kind))
    } else if !minimum_fits(config) {
        KeyFault::new(Key::Min, problem)
    } else if !maximum_fits(config) {
        KeyFault::new(Key::Max, problem)
    } else {
        KeyFault::new(Key::Step, problem)
    }
}

fn skip_fits(kind: Kind, skip: u64) -> bool
    ensures { result ≡ can_skip kind skip }
{
    match kind {
        Kind::Menu => true,
        Kind::IntegerMenu => true,
        _ => skip == 0,
    }
}

// Whether a type has so many elements: an array 1 to 32, and another control none.
fn elems_fit(kind: Kind, elems: Option<u32>) -> bool
    ensures { result ≡ has_elems kind elems }
{
    match (kind, elems) {
        (Kind::U8, Some(elems)) => 1 <= elems && elems as usize <= MAX_ELEMENTS,
        (Kind::U8, None) => false,
        (_, elems) => elems.is_none(),
    }
}

// What is wrong where it hasn't so many.
fn elems_problem(kind: Kind) -> Problem
    ensures { result ≡ wrong_elems kind }
{
    match kind {
        Kind::U8 => Problem::NotOfType(Kind::U8),
        _ => Problem::OnlyArrays,
    }
}

fn minimum_fits(config: &CtrlConfig) -> bool
    ensures { result ≡ lies_in (minimums config.now.kind) config.now.minimum }
{
    let (least, most) = minimums_of(config.kind);
    least <= config.minimum && config.minimum <= most
}

fn maximum_fits(config: &CtrlConfig) -> bool
    ensures { result ≡ lies_in (maximums config.now.kind) config.now.maximum }
{
    let (least, most) = maximums_of(config.kind);
    least <= config.maximum && config.maximum <= most
}

// The least and the greatest number that a type takes as minimum.
fn minimums_of(kind: Kind) -> (i64, i64)
    ensures { range result.0 result.1 ≡ minimums kind }
{
    match kind {
        Kind::Integer => (-0x8000_0000, 0x7fff_ffff),
        Kind::Integer64 => (i64::MIN, i64::MAX),
        Kind::Menu => (0, 63),
        Kind::IntegerMenu => (0, 63),
        Kind::U8 => (0, 255),
        _ => (0, 0),
    }
}

// And as maximum.
fn maximums_of(kind: Kind) -> (i64, i64)
    ensures { range result.0 result.1 ≡ maximums kind }
{
    match kind {
        Kind::Boolean => (1, 1),
        Kind::Bitmask => (1, 0xffff_ffff),
        kind => minimums_of(kind),
    }
}

fn config_in(table: &Table) -> Result<CtrlConfig, KeyFault>
    ensures described { read_as control_of result ≡ description_in (table_view table.now) }
    ensures declared { IfOk result (λ config. CanDeclare config.flags) }
{
    let id = id_of(table)?;
    let kind = kind_of(table)?;
    let low = read_bound(table, kind, Key::Min)?;
    let high = read_bound(table, kind, Key::Max)?;
    let step = step_of(table, kind)?;
    let default_value = read_bound(table, kind, Key::Default)?;
    let elems = elems_of(table)?;
    let skip = skip_of(table)?;
    let flags = flags_of(table)?;
    let is_private = truth(table, Key::Private)?;
    let usual = maximum_of(kind, last_of(table));
    Ok(CtrlConfig {
        id,
        kind,
        minimum: first_minimum(usual, low, high),
        maximum: first_maximum(usual, low, high),
        step,
        default_value: first_default(usual, low, high, default_value),
        skip,
        flags,
        is_private,
        elems,
    })
}

fn id_of(table: &Table) -> Result<CtrlId, KeyFault>
    ensures { result ≡ id_in (table_view table.now) }
{
    match find(table, Key::Id) {
        None => Err(KeyFault::new(Key::Id, Problem::Missing)),
        Some(value) => match value.as_str() {
            Some(name) => kernel_id_of(name),
            None => id_number(value.as_integer()),
        },
    }
}

// The id that the kernel has for a name.
fn kernel_id_of(name: &str) -> Result<CtrlId, KeyFault>
    ensures { result ≡ id_by_name name.now }
{
    match id_named(name) {
        Some(id) => Ok(CtrlId(id)),
        None => Err(KeyFault::new(Key::Id, Problem::UnknownId)),
    }
}

// The id that is a number.
fn id_number(number: Option<i64>) -> Result<CtrlId, KeyFault>
    ensures { result ≡ id_by_number number }
{
    match number {
        Some(number) => match u32::try_from(number) {
            Ok(id) => Ok(CtrlId(id)),
            Err(_) => Err(KeyFault::new(Key::Id, Problem::NotWord)),
        },
        None => Err(KeyFault::new(Key::Id, Problem::Not(Sort::Id))),
    }
}

fn kind_of(table: &Table) -> Result<Kind, KeyFault>
    ensures { result ≡ kind_in (table_view table.now) }
{
    match needed_text(table, Key::Type) {
        Ok(text) => match kind_named(text) {
            Some(kind) => Ok(kind),
            None => Err(KeyFault::new(Key::Type, Problem::UnknownType)),
        },
        Err(fault) => Err(fault),
    }
}

// The place of the last item that an array gives a menu; 0 where there is none.
fn last_of(table: &Table) -> i64
    ensures { result ≡ last_item (table_view table.now) }
{
    elements_of(table, Key::Menu).len().saturating_sub(1) as i64
}

// The maximum of a control whose table has none; a menu's is the place of its last item.
fn maximum_of(kind: Kind, last: i64) -> i64
    ensures { result ≡ usual_maximum kind last }
{
    match kind {
        Kind::Boolean => 1,
        Kind::Menu => last,
        Kind::IntegerMenu => last,
        Kind::U8 => 255,
        _ => 0,
    }
}

// The step of a control whose table has none.
fn usual_step_of(kind: Kind) -> i64
    ensures { result ≡ pos (usual_step kind) }
{
    match kind {
        Kind::Button => 0,
        Kind::Bitmask => 0,
        _ => 1,
    }
}

// The step of a control; that of its type where the table has none.
fn step_of(table: &Table, kind: Kind) -> Result<u64, KeyFault>
    ensures { result ≡ step_in kind (table_view table.now) }
{
    match u64::try_from(number_or(table, Key::Step, usual_step_of(kind))?) {
        Ok(step) => Ok(step),
        Err(_) => Err(KeyFault::new(Key::Step, Problem::Negative)),
    }
}

// How many elements an array has; none where the table doesn't say.
fn elems_of(table: &Table) -> Result<Option<u32>, KeyFault>
    ensures { result ≡ elems_in (table_view table.now) }
{
    match number(table, Key::Elems)? {
        None => Ok(None),
        Some(number) => match u32::try_from(number) {
            Ok(elems) => Ok(Some(elems)),
            Err(_) => Err(KeyFault::new(Key::Elems, Problem::NotWord)),
        },
    }
}

// The bits of the items that are skipped.
fn skip_of(table: &Table) -> Result<u64, KeyFault>
    ensures { result ≡ skip_in (table_view table.now) }
{
    skip_bits(elements(table, Key::Skip, Sort::Array)?)
}

fn skip_bits(values: &[Value]) -> Result<u64, KeyFault>
    ensures { result ≡ skip_bits_of (map view values.now) }
{
    let mut skip = 0u64;
    for place in 0..values.len() {
        match skipped_by(&values[place]) {
            Some(bit) => skip |= bit,
            None => return Err(KeyFault::of_element(Key::Skip, place, Problem::NotIndex)),
        }
    }
    Ok(skip)
}

// The bit of an index of 0 to 63.
fn skipped_by(value: &Value) -> Option<u64>
    ensures { result ≡ skipped (view value.now) }
{
    match value.as_integer() {
        Some(index) => match u64::try_from(index) {
            Ok(index) => bit_of(index),
            Err(_) => None,
        },
        None => None,
    }
}

fn bit_of(index: u64) -> Option<u64>
    ensures { result ≡ bit_at index }
{
    if index < 64 {
        Some(1u64 << index)
    } else {
        None
    }
}

// The flags of a control: none that comes and goes as the device runs.
fn flags_of(table: &Table) -> Result<Flags, KeyFault>
    ensures flags { result ≡ flags_in (table_view table.now) }
    ensures declared { IfOk result CanDeclare }
{
    let bits = flag_bits(elements(table, Key::Flags, Sort::Array)?)?;
    Ok(Flags::from_bits_retain(bits))
}

fn flag_bits(values: &[Value]) -> Result<u32, KeyFault>
    ensures { result ≡ flag_bits_of (map view values.now) }
{
    let mut bits = 0u32;
    for place in 0..values.len() {
        match flag_by(&values[place]) {
            Some(bit) => bits |= bit,
            None => return Err(KeyFault::of_element(Key::Flags, place, Problem::UnknownFlag)),
        }
    }
    Ok(bits)
}

// The bit of a flag's name.
fn flag_by(value: &Value) -> Option<u32>
    ensures { result ≡ flag_of (view value.now) }
{
    match value.as_str() {
        Some(text) => flag_named(text),
        None => None,
    }
}

/// What scripts call the control of a table; refused where it has no name, or one that no script can say.
pub fn name_in(table: &Table) -> Result<&str, KeyFault>
    ensures { read_as (λ name. name.now) result ≡ name_at (table_view table.now) }
{
    match needed_text(table, Key::Name) {
        Ok(name) => {
            if is_word(name.as_bytes()) {
                Ok(name)
            } else {
                Err(KeyFault::new(Key::Name, Problem::NotName))
            }
        }
        Err(fault) => Err(fault),
    }
}

fn is_word(name: &[u8]) -> bool
    ensures { result ≡ is_sayable name.now }
{
    !name.is_empty() && !is_divided(name)
}

fn is_divided(name: &[u8]) -> bool
    ensures { result ≡ list_any divides name.now }
{
    name.iter()
        .any(|byte| *byte == b' ' || *byte == b'=' || *byte == b'\n')
}
