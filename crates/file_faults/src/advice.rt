//! What to do about a fault, where more can be said than what is wrong: a word that may be meant, or how it is written.

ghost use Rattle.std.specs.Prelude.{◌≤◌};

use crate::explaining::brief;
use crate::key::Key;
use crate::place::{Place, table_at};
use crate::problem::{Problem, Sort};
use crate::schema::{CONTROL_KEYS, keys_at};
use control_ids::rows;
use ctrl_types::{CtrlId, Kind, Which};
use near_words::Nearest;
use std::alloc::{AllocError, Global};
use std::fmt::Write;
use toml::{Table, Value};

// A fault whose words are written.
#[derive(Clone, Copy)]
pub(crate) struct Told<'a> {
    // the file, and which of its tables is wrong
    pub file: &'a Table,
    pub place: Place,
    // the key as it stands there, and as it is known
    pub key: Option<&'a str>,
    pub known: Key,
    // the value that is wrong, where there is one
    pub value: Option<&'a Value>,
}

// Writes it behind what is wrong.
pub(crate) fn write_advice(
    out: &mut String,
    alloc: Global,
    problem: Problem,
    told: &Told<'_>,
) -> Result<(), AllocError> {
    match problem {
        Problem::UnknownKey => write_keys(out, alloc, told),
        Problem::Missing => write!(out, "{}", kinds_at(told)),
        Problem::Not(Sort::Tables) => write_header(out, told),
        Problem::Not(Sort::Table) => write!(out, "{}", kinds_at(told)),
        Problem::Not(Sort::Array) => write_array(out, told),
        Problem::Not(Sort::Integer) => write_number(out, told),
        Problem::Not(Sort::Text) => write_named(out, told),
        Problem::BadRange | Problem::BadDefault => write_bound(out, told),
        Problem::NotOfType(kind) => write!(out, "{}", of_type(kind, told.known)),
        Problem::UnknownId => write_id(out, alloc, told),
        Problem::UnknownControl => write_control(out, alloc, told),
        Problem::UnknownFollowed => write_followed(out, alloc, told),
        Problem::UnknownMember => write_member(out, alloc, told),
        Problem::UnknownHandler => write_handler(out, alloc, told),
        Problem::OutsideMenu => write_maximum(out, told),
        Problem::NotClass => write_class(out, told),
        _ => Ok(()),
    }
}

fn text_of<'a>(told: &Told<'a>) -> &'a str {
    match told.value {
        Some(Value::String(text)) => text.as_str(),
        _ => "",
    }
}

fn write_nearest(out: &mut String, nearest: &Nearest<'_, '_>) -> Result<(), AllocError> {
    match nearest.word() {
        Some(word) => write!(out, "; the nearest is {}", brief(word)),
        None => Ok(()),
    }
}

// The key that may be meant, or those that the table has.
fn write_keys(out: &mut String, alloc: Global, told: &Told<'_>) -> Result<(), AllocError> {
    let keys = keys_at(told.file, told.place);
    let key = told.key.unwrap_or("");
    let place = elsewhere(told.place, key);
    if !place.is_empty() {
        return write!(out, "; {place}");
    }
    let mut nearest = Nearest::new(key);
    for key in keys {
        nearest.offer(alloc, key.word())?;
    }
    if nearest.word().is_some() {
        return write_nearest(out, &nearest);
    }
    let mut sign = "; it has";
    for key in keys {
        write!(out, "{sign} {}", key.word())?;
        sign = ",";
    }
    Ok(())
}

// Where a key stands, or by which other it is said, where that is known.
fn elsewhere(place: Place, key: &str) -> &'static str {
    match (place, key) {
        (Place::Control(_, _), "dims") => "how many elements there are is elems",
        (Place::File, "control") => "write [[handler]], and behind it [[handler.control]]",
        (Place::Handler(_), "cluster") => "write [[cluster]]",
        (Place::Handler(_), "class") => "write [[class]]",
        (Place::Handler(_), key) if is_of(CONTROL_KEYS, key) => {
            "a control has it, behind [[handler.control]]"
        }
        (Place::Cluster(_), "auto") => {
            "manual = 0 or another number makes an auto cluster, with this manual value"
        }
        _ => "",
    }
}

fn is_of(keys: &[Key], word: &str) -> bool {
    keys.iter().any(|key| key.word() == word)
}

// Which kinds there are, where a type or a kind is missing, or the table that has it.
fn kinds_at(told: &Told<'_>) -> &'static str {
    match (told.place, told.known) {
        (Place::Control(_, _), Key::Type) => {
            "; it is integer, boolean, menu, button, integer64, bitmask, integer_menu or u8"
        }
        (Place::Limit(_), Key::Kind) => {
            "; it is sum, product, at_most, at_most_member or at_most_while"
        }
        (Place::Told(_), Key::Kind) => "; it is joined, plus or constant",
        (Place::Limit(_), Key::Table) => "; as { kind = \"sum\", most = 384 }",
        (Place::Told(_), Key::Table) => "; as { kind = \"constant\", word = 1 }",
        _ => "",
    }
}

// The array of one element.
fn write_array(out: &mut String, told: &Told<'_>) -> Result<(), AllocError> {
    match told.value {
        Some(Value::String(text)) if !text.as_str().contains(",") => {
            write!(out, ": write [{:?}]", brief(text.as_str()))
        }
        Some(Value::Integer(number)) if matches!(told.known, Key::Skip) => {
            write!(out, ": write [{number}]")
        }
        _ => Ok(()),
    }
}

// The number that is meant by what is none.
fn write_number(out: &mut String, told: &Told<'_>) -> Result<(), AllocError> {
    match told.value {
        Some(Value::Boolean(true)) => write!(out, "; true is 1"),
        Some(Value::Boolean(false)) => write!(out, "; false is 0"),
        Some(Value::Array(_)) if matches!(told.known, Key::Default) => {
            write!(out, "; one number stands for all elements")
        }
        Some(Value::String(text)) => write_index(out, told, text.as_str()),
        _ => Ok(()),
    }
}

// The index of the item that a control's default names.
fn write_index(out: &mut String, told: &Told<'_>, name: &str) -> Result<(), AllocError> {
    let (Some(control), Key::Default) = (table_at(told.file, told.place), told.known) else {
        return Ok(());
    };
    for (index, item) in elements_of(control, Key::Menu).iter().enumerate() {
        if item.as_str() == Some(name) {
            return write!(out, "; an item is told by its index: {index}");
        }
    }
    Ok(())
}

// What is named by a text, and the name of the control whose id stands there.
fn write_named(out: &mut String, told: &Told<'_>) -> Result<(), AllocError> {
    let (Key::Members, Some(Value::Integer(id))) = (told.known, told.value) else {
        return Ok(());
    };
    match name_of_id(told.file, *id) {
        Some(name) => write!(out, "; the name of the control: {:?}", brief(name)),
        None => write!(out, "; a member is given by the name of its control"),
    }
}

fn name_of_id(file: &Table, id: i64) -> Option<&str> {
    for handler in elements_of(file, Key::Handler) {
        if let Some(handler) = handler.as_table() {
            for control in elements_of(handler, Key::Control) {
                if let Some(name) = name_with_id(control, id) {
                    return Some(name);
                }
            }
        }
    }
    None
}

fn name_with_id(control: &Value, id: i64) -> Option<&str> {
    let control = control.as_table()?;
    if control.get(Key::Id.word())?.as_integer()? == id {
        control.get(Key::Name.word())?.as_str()
    } else {
        None
    }
}

// What the maximum is for want of one, where a minimum or a default lies above it.
fn write_bound(out: &mut String, told: &Told<'_>) -> Result<(), AllocError> {
    let (Some(control), Some(Value::Integer(number))) = (
        table_at(told.file, told.place),
        told.value,
    ) else {
        return Ok(());
    };
    if *number <= 0 || control.contains_key(Key::Max.word()) {
        return Ok(());
    }
    match (type_of(control), control.get(Key::Menu.word())) {
        ("menu" | "integer_menu", Some(Value::Array(_))) => Ok(()),
        ("menu" | "integer_menu", Some(Value::Table(_)) | None) | ("integer" | "integer64", _) => {
            write!(out, "; give max, which left out is 0")
        }
        ("menu" | "integer_menu", Some(_)) => write!(out, "; menu has to be {}", Sort::Menu),
        _ => Ok(()),
    }
}

fn type_of(control: &Table) -> &str {
    match control.get(Key::Type.word()) {
        Some(Value::String(text)) => text.as_str(),
        _ => "",
    }
}

// How the tables of an array are written.
fn write_header(out: &mut String, told: &Told<'_>) -> Result<(), AllocError> {
    match told.known {
        Key::Handler if is_implied(told.value) => {
            write!(
                out,
                ": a [[handler]] has to come before [[handler.control]]"
            )
        }
        Key::Control => write!(out, ": write [[handler.control]]"),
        key => write!(out, ": write [[{}]]", key.word()),
    }
}

// Whether a table has nothing but controls, as that of a handler which no header began.
fn is_implied(value: Option<&Value>) -> bool {
    match value {
        Some(Value::Table(table)) => { table.len() == 1 && table.contains_key(Key::Control.word()) }
        _ => false,
    }
}

fn of_type(kind: Kind, key: Key) -> &'static str {
    match (kind, key) {
        (Kind::Integer, Key::Min | Key::Max) => "; use integer64",
        (_, Key::Skip) => "; leave skip out",
        _ => "",
    }
}

fn write_id(out: &mut String, alloc: Global, told: &Told<'_>) -> Result<(), AllocError> {
    let name = text_of(told);
    let first = name.as_bytes().first();
    if first.is_some_and(|byte| byte.is_ascii_digit()) {
        return write!(out, "; a number stands without quotation marks");
    }
    let mut nearest = Nearest::new(without_prefix(name));
    for row in rows().lines() {
        if let Some((known, _)) = row.split_once(" ") {
            nearest.offer(alloc, without_prefix(known))?;
        }
    }
    match nearest.word() {
        Some(word) => write!(out, "; the nearest is V4L2_CID_{word}"),
        None => Ok(()),
    }
}

// A name of an id without what all of them begin with.
fn without_prefix(name: &str) -> &str {
    name.strip_prefix("V4L2_CID_").unwrap_or(name)
}

fn write_control(out: &mut String, alloc: Global, told: &Told<'_>) -> Result<(), AllocError> {
    let mut nearest = Nearest::new(text_of(told));
    for handler in elements_of(told.file, Key::Handler) {
        if let Some(handler) = handler.as_table() {
            offer_names(alloc, &mut nearest, elements_of(handler, Key::Control))?;
        }
    }
    write_nearest(out, &nearest)
}

// The control further up that may be meant by the name that a bound follows; or that the one with this name stands further down.
fn write_followed(out: &mut String, alloc: Global, told: &Told<'_>) -> Result<(), AllocError> {
    let name = name_followed(told);
    let mut nearest = Nearest::new(name);
    for (handler, table) in elements_of(told.file, Key::Handler).iter().enumerate() {
        let controls = controls_of(table);
        let (above, below) = around(told.place, handler, controls.len());
        let mut others = controls[below..].iter();
        if others.any(|control| is_named(control, name)) {
            return write!(out, "; put {} above it", brief(name));
        }
        offer_names(alloc, &mut nearest, &controls[..above])?;
    }
    write_nearest(out, &nearest)
}

// How many of so many controls of a handler stand above the one that is wrong, and the number from which on they stand below it.
fn around(place: Place, handler: usize, count: usize) -> (usize, usize)
    ensures above { result.0 ≤ count }
    ensures below { result.1 ≤ count }
{
    match place {
        Place::Control(own, number) if own == handler => {
            (number.min(count), number.saturating_add(1).min(count))
        }
        Place::Control(own, _) if own > handler => (count, count),
        _ => (0, 0),
    }
}

// The controls of a handler.
fn controls_of(handler: &Value) -> &[Value] {
    match handler {
        Value::Table(handler) => elements_of(handler, Key::Control),
        _ => &[],
    }
}

// The name that a bound follows.
fn name_followed<'a>(told: &Told<'a>) -> &'a str {
    match told.value {
        Some(Value::Table(source)) => match source.get(Key::Follows.word()) {
            Some(Value::String(text)) => text.as_str(),
            _ => "",
        },
        _ => "",
    }
}

fn is_named(control: &Value, name: &str) -> bool {
    match control {
        Value::Table(table) => match table.get(Key::Name.word()) {
            Some(Value::String(text)) => text.as_str() == name,
            _ => false,
        },
        _ => false,
    }
}

fn write_handler(out: &mut String, alloc: Global, told: &Told<'_>) -> Result<(), AllocError> {
    let handlers = elements_of(told.file, Key::Handler);
    let count = match told.place {
        Place::Handler(number) => number.min(handlers.len()),
        _ => 0,
    };
    let mut nearest = Nearest::new(text_of(told));
    offer_names(alloc, &mut nearest, &handlers[..count])?;
    write_nearest(out, &nearest)
}

// The member that may be meant, or those that there are.
fn write_member(out: &mut String, alloc: Global, told: &Told<'_>) -> Result<(), AllocError> {
    let members = match told.place {
        Place::Limit(number) | Place::Told(number) => members_of(told.file, number),
        _ => &[],
    };
    let mut nearest = Nearest::new(text_of(told));
    for member in members {
        offer_text(alloc, &mut nearest, Some(member))?;
    }
    if nearest.word().is_some() {
        return write_nearest(out, &nearest);
    }
    let mut sign = "; its members are";
    for member in members {
        if let Value::String(name) = member {
            write!(out, "{sign} {}", brief(name.as_str()))?;
            sign = ",";
        }
    }
    Ok(())
}

fn members_of(file: &Table, cluster: usize) -> &[Value] {
    match table_at(file, Place::Cluster(cluster)) {
        Some(cluster) => elements_of(cluster, Key::Members),
        None => &[],
    }
}

// The greatest index, where a table of items has none of its own.
fn write_maximum(out: &mut String, told: &Told<'_>) -> Result<(), AllocError> {
    match table_at(told.file, told.place) {
        Some(control) if !control.contains_key(Key::Max.word()) => write!(out, "; give max"),
        _ => Ok(()),
    }
}

// The class of the id that stands in its place.
fn write_class(out: &mut String, told: &Told<'_>) -> Result<(), AllocError> {
    let Some(Value::Integer(number)) = told.value else {
        return Ok(());
    };
    match u32::try_from(*number) {
        Ok(id) if is_class(CtrlId(id).class()) => {
            write!(out, "; that of this id is 0x{:08x}", CtrlId(id).class())
        }
        _ => Ok(()),
    }
}

fn is_class(number: u32) -> bool {
    matches!(Which::read(number), Ok(Which::Class(_)))
}

// The elements of a key's array.
fn elements_of(table: &Table, key: Key) -> &[Value] {
    match table.get(key.word()) {
        Some(Value::Array(values)) => values.as_slice(),
        _ => &[],
    }
}

// Offers the names of some tables.
fn offer_names<'a>(
    alloc: Global,
    nearest: &mut Nearest<'a, '_>,
    tables: &'a [Value],
) -> Result<(), AllocError> {
    for table in tables {
        if let Some(table) = table.as_table() {
            offer_text(alloc, nearest, table.get(Key::Name.word()))?;
        }
    }
    Ok(())
}

fn offer_text<'a>(
    alloc: Global,
    nearest: &mut Nearest<'a, '_>,
    value: Option<&'a Value>,
) -> Result<(), AllocError> {
    match value {
        Some(Value::String(text)) => nearest.offer(alloc, text.as_str()),
        _ => Ok(()),
    }
}
