//! The clusters of a file.

ghost use Rattle.std.specs.Prelude.{◌≡◌, ◌++◌, [], ◌∷◌, map, position, None, Ok, IfOk, IfErr};
ghost use Rattle.std.specs.List.{list_any};
ghost use Rattle.ctrl_handlers.specs.Builder.{cluster_refusal, IsRefusedBy};
ghost use Rattle.ctrl_handlers.specs.Plan.{with_cluster};
ghost use Rattle.toml.specs.Data.{as_table};
ghost use Rattle.toml.specs.View.{view, table_view};
ghost use Rattle.device_file.specs.Clusters.{cluster_with, crowds, has_array_among, has_member as has_name_among, has_more as has_more_than_one, is_among, is_array_among, is_of_values, limit_in as cluster_limit, members_in as cluster_members, name_array, number_by, numbers_with, unless_array, with_cluster_of, with_clusters, with_judged, with_members, word_in as cluster_word};
ghost use Rattle.device_file.specs.Stops.{FileStops, Stops};
ghost use Rattle.file_tables.specs.Reading.{number_in, text_in};
ghost use Rattle.device_file.specs.declared.stop.ReadError.TheVariants.{Memory};
ghost use Rattle.file_faults.specs.declared.key.Key.TheVariants as keys;

use crate::refusals::refused_cluster;
use crate::stop::ReadError;
use ctrl_calls::Calls;
use ctrl_handlers::{PlanBuilder, PlanFault};
use data_driver::{Data, Limit, Word, data_calls};
use file_faults::{CLUSTER_KEYS, FileFault, Key, KeyFault, Place, Problem, Sort};
use file_tables::reading::{elements, elements_of, find, number, table, table_with, text};
use file_tables::{limit_of, place_of, word_of};
use script_lines::ControlWords;
use std::alloc::Global;
use toml::{Table, Value};

// Adds the clusters that these values describe; the handlers of the file are these, and the controls have these words.
pub(crate) fn add_clusters(
    alloc: Global,
    builder: &mut PlanBuilder<Data>,
    handlers: &[Value],
    tables: &[Value],
    words: &ControlWords,
) -> Result<(), FileFault>
    ensures ok { IfOk result (λ _. with_clusters (map view handlers.now) words.now [] builder.old 0 (map view tables.now) ≡ Ok builder.new) }
    ensures err { IfErr result (FileStops (with_clusters (map view handlers.now) words.now [] builder.old 0 (map view tables.now))) }
{
    for number in 0..tables.len() {
        let earlier = &tables[..number];
        add_cluster(
            alloc,
            builder,
            handlers,
            earlier,
            number,
            &tables[number],
            words,
        )?;
    }
    Ok(())
}

// Adds a cluster, whose table has no other keys; these stand further up. Members are judged before a limit, or a word, can name them.
fn add_cluster(
    alloc: Global,
    builder: &mut PlanBuilder<Data>,
    handlers: &[Value],
    earlier: &[Value],
    number: usize,
    value: &Value,
    words: &ControlWords,
) -> Result<(), FileFault>
    ensures ok { IfOk result (λ _. with_cluster_of (map view handlers.now) words.now (map view earlier.now) builder.old number (view value.now) ≡ Ok builder.new) }
    ensures err { IfErr result (FileStops (with_cluster_of (map view handlers.now) words.now (map view earlier.now) builder.old number (view value.now))) }
{
    let place = Place::Cluster(number);
    let cluster = match table_with(value, CLUSTER_KEYS) {
        Ok(cluster) => cluster,
        Err(fault) => return Err(fault.at(place)),
    };
    let manual = match manual_in(cluster) {
        Ok(manual) => manual,
        Err(fault) => return Err(fault.at(place)),
    };
    match members_in(alloc, handlers, earlier, cluster, manual, words) {
        Ok(members) => add_judged(
            builder,
            handlers,
            number,
            cluster,
            members.as_slice(),
            manual,
        ),
        Err(error) => Err(error.at(place)),
    }
}

fn manual_in(cluster: &Table) -> Result<Option<i64>, KeyFault>
    ensures { result ≡ number_in keys.Manual (table_view cluster.now) }
{
    number(cluster, Key::Manual)
}

// Adds the cluster of a table, of which the members and the manual value are known.
fn add_judged(
    builder: &mut PlanBuilder<Data>,
    handlers: &[Value],
    number: usize,
    cluster: &Table,
    members: &[u32],
    manual: Option<i64>,
) -> Result<(), FileFault>
    ensures ok { IfOk result (λ _. with_judged (map view handlers.now) builder.old number (table_view cluster.now) members.now manual ≡ Ok builder.new) }
    ensures err { IfErr result (FileStops (with_judged (map view handlers.now) builder.old number (table_view cluster.now) members.now manual)) }
{
    let limit = match limit_in(handlers, cluster) {
        Ok(limit) => limit,
        Err(fault) => return Err(fault.at(Place::Limit(number))),
    };
    let word = match word_in(handlers, cluster) {
        Ok(word) => word,
        Err(fault) => return Err(fault.at(Place::Told(number))),
    };
    match put_cluster(builder, members, manual, limit, word) {
        Ok(()) => Ok(()),
        Err(error) => Err(error.at(Place::Cluster(number))),
    }
}

// The limit of a cluster, where it has one. No member is an array then.
fn limit_in(handlers: &[Value], cluster: &Table) -> Result<Option<Limit>, KeyFault>
    ensures { result ≡ cluster_limit (map view handlers.now) (table_view cluster.now) }
{
    match find(cluster, Key::Limit) {
        None => Ok(None),
        Some(value) => {
            let members = elements_of(cluster, Key::Members);
            let limit = limit_of(table(value)?, members)?;
            no_array(name_array_of(handlers, members))?;
            Ok(Some(limit))
        }
    }
}

// What is told of a cluster, where something is. Where it is made of values, no member is an array.
fn word_in(handlers: &[Value], cluster: &Table) -> Result<Option<Word>, KeyFault>
    ensures { result ≡ cluster_word (map view handlers.now) (table_view cluster.now) }
{
    match find(cluster, Key::Told) {
        None => Ok(None),
        Some(value) => {
            let members = elements_of(cluster, Key::Members);
            let word = word_of(table(value)?, members)?;
            no_array(is_made_of_values(word) && name_array_of(handlers, members))?;
            Ok(Some(word))
        }
    }
}

// That what is asked for isn't an array's.
fn no_array(is_array: bool) -> Result<(), KeyFault>
    ensures { result ≡ unless_array is_array }
{
    if is_array {
        Err(KeyFault::new(Key::Kind, Problem::OfArray))
    } else {
        Ok(())
    }
}

fn is_made_of_values(word: Word) -> bool
    ensures { result ≡ is_of_values word }
{
    match word {
        Word::Joined { .. } => true,
        Word::Plus { .. } => true,
        Word::Constant(_) => false,
    }
}

// Whether some of these values is the name of an array of these handlers.
fn name_array_of(handlers: &[Value], names: &[Value]) -> bool
    ensures { result ≡ name_array (map view handlers.now) (map view names.now) }
{
    some_has_array(handlers, names)
}

fn some_has_array(handlers: &[Value], names: &[Value]) -> bool
    ensures { result ≡ list_any (λ handler. has_array_among (map view names.now) (as_table (view handler))) handlers.now }
{
    handlers.iter().any(|handler| has_array(handler, names))
}

fn has_array(handler: &Value, names: &[Value]) -> bool
    ensures { result ≡ has_array_among (map view names.now) (as_table (view handler.now)) }
{
    match handler.as_table() {
        Some(handler) => have_array(elements_of(handler, Key::Control), names),
        None => false,
    }
}

// Whether some of these controls is an array, and some of these values its name.
fn have_array(controls: &[Value], names: &[Value]) -> bool
    ensures { result ≡ list_any (λ control. is_array_among (map view names.now) (as_table control)) (map view controls.now) }
{
    some_is_array(controls, names)
}

fn some_is_array(controls: &[Value], names: &[Value]) -> bool
    ensures { result ≡ list_any (λ control. is_array_among (map view names.now) (as_table (view control))) controls.now }
{
    controls.iter().any(|control| is_array(control, names))
}

fn is_array(control: &Value, names: &[Value]) -> bool
    ensures { result ≡ is_array_among (map view names.now) (as_table (view control.now)) }
{
    match control.as_table() {
        Some(control) => find(control, Key::Elems).is_some() && is_name_among(control, names),
        None => false,
    }
}

fn is_name_among(control: &Table, names: &[Value]) -> bool
    ensures { result ≡ is_among (map view names.now) (text_in keys.Name (table_view control.now)) }
{
    match text(control, Key::Name) {
        Ok(Some(name)) => place_of(names, name).is_some(),
        _ => false,
    }
}

// The numbers of the 1 to 8 members of a cluster with this manual value; these clusters stand further up.
fn members_in(
    alloc: Global,
    handlers: &[Value],
    earlier: &[Value],
    cluster: &Table,
    manual: Option<i64>,
    words: &ControlWords,
) -> Result<Vec<u32>, ReadError>
    ensures ok { IfOk result (λ members. cluster_members (map view handlers.now) words.now (map view earlier.now) manual (table_view cluster.now) ≡ Ok members.items) }
    ensures err { IfErr result (Stops (cluster_members (map view handlers.now) words.now (map view earlier.now) manual (table_view cluster.now))) }
{
    let names = match elements(cluster, Key::Members, Sort::Array) {
        Ok(names) => names,
        Err(fault) => return Err(ReadError::Key(fault)),
    };
    if names.is_empty() || names.len() > 8 {
        return Err(ReadError::Key(KeyFault::new(Key::Members, Problem::ClusterSize)));
    }
    let members = numbers_of(alloc, names, earlier, words)?;
    if is_crowded(handlers, manual, names) {
        return Err(ReadError::Key(KeyFault::new(Key::Members, Problem::ArrayAlone)));
    }
    Ok(members)
}

// The numbers of the controls that these values name; these clusters stand further up.
fn numbers_of(
    alloc: Global,
    names: &[Value],
    earlier: &[Value],
    words: &ControlWords,
) -> Result<Vec<u32>, ReadError>
    ensures ok { IfOk result (λ members. numbers_with words.now (map view earlier.now) [] [] 0 (map view names.now) ≡ Ok members.items) }
    ensures err { IfErr result (Stops (numbers_with words.now (map view earlier.now) [] [] 0 (map view names.now))) }
{
    let mut members = Vec::new(alloc);
    for place in 0..names.len() {
        let before = &names[..place];
        let member = match number_of(&names[place], place, before, earlier, words) {
            Ok(member) => member,
            Err(fault) => return Err(ReadError::Key(fault)),
        };
        push(&mut members, member)?;
    }
    Ok(members)
}

// Whether a member is an array, where there are several, or the cluster has a manual value.
fn is_crowded(handlers: &[Value], manual: Option<i64>, names: &[Value]) -> bool
    ensures { result ≡ crowds (map view handlers.now) manual (map view names.now) }
{
    has_more(manual, names) && name_array_of(handlers, names)
}

// Whether a cluster has more than one member, or a manual value.
fn has_more(manual: Option<i64>, names: &[Value]) -> bool
    ensures { result ≡ has_more_than_one manual (map view names.now) }
{
    manual.is_some() || names.len() > 1
}

fn push(members: &mut Vec<u32>, member: u32) -> Result<(), ReadError>
    ensures ok { IfOk result (λ _. members.new.items ≡ members.old.items ++ member ∷ []) }
    ensures err { IfErr result (λ error. error ≡ Memory) }
{
    match members.push(member) {
        Ok(()) => Ok(()),
        Err(_) => Err(ReadError::Memory),
    }
}

// The number of the control that a value names: it is neither among these names, nor in a cluster further up.
fn number_of(
    value: &Value,
    place: usize,
    before: &[Value],
    earlier: &[Value],
    words: &ControlWords,
) -> Result<u32, KeyFault>
    ensures { result ≡ number_by words.now (map view earlier.now) (map view before.now) place (view value.now) }
{
    let Some(name) = value.as_str() else {
        return Err(KeyFault::of_element(Key::Members, place, Problem::Not(Sort::Text)));
    };
    let Some(number) = words.number_of(name.as_bytes()) else {
        return Err(KeyFault::of_element(Key::Members, place, Problem::UnknownControl));
    };
    if place_of(before, name).is_some() {
        return Err(KeyFault::of_element(Key::Members, place, Problem::NamedTwice));
    }
    match cluster_of(earlier, name) {
        Some(cluster) => Err(KeyFault::of_element(
            Key::Members,
            place,
            Problem::InCluster(cluster),
        )),
        None => Ok(number),
    }
}

// Which of some clusters has a name among its members.
fn cluster_of(clusters: &[Value], name: &str) -> Option<usize>
    ensures { result ≡ cluster_with (map view clusters.now) name.now }
{
    first_with(clusters, name)
}

fn first_with(clusters: &[Value], name: &str) -> Option<usize>
    ensures { result ≡ position (λ cluster. has_name_among name.now (as_table (view cluster))) clusters.now }
{
    clusters
        .iter()
        .position(|cluster| has_member(cluster, name))
}

fn has_member(cluster: &Value, name: &str) -> bool
    ensures { result ≡ has_name_among name.now (as_table (view cluster.now)) }
{
    match cluster.as_table() {
        Some(cluster) => place_of(elements_of(cluster, Key::Members), name).is_some(),
        None => false,
    }
}

fn put_cluster(
    builder: &mut PlanBuilder<Data>,
    members: &[u32],
    manual: Option<i64>,
    limit: Option<Limit>,
    word: Option<Word>,
) -> Result<(), ReadError>
    ensures ok { IfOk result (λ _. with_members builder.old members.now manual limit word ≡ Ok builder.new) }
    ensures err { IfErr result (Stops (with_members builder.old members.now manual limit word)) }
{
    let Ok(calls) = data_calls(members.len(), limit, word) else {
        return Err(ReadError::Key(KeyFault::new(Key::Members, Problem::UnknownMember)));
    };
    match name_cluster(builder, members, manual, calls) {
        Ok(()) => Ok(()),
        Err(fault) => Err(refused_cluster(fault)),
    }
}

// Adds a cluster, which is an auto cluster where it has a manual value.
fn name_cluster(
    builder: &mut PlanBuilder<Data>,
    members: &[u32],
    manual: Option<i64>,
    calls: Calls<Data>,
) -> Result<(), PlanFault>
    ensures ok { IfOk result (λ _. (cluster_refusal builder.old members.now manual ≡ None) × (builder.new ≡ with_cluster builder.old members.now manual calls)) }
    ensures err { IfErr result (IsRefusedBy (cluster_refusal builder.old members.now manual)) }
{
    let added = match manual {
        Some(manual) => builder.auto_cluster(members, manual, calls),
        None => builder.cluster(members, calls),
    };
    match added {
        Ok(_) => Ok(()),
        Err((_, fault)) => Err(fault),
    }
}
