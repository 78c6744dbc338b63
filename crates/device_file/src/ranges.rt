//! The ranges of a file that follow other controls of it.

ghost use Rattle.std.specs.Prelude.{◌≡◌, option_map, IfErr, OnOk};
ghost use Rattle.toml.specs.View.{table_view};
ghost use Rattle.ctrl_handlers.specs.Plan.{control_in};
ghost use Rattle.file_tables.specs.Bounds.{plus_at};
ghost use Rattle.device_file.specs.Ranges.{default_by, default_first as first_number_of_default, followed_in as followed_by, follows_any as any_follows, is_follower, number_first as first_number, read_in as read_as, source_in as source_at, source_named as source_by_name, source_of as source_with, started as started_as, wanted_first, with_follower};
ghost use Rattle.device_file.specs.declared.stop.ReadError.TheVariants.{Memory};

use crate::stop::ReadError;
use ctrl_settle::Ctrl;
use ctrl_types::Kind;
use file_faults::{Key, KeyFault, Problem};
use file_tables::{control_in, followed, number_at, plus};
use range_followers::{DefaultSource, Follower, Source, can_follow, range_wanted};
use script_lines::ControlWords;
use toml::Table;

/// What the bounds and the default of a control follow, each where it follows something.
#[derive(Clone, Copy)]
pub(crate) struct Followed {
    minimum: Option<Source>,
    maximum: Option<Source>,
    default_value: Option<Source>,
}

// What the control of a table follows. These controls stand further up.
fn followed_in(
    controls: &[Ctrl],
    words: &ControlWords,
    followers: &[Follower],
    table: &Table,
) -> Result<Followed, KeyFault>
    ensures { result ≡ followed_by controls.now words.now followers.now (table_view table.now) }
{
    Ok(Followed {
        minimum: source_in(controls, words, followers, table, Key::Min)?,
        maximum: source_in(controls, words, followers, table, Key::Max)?,
        default_value: source_in(controls, words, followers, table, Key::Default)?,
    })
}

/// A control as its table describes it.
#[derive(Clone, Copy)]
pub(crate) struct Read {
    /// With the range that it has at the start.
    pub ctrl: Ctrl,
    followed: Followed,
    // its default in the file
    of_file: i64,
}

// The control that a table describes, with what it follows. These controls stand further up.
pub(crate) fn read_in(
    controls: &[Ctrl],
    words: &ControlWords,
    followers: &[Follower],
    table: &Table,
) -> Result<Read, KeyFault>
    ensures { result ≡ read_as controls.now words.now followers.now (table_view table.now) }
{
    let ctrl = control_in(table)?;
    let followed = followed_in(controls, words, followers, table)?;
    let of_file = number_at(table, Key::Default);
    Ok(Read {
        ctrl: started(controls, ctrl, &followed, of_file),
        followed,
        of_file,
    })
}

fn follows_any(followed: &Followed) -> bool
    ensures { result ≡ any_follows followed.now }
{
    followed.minimum.is_some() || followed.maximum.is_some() || followed.default_value.is_some()
}

// What a default is nearest to, which is this number in the file.
fn default_of(source: Option<Source>, number: i64) -> DefaultSource
    ensures { result ≡ default_by source number }
{
    match source {
        Some(source) => DefaultSource::Value(source),
        None => DefaultSource::Number(number),
    }
}

// What a key of a control's table follows, where it follows something.
fn source_in(
    controls: &[Ctrl],
    words: &ControlWords,
    followers: &[Follower],
    table: &Table,
    key: Key,
) -> Result<Option<Source>, KeyFault>
    ensures { result ≡ source_at controls.now words.now followers.now key (table_view table.now) }
{
    let Some(name) = followed(table, key) else {
        return Ok(None);
    };
    match source_named(controls, words, followers, table, key, name) {
        Ok(source) => Ok(Some(source)),
        Err(fault) => Err(fault),
    }
}

// The control with this name as what a key of the table follows.
fn source_named(
    controls: &[Ctrl],
    words: &ControlWords,
    followers: &[Follower],
    table: &Table,
    key: Key,
    name: &str,
) -> Result<Source, KeyFault>
    ensures { result ≡ source_by_name controls.now words.now followers.now key name.now (plus_at key (table_view table.now)) }
{
    match words.number_of(name.as_bytes()) {
        Some(number) => source_of(controls, followers, key, number, plus(table, key)),
        None => Err(KeyFault::new(key, Problem::UnknownFollowed)),
    }
}

// The control of a number as what a key follows: an integer or an integer64 that follows nothing itself.
fn source_of(
    controls: &[Ctrl],
    followers: &[Follower],
    key: Key,
    number: u32,
    plus: i64,
) -> Result<Source, KeyFault>
    ensures { result ≡ source_with controls.now followers.now key number plus }
{
    if !can_follow(kind_of(controls, number)) {
        return Err(KeyFault::new(key, Problem::NotFollowed));
    }
    if follows(followers, number) {
        return Err(KeyFault::new(key, Problem::FollowsItself));
    }
    Ok(Source {
        control: number,
        plus,
    })
}

fn kind_of(controls: &[Ctrl], number: u32) -> Kind
    ensures { result ≡ (control_in controls.now number).kind }
{
    match controls.get(number as usize) {
        Some(ctrl) => ctrl.kind(),
        None => Kind::Integer,
    }
}

// Whether the control of a number follows something.
fn follows(followers: &[Follower], number: u32) -> bool
    ensures { result ≡ is_follower followers.now number }
{
    followers.iter().any(|follower| follower.control == number)
}

// A control with the range that it has at the start, whose default in the file is this number.
fn started(controls: &[Ctrl], ctrl: Ctrl, followed: &Followed, number: i64) -> Ctrl
    ensures { result ≡ started_as controls.now ctrl followed.now number }
{
    if follows_any(followed) {
        wanted(controls, &ctrl, followed, number).unwrap_or(ctrl)
    } else {
        ctrl
    }
}

fn wanted(controls: &[Ctrl], ctrl: &Ctrl, followed: &Followed, number: i64) -> Option<Ctrl>
    ensures { result ≡ wanted_first controls.now ctrl.now followed.now number }
{
    range_wanted(
        ctrl,
        bound_of(controls, followed.minimum),
        bound_of(controls, followed.maximum),
        default_from(controls, default_of(followed.default_value, number)),
    )
}

// What a bound is at the start, where it follows something.
fn bound_of(controls: &[Ctrl], source: Option<Source>) -> Option<i128>
    ensures { result ≡ option_map (first_number controls.now) source }
{
    match source {
        Some(source) => Some(number_from(controls, source)),
        None => None,
    }
}

fn default_from(controls: &[Ctrl], source: DefaultSource) -> i128
    ensures { result ≡ first_number_of_default controls.now source }
{
    match source {
        DefaultSource::Number(number) => i128::from(number),
        DefaultSource::Value(source) => number_from(controls, source),
    }
}

// What a source makes of the defaults.
fn number_from(controls: &[Ctrl], source: Source) -> i128
    ensures { result ≡ first_number controls.now source }
{
    i128::from(default_at(controls, source.control)) + i128::from(source.plus)
}

fn default_at(controls: &[Ctrl], number: u32) -> i64
    ensures { result ≡ (control_in controls.now number).default_value }
{
    match controls.get(number as usize) {
        Some(ctrl) => ctrl.default_value(),
        None => 0,
    }
}

// Keeps how the control of a number follows, where it does.
pub(crate) fn keep(kept: &mut Vec<Follower>, control: u32, read: &Read) -> Result<(), ReadError>
    ensures ok { OnOk result (kept.new.items ≡ with_follower kept.old.items control read.now) }
    ensures err { IfErr result (λ error. error ≡ Memory) }
{
    if !follows_any(&read.followed) {
        return Ok(());
    }
    let follower = Follower {
        control,
        minimum: read.followed.minimum,
        maximum: read.followed.maximum,
        default_value: default_of(read.followed.default_value, read.of_file),
    };
    match kept.push(follower) {
        Ok(()) => Ok(()),
        Err(_) => Err(ReadError::Memory),
    }
}
