//! Which keys the tables of a device file have.

use crate::key::Key;
use crate::place::{Place, table_at};
use toml::Table;

/// The keys of a file.
pub const FILE_KEYS: &[Key] = &[Key::Handler, Key::Cluster, Key::Class];

/// The keys of a handler.
pub const HANDLER_KEYS: &[Key] = &[Key::Name, Key::Adds, Key::Control];

/// The keys of a control.
pub const CONTROL_KEYS: &[Key] = &[
    Key::Name,
    Key::Id,
    Key::Type,
    Key::Min,
    Key::Max,
    Key::Step,
    Key::Default,
    Key::Elems,
    Key::Flags,
    Key::Menu,
    Key::Skip,
    Key::Private,
];

/// The keys of a cluster.
pub const CLUSTER_KEYS: &[Key] = &[Key::Members, Key::Manual, Key::Limit, Key::Told];

/// The keys of a class.
pub const CLASS_KEYS: &[Key] = &[Key::Id, Key::Name];

/// The keys of a limit of kind `sum`.
pub const SUM_KEYS: &[Key] = &[Key::Kind, Key::Most];

/// The keys of a limit of kind `product`.
pub const PRODUCT_KEYS: &[Key] = &[Key::Kind, Key::First, Key::Second, Key::Most];

/// The keys of a limit of kind `at_most`.
pub const AT_MOST_KEYS: &[Key] = &[Key::Kind, Key::Member, Key::Most, Key::Excess];

/// The keys of a limit of kind `at_most_member`.
pub const AT_MOST_MEMBER_KEYS: &[Key] = &[
    Key::Kind,
    Key::Member,
    Key::OtherMember,
    Key::Margin,
    Key::Excess,
];

/// The keys of a limit of kind `at_most_while`.
pub const AT_MOST_WHILE_KEYS: &[Key] = &[
    Key::Kind,
    Key::Member,
    Key::Most,
    Key::OtherMember,
    Key::When,
];

/// The keys of what is told of kind `joined`.
pub const JOINED_KEYS: &[Key] = &[Key::Kind, Key::First, Key::Second];

/// The keys of what is told of kind `plus`.
pub const PLUS_KEYS: &[Key] = &[Key::Kind, Key::Member, Key::More];

/// The keys of what is told of kind `constant`.
pub const CONSTANT_KEYS: &[Key] = &[Key::Kind, Key::Word];

/// The keys of what a bound follows.
pub const SOURCE_KEYS: &[Key] = &[Key::Follows, Key::Plus];

// The keys that the table at a place has; none where that is open, since it has no kind that is known.
pub(crate) fn keys_at(file: &Table, place: Place) -> &'static [Key] {
    match place {
        Place::File => FILE_KEYS,
        Place::Handler(_) => HANDLER_KEYS,
        Place::Control(_, _) => CONTROL_KEYS,
        Place::Cluster(_) => CLUSTER_KEYS,
        Place::Limit(_) => match kind_at(file, place) {
            Some("sum") => SUM_KEYS,
            Some("product") => PRODUCT_KEYS,
            Some("at_most") => AT_MOST_KEYS,
            Some("at_most_member") => AT_MOST_MEMBER_KEYS,
            Some("at_most_while") => AT_MOST_WHILE_KEYS,
            _ => &[],
        },
        Place::Told(_) => match kind_at(file, place) {
            Some("joined") => JOINED_KEYS,
            Some("plus") => PLUS_KEYS,
            Some("constant") => CONSTANT_KEYS,
            _ => &[],
        },
        Place::Class(_) => CLASS_KEYS,
    }
}

fn kind_at(file: &Table, place: Place) -> Option<&str> {
    let kind = table_at(file, place)?.get(Key::Kind.word())?;
    kind.as_str()
}
