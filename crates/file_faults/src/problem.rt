use ctrl_types::Kind;
use std::fmt;

/// What sort of value a key has to have.
#[derive(Clone, Copy)]
pub enum Sort {
    /// A text.
    Text,
    /// A whole number of 64 bits.
    Integer,
    /// True or false.
    Truth,
    /// An array.
    Array,
    /// An array of tables.
    Tables,
    /// A table.
    Table,
    /// An array or a table of menu items.
    Menu,
    /// A number, or the kernel's name of an id.
    Id,
    /// A whole number of 64 bits, or what it follows.
    Bound,
}

/// What is wrong with a key of a device file, or with the table that it stands in.
#[derive(Clone, Copy)]
pub enum Problem {
    /// The file has more than 1 MiB.
    TooLong,
    /// The file isn't TOML, or isn't UTF-8.
    Syntax(toml::de::Error),
    /// The key means nothing here.
    UnknownKey,
    /// The key has to be there, and isn't.
    Missing,
    /// The value isn't of this sort.
    Not(Sort),
    /// The value isn't a number from 0 to 2 ^ 32 - 1.
    NotWord,
    /// The number is negative.
    Negative,
    /// An index isn't a number from 0 to 63.
    NotIndex,
    /// A key of a table of items isn't an index.
    NotItemIndex,
    /// The kernel has no id of this name.
    UnknownId,
    /// A control's name isn't one that scripts can say.
    NotName,
    /// Another one has this name.
    NameTaken,
    /// No earlier handler has this name.
    UnknownHandler,
    /// No control has this name.
    UnknownControl,
    /// No member of the cluster has this name.
    UnknownMember,
    /// This isn't the name of a type.
    UnknownType,
    /// This isn't the name of a flag that a file may give.
    UnknownFlag,
    /// This isn't the name of a limit.
    UnknownLimit,
    /// This isn't the name of a word.
    UnknownTold,
    /// This isn't what becomes of a value above a limit.
    UnknownExcess,
    /// There are 16 handlers already.
    ManyHandlers,
    /// There are 256 controls already.
    ManyControls,
    /// The handler has a control of this id.
    IdTaken,
    /// The minimum lies above the maximum.
    BadRange,
    /// The step of a number is 0.
    ZeroStep,
    /// Bounds, step, skipped items or elements aren't of the control's type.
    NotOfType(Kind),
    /// A control has elements, and isn't of an array's type.
    OnlyArrays,
    /// The control doesn't take its default as it is.
    BadDefault,
    /// A bound or the default follows a control, and it isn't of an integer or an integer64.
    CannotFollow,
    /// No control further up has the name that is followed.
    UnknownFollowed,
    /// The control that is followed isn't an integer or an integer64.
    NotFollowed,
    /// The control that is followed follows another one itself.
    FollowsItself,
    /// An item is neither a text nor a number.
    NotItem,
    /// The control is no menu, so it has no items.
    NotMenu,
    /// An item is a text where the menu has numbers, or the other way round.
    OtherItem,
    /// The index of an item isn't from the minimum to the maximum.
    OutsideMenu,
    /// The control skips the index of an item.
    SkippedItem,
    /// The name of an item has more than 32 bytes.
    LongItem,
    /// A cluster has no members, or more than 8.
    ClusterSize,
    /// A member is in this cluster already.
    InCluster(usize),
    /// A member, or a class, is named twice.
    NamedTwice,
    /// An array isn't the only member of its cluster, or the cluster has a manual value.
    ArrayAlone,
    /// A limit, or a word that is made of values, has an array among its members.
    OfArray,
    /// The number isn't one that `which` of a list takes for a class.
    NotClass,
    /// No control of the file is of the class.
    UnknownClass,
    /// The name of a class isn't 1 to 31 printable characters of ASCII.
    NotClassName,
}

impl fmt::Display for Sort {
    fn fmt<W: fmt::Write>(&self, f: &mut fmt::Formatter<W>) -> fmt::Result {
        f.write_str(match self {
            Sort::Text => "a string",
            Sort::Integer => "a whole number of 64 bits",
            Sort::Truth => "true or false",
            Sort::Array => "an array",
            Sort::Tables => "an array of tables",
            Sort::Table => "a table",
            Sort::Menu => "an array of items, or a table of items by their indexes",
            Sort::Id => "a number, or in quotation marks its name of linux/v4l2-controls.h",
            Sort::Bound => {
                "a whole number of 64 bits, or what it follows as { follows = \"vblank\", plus = -4 }"
            }
        })
    }
}

// What each type takes, where that is wrong.
fn taken(kind: Kind) -> &'static str {
    match kind {
        Kind::Integer => "an integer has min and max of 32 bits, and nothing to skip",
        Kind::Integer64 => "an integer64 has nothing to skip",
        Kind::Boolean => "a boolean has min 0, max 1 and step 1, and nothing to skip",
        Kind::Button => "a button has min, max and step 0, and nothing to skip",
        Kind::Bitmask => {
            "a bitmask has min 0, as max its mask of 1 to 32 bits, step 0, and nothing to skip"
        }
        Kind::Menu | Kind::IntegerMenu => "a menu has min and max from 0 to 63, and step 1",
        Kind::U8 => "a u8 has 1 to 32 elems, min and max from 0 to 255, and nothing to skip",
    }
}

impl Problem {
    // The words of what has no parts.
    fn words(&self) -> &'static str {
        match self {
            Problem::TooLong => "the file has more than 1 MiB",
            Problem::UnknownKey => "this table has no such key",
            Problem::Missing => "is missing",
            Problem::NotWord => "has to be a number from 0 to 0xffff_ffff",
            Problem::Negative => "has to be 0 or more",
            Problem::NotIndex => "has to be indexes from 0 to 63",
            Problem::NotItemIndex => "the key of an item is its index",
            Problem::UnknownId => "linux/v4l2-controls.h has no such name",
            Problem::NotName => "has to be one or more bytes without space, = or the end of a line",
            Problem::NameTaken => "this name is taken",
            Problem::UnknownHandler => "no handler further up has this name",
            Problem::UnknownControl => "no control has this name",
            Problem::UnknownMember => "no member of this cluster has this name",
            Problem::UnknownType => {
                "has to be integer, boolean, menu, button, integer64, bitmask, integer_menu or u8"
            }
            Problem::UnknownFlag => {
                "has to name disabled, read_only, update, slider, write_only, execute_on_write or modify_layout"
            }
            Problem::UnknownLimit => {
                "has to be sum, product, at_most, at_most_member or at_most_while"
            }
            Problem::UnknownTold => "has to be joined, plus or constant",
            Problem::UnknownExcess => "has to be refused or lowered",
            Problem::ManyHandlers => "a device has at most 16 handlers",
            Problem::ManyControls => "a device has at most 256 controls",
            Problem::IdTaken => "the handler has another control of this id",
            Problem::BadRange => "min lies above max",
            Problem::ZeroStep => "the step of a number is 1 or more",
            Problem::OnlyArrays => "only a u8 has elems",
            Problem::BadDefault =>
                "the control doesn't take it as it is: it has to lie from min to max, on a step, and not be skipped; left out it is 0",
            Problem::CannotFollow => "only an integer and an integer64 follow another control",
            Problem::UnknownFollowed => "no control further up has the name that it follows",
            Problem::NotFollowed => "it can follow an integer or an integer64 alone",
            Problem::FollowsItself => "it follows a control that follows another one",
            Problem::NotItem => "an item is a name or a number",
            Problem::NotMenu => "only a menu and an integer_menu have items: leave menu out",
            Problem::OtherItem => "the items of a menu are names, those of an integer_menu numbers",
            Problem::OutsideMenu => "the index of the item isn't from min to max",
            Problem::SkippedItem => "skip names the index of the item: leave one of the two out",
            Problem::LongItem => "the name of an item has at most 32 bytes",
            Problem::ClusterSize => "a cluster has 1 to 8 members",
            Problem::NamedTwice => "it is named twice",
            Problem::ArrayAlone => "an array is alone in its cluster, which has no manual value",
            Problem::OfArray => "an array has no such limit or word",
            Problem::NotClass => "has to be a class as which takes it, as 0x0098_0000",
            Problem::UnknownClass => "no control is of this class",
            Problem::NotClassName => "has to be 1 to 31 printable characters of ASCII",
            Problem::Syntax(_) | Problem::Not(_) | Problem::NotOfType(_) | Problem::InCluster(_) =>
                "",
        }
    }
}

impl fmt::Display for Problem {
    fn fmt<W: fmt::Write>(&self, f: &mut fmt::Formatter<W>) -> fmt::Result {
        match self {
            Problem::Syntax(error) => f.write_str(error.message()),
            Problem::Not(sort) => write!(f, "has to be {sort}"),
            Problem::NotOfType(kind) => f.write_str(taken(*kind)),
            Problem::InCluster(number) => write!(f, "it is in cluster {number} already"),
            other => f.write_str(other.words()),
        }
    }
}
