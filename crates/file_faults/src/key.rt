ghost use Rattle.std.specs.Prelude.{◌≡◌};
ghost use Rattle.file_faults.specs.Keys.{key_word};

/// A key of a table of a device file, or the table itself (the names are those of `struct v4l2_ctrl_config`, where it has them).
#[derive(Clone, Copy)]
pub enum Key {
    /// The table itself.
    Table,
    /// A key that means nothing in its table, by its place among the table's keys in the order of their bytes, from 0.
    Other(usize),
    /// `handler`, of a file.
    Handler,
    /// `cluster`, of a file.
    Cluster,
    /// `class`, of a file.
    Class,
    /// `name`, of a handler, a control or a class.
    Name,
    /// `adds`, of a handler.
    Adds,
    /// `control`, of a handler.
    Control,
    /// `id`, of a control or a class.
    Id,
    /// `type`, of a control.
    Type,
    /// `min`, of a control.
    Min,
    /// `max`, of a control.
    Max,
    /// `step`, of a control.
    Step,
    /// `default`, of a control.
    Default,
    /// `elems`, of a control: how many elements an array has.
    Elems,
    /// `flags`, of a control.
    Flags,
    /// `menu`, of a control.
    Menu,
    /// `skip`, of a control.
    Skip,
    /// `private`, of a control.
    Private,
    /// `members`, of a cluster.
    Members,
    /// `manual`, of a cluster.
    Manual,
    /// `limit`, of a cluster.
    Limit,
    /// `told`, of a cluster.
    Told,
    /// `kind`, of a limit or of what is told.
    Kind,
    /// `most`, of a limit.
    Most,
    /// `first`, of a limit or of what is told.
    First,
    /// `second`, of a limit or of what is told.
    Second,
    /// `member`, of a limit or of what is told.
    Member,
    /// `other`, of a limit.
    OtherMember,
    /// `margin`, of a limit.
    Margin,
    /// `when`, of a limit.
    When,
    /// `excess`, of a limit.
    Excess,
    /// `more`, of what is told.
    More,
    /// `word`, of what is told.
    Word,
    /// `follows`, of a bound: the control whose value it follows.
    Follows,
    /// `plus`, of a bound: what is added to that value.
    Plus,
}

impl Key {
    /// The key as it is written in a file; empty of the table itself and of a key that means nothing.
    pub fn word(self) -> &'static str
        ensures { result.now ≡ key_word self }
    {
        match self {
            Key::Table | Key::Other(_) => "",
            Key::Handler => "handler",
            Key::Cluster => "cluster",
            Key::Class => "class",
            Key::Name => "name",
            Key::Adds => "adds",
            Key::Control => "control",
            Key::Id => "id",
            Key::Type => "type",
            Key::Min => "min",
            Key::Max => "max",
            Key::Step => "step",
            Key::Default => "default",
            Key::Elems => "elems",
            Key::Flags => "flags",
            Key::Menu => "menu",
            Key::Skip => "skip",
            Key::Private => "private",
            Key::Members => "members",
            Key::Manual => "manual",
            Key::Limit => "limit",
            Key::Told => "told",
            Key::Kind => "kind",
            Key::Most => "most",
            Key::First => "first",
            Key::Second => "second",
            Key::Member => "member",
            Key::OtherMember => "other",
            Key::Margin => "margin",
            Key::When => "when",
            Key::Excess => "excess",
            Key::More => "more",
            Key::Word => "word",
            Key::Follows => "follows",
            Key::Plus => "plus",
        }
    }
}
