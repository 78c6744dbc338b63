//! The structs of the calls: of each its size in bytes, and where its fields stand. Each module has the name of its struct, and each constant that of its field.

/// What `VIDIOC_QUERYCTRL` reads and writes.
pub mod v4l2_queryctrl {
    /// Its size.
    pub const SIZE: usize = 68;
    /// The control, or with flags the one behind which the next is wanted.
    pub const ID: usize = 0;
    /// Its type.
    pub const TYPE: usize = 4;
    /// Its name, 32 bytes, the last of them 0.
    pub const NAME: usize = 8;
    /// The least value.
    pub const MINIMUM: usize = 40;
    /// The greatest value.
    pub const MAXIMUM: usize = 44;
    /// How far values lie apart.
    pub const STEP: usize = 48;
    /// The default.
    pub const DEFAULT_VALUE: usize = 52;
    /// Its flags.
    pub const FLAGS: usize = 56;
}

/// What `VIDIOC_QUERY_EXT_CTRL` reads and writes.
pub mod v4l2_query_ext_ctrl {
    /// Its size.
    pub const SIZE: usize = 232;
    /// The control, or with flags the one behind which the next is wanted.
    pub const ID: usize = 0;
    /// Its type.
    pub const TYPE: usize = 4;
    /// Its name, 32 bytes, the last of them 0.
    pub const NAME: usize = 8;
    /// The least value, of 64 bits as the three behind it.
    pub const MINIMUM: usize = 40;
    /// The greatest value.
    pub const MAXIMUM: usize = 48;
    /// How far values lie apart.
    pub const STEP: usize = 56;
    /// The default.
    pub const DEFAULT_VALUE: usize = 64;
    /// Its flags.
    pub const FLAGS: usize = 72;
    /// How many bytes an element has.
    pub const ELEM_SIZE: usize = 76;
    /// How many elements there are.
    pub const ELEMS: usize = 80;
    /// How many dimensions an array has, 0 where it is none.
    pub const NR_OF_DIMS: usize = 84;
    /// How many elements it has in each of them.
    pub const DIMS: usize = 88;
}

/// What `VIDIOC_QUERYMENU` reads and writes.
pub mod v4l2_querymenu {
    /// Its size.
    pub const SIZE: usize = 44;
    /// The menu.
    pub const ID: usize = 0;
    /// The item.
    pub const INDEX: usize = 4;
    /// The item's name, 32 bytes, the last of them 0.
    pub const NAME: usize = 8;
    /// The item's number, of 64 bits, in the place of a name.
    pub const VALUE: usize = 8;
    /// It is to be 0.
    pub const RESERVED: usize = 40;
}

/// What `VIDIOC_G_CTRL` and `VIDIOC_S_CTRL` read and write.
pub mod v4l2_control {
    /// Its size.
    pub const SIZE: usize = 8;
    /// The control.
    pub const ID: usize = 0;
    /// Its value.
    pub const VALUE: usize = 4;
}

/// What `VIDIOC_G_EXT_CTRLS`, `VIDIOC_S_EXT_CTRLS` and `VIDIOC_TRY_EXT_CTRLS` read and write: the head of a list.
pub mod v4l2_ext_controls {
    /// Its size.
    pub const SIZE: usize = 32;
    /// Which values.
    pub const WHICH: usize = 0;
    /// How many entries there are.
    pub const COUNT: usize = 4;
    /// The entry that was refused.
    pub const ERROR_IDX: usize = 8;
    /// The request.
    pub const REQUEST_FD: usize = 12;
    /// Where the entries lie.
    pub const CONTROLS: usize = 24;
}

/// An entry of such a list.
pub mod v4l2_ext_control {
    /// Its size.
    pub const SIZE: usize = 20;
    /// The control.
    pub const ID: usize = 0;
    /// How many bytes its payload has room for.
    pub const SIZE_OF_PAYLOAD: usize = 4;
    /// It is to be 0.
    pub const RESERVED2: usize = 8;
    /// The value of a number of 32 bits.
    pub const VALUE: usize = 12;
    /// The value of a number of 64 bits, in the same place.
    pub const VALUE64: usize = 12;
}

/// What `VIDIOC_SUBSCRIBE_EVENT` and `VIDIOC_UNSUBSCRIBE_EVENT` read.
pub mod v4l2_event_subscription {
    /// Its size.
    pub const SIZE: usize = 32;
    /// The type of event.
    pub const TYPE: usize = 0;
    /// The control.
    pub const ID: usize = 4;
    /// How it is subscribed.
    pub const FLAGS: usize = 8;
}

/// What `VIDIOC_DQEVENT` writes.
pub mod v4l2_event {
    /// Its size.
    pub const SIZE: usize = 136;
    /// The type of event.
    pub const TYPE: usize = 0;
    /// What an event of its type says, as of a control `v4l2_event_ctrl`.
    pub const U: usize = 8;
    /// How many events wait behind it.
    pub const PENDING: usize = 72;
    /// Its number.
    pub const SEQUENCE: usize = 76;
    /// When it was.
    pub const TIMESTAMP: usize = 80;
    /// The control.
    pub const ID: usize = 96;
}

/// What an event of a control says.
pub mod v4l2_event_ctrl {
    /// Its size.
    pub const SIZE: usize = 40;
    /// What changed.
    pub const CHANGES: usize = 0;
    /// The control's type.
    pub const TYPE: usize = 4;
    /// Its value, of 32 bits.
    pub const VALUE: usize = 8;
    /// Its value, of 64 bits, in the same place.
    pub const VALUE64: usize = 8;
    /// Its flags.
    pub const FLAGS: usize = 16;
    /// Its least value.
    pub const MINIMUM: usize = 20;
    /// Its greatest value.
    pub const MAXIMUM: usize = 24;
    /// How far its values lie apart.
    pub const STEP: usize = 28;
    /// Its default.
    pub const DEFAULT_VALUE: usize = 32;
}
