use ctrl_types::{Changes, CtrlId, Flags, Kind, SubFlags};

/// What an event shows of a control, read after the step that raised it (Linux userspace API, "struct v4l2_event_ctrl").
#[derive(Clone, Copy, Debug, PartialEq, Eq)]
pub struct Payload {
    /// The control's id.
    pub id: CtrlId,
    /// Its kind.
    pub kind: Kind,
    /// Its present value; 0 where it can't be read (of this project).
    pub value: i64,
    /// Its present flags.
    pub flags: Flags,
    /// Its least value.
    pub minimum: i64,
    /// Its greatest value.
    pub maximum: i64,
    /// The distance of its values.
    pub step: u64,
    /// Its default.
    pub default_value: i64,
}

/// An event that was taken (Linux userspace API, "struct v4l2_event", "struct v4l2_event_ctrl").
#[derive(Clone, Copy, Debug, PartialEq, Eq)]
pub struct Event {
    /// The control's id.
    pub id: CtrlId,
    /// Its kind.
    pub kind: Kind,
    /// What the raises for the file handle said that changed, since an event of the control was taken or the subscription was ended.
    pub changes: Changes,
    /// Its value when the event was raised last; 0 where it can't be read (of this project).
    pub value: i64,
    /// Its flags then.
    pub flags: Flags,
    /// Its least value.
    pub minimum: i64,
    /// Its greatest value.
    pub maximum: i64,
    /// The distance of its values.
    pub step: u64,
    /// Its default.
    pub default_value: i64,
    /// The number of the raise among those for the file handle, from 0.
    pub sequence: u32,
    /// How many events still wait.
    pub pending: u32,
}

/// How a file handle is subscribed to the events of a control.
#[derive(Clone, Copy, Debug, PartialEq, Eq)]
pub struct Subscription {
    /// The control's number in its device.
    pub control: u32,
    /// The flags of the subscription.
    pub flags: SubFlags,
}

/// The event of a control that waits.
#[derive(Clone, Copy, Debug, PartialEq, Eq)]
pub struct Waiting {
    /// The control's number in its device.
    pub control: u32,
    /// What the raises for the file handle said that changed, since an event of the control was taken or the subscription was ended.
    pub changes: Changes,
    /// What the last raise shows of the control.
    pub payload: Payload,
    /// The number of that raise among those for the file handle.
    pub sequence: u32,
}

/// What was raised last of a subscribed control, which is its event while that waits.
#[derive(Clone, Copy, Debug, PartialEq, Eq)]
pub(crate) struct Latest {
    /// What the raises for the file handle said that changed, since an event of the control was taken or the subscription was ended.
    pub(crate) changes: Changes,
    /// What the last raise shows of the control.
    pub(crate) payload: Payload,
    /// The number of that raise among those for the file handle.
    pub(crate) sequence: u32,
}
