ghost use Rattle.std.specs.Prelude.{◌≡◌, Err};
ghost use Rattle.ctrl_types.specs.Refusals.{whole};

use crate::info::CtrlInfo;
use crate::pair_list::PairList;
use ctrl_events::Event;
use ctrl_forecast::{ClusterList, Forecast};
use ctrl_handlers::MenuItem;
use ctrl_lists::ControlList;
use ctrl_types::{Check, CtrlId, Fault, FhId, Refusal, RequestId, SubFlags};
use req_book::RequestState;

/// What a caller asks of a device.
#[derive(Debug)]
pub enum Ask {
    /// Opens a file handle on a handler (of this project).
    OpenFh {
        /// The handler's number.
        handler: u32,
    },
    /// Closes a file handle (of this project).
    CloseFh {
        /// The file handle.
        fh: FhId,
    },
    /// Reads the values of controls (`VIDIOC_G_EXT_CTRLS`).
    GetCtrls {
        /// The file handle.
        fh: FhId,
        /// Which values, as `Which::read` reads it.
        which: u32,
        /// The request, where `which` speaks of one; else ignored.
        request: Option<RequestId>,
        /// The controls; their values are ignored.
        list: ControlList,
    },
    /// Sets controls, all or none (`VIDIOC_S_EXT_CTRLS`).
    SetCtrls {
        /// The file handle.
        fh: FhId,
        /// Which values, as `Which::read` reads it.
        which: u32,
        /// The request, where `which` speaks of one; else ignored.
        request: Option<RequestId>,
        /// The controls and their values.
        list: ControlList,
    },
    /// Tries what controls would be set to, all or none, and sets none (`VIDIOC_TRY_EXT_CTRLS`).
    TryCtrls {
        /// The file handle.
        fh: FhId,
        /// Which values, as `Which::read` reads it.
        which: u32,
        /// The request, where `which` speaks of one; else ignored.
        request: Option<RequestId>,
        /// The controls and their values.
        list: ControlList,
    },
    /// Grabs a control, so that a set of it is refused, or lets it go (Linux driver API, `v4l2_ctrl_grab`).
    Grab {
        /// The control's number.
        control: u32,
        /// Whether it is to be grabbed.
        on: bool,
    },
    /// Gives a control another range (Linux driver API, `v4l2_ctrl_modify_range`): its value is settled anew.
    ModifyRange {
        /// The control's number.
        control: u32,
        /// The least value from then on, or a menu's first index.
        min: i64,
        /// The greatest value, or a menu's last index; of a BITMASK all its bits.
        max: i64,
        /// How far its values lie apart; 0 for a BUTTON and a BITMASK.
        step: u64,
        /// The default, which the control has to take as it is within this range.
        default_value: i64,
    },
    /// Makes a media request (`MEDIA_IOC_REQUEST_ALLOC`).
    Alloc,
    /// Gives a request the buffer of its frame (`VIDIOC_QBUF` with `request_fd`).
    AddBuffer {
        /// The request.
        request: RequestId,
        /// The buffer's number.
        buffer: u32,
    },
    /// Has a request wait for its frame (`MEDIA_REQUEST_IOC_QUEUE`).
    Queue {
        /// The request.
        request: RequestId,
    },
    /// Begins the frame of the first request that waits: the present values become what it asks for (Linux driver API, "V4L2 Controls",
    /// `v4l2_ctrl_request_setup`).
    Begin,
    /// Ends the frame that is being made (Linux driver API, `v4l2_ctrl_request_complete`).
    Complete,
    /// Takes a request that waits from the queue (of this project).
    Cancel {
        /// The request.
        request: RequestId,
    },
    /// Stops the stream (`VIDIOC_STREAMOFF`).
    StreamOff,
    /// Makes a request as new (`MEDIA_REQUEST_IOC_REINIT`).
    Reinit {
        /// The request.
        request: RequestId,
    },
    /// Lets a request go (Linux userspace API, "Request API", `close()`).
    Free {
        /// The request.
        request: RequestId,
    },
    /// Reads a request's state (of this project).
    StateOf {
        /// The request.
        request: RequestId,
    },
    /// Reads what the queued frame at a place will have, as things stand (of this project).
    Forecast {
        /// The place in the queue, from 0.
        place: u32,
    },
    /// Subscribes a file handle to the events of a control (`VIDIOC_SUBSCRIBE_EVENT`).
    Subscribe {
        /// The file handle.
        fh: FhId,
        /// The control.
        id: CtrlId,
        /// How it is subscribed.
        flags: SubFlags,
    },
    /// Ends the subscription of a file handle to the events of a control (`VIDIOC_UNSUBSCRIBE_EVENT`).
    Unsubscribe {
        /// The file handle.
        fh: FhId,
        /// The control, shown or not.
        id: CtrlId,
    },
    /// Takes the first event that waits for a file handle (`VIDIOC_DQEVENT`).
    Take {
        /// The file handle.
        fh: FhId,
    },
    /// Reads what a control is like (`VIDIOC_QUERY_EXT_CTRL`).
    Query {
        /// The file handle.
        fh: FhId,
        /// The control.
        id: CtrlId,
    },
    /// Reads the least id that is shown and greater than another (`V4L2_CTRL_FLAG_NEXT_CTRL`).
    NextId {
        /// The file handle.
        fh: FhId,
        /// The other id, which needn't be shown.
        id: CtrlId,
    },
    /// Reads an item of a menu (`VIDIOC_QUERYMENU`).
    MenuItem {
        /// The file handle.
        fh: FhId,
        /// The menu.
        id: CtrlId,
        /// The item's index.
        index: u32,
    },
    /// Reads the word that a cluster was told last (of this project).
    Told {
        /// The cluster's number.
        cluster: u32,
    },
}

/// What an accepted ask is told.
#[derive(Debug)]
pub enum Reply {
    /// The file handle that was opened.
    Fh(FhId),
    /// It is done, and there is nothing to tell.
    Done,
    /// The controls of the list, in its order, with their values.
    Controls(ControlList),
    /// The request that was made.
    Request(RequestId),
    /// The request's state.
    State(RequestState),
    /// The frame that was begun.
    Frame {
        /// The request whose frame it is.
        request: RequestId,
        /// The number of the request's buffer.
        buffer: u32,
        /// The clusters that were refused, which keep their rows, in rising order.
        refused: ClusterList,
    },
    /// What the queued frame will have.
    Forecast(Forecast),
    /// The event that was taken.
    Event(Event),
    /// What the control is like.
    Info(CtrlInfo),
    /// The next id.
    Id(CtrlId),
    /// The item of the menu.
    Item(MenuItem),
    /// The word that the cluster was told last; 0 where it has no notifier.
    Word(u64),
}

/// What an accepted ask adds to the history.
#[derive(Debug)]
pub enum Step {
    /// A file handle was opened; its id is the number of this step (of this project).
    OpenFh {
        /// The handler's number.
        handler: u32,
    },
    /// A file handle was closed (of this project).
    CloseFh {
        /// The file handle.
        fh: FhId,
    },
    /// Controls were set.
    Set {
        /// The file handle.
        fh: FhId,
        /// The values, as they were given.
        pairs: PairList,
    },
    /// A control was grabbed, or let go.
    Grab {
        /// The control's number.
        control: u32,
        /// Whether it was grabbed.
        on: bool,
    },
    /// A control was given another range.
    ModifyRange {
        /// The control's number.
        control: u32,
        /// The least value from then on.
        min: i64,
        /// The greatest value.
        max: i64,
        /// How far its values lie apart.
        step: u64,
        /// The default.
        default_value: i64,
    },
    /// A request was made; its id is the number of this step.
    Alloc,
    /// Values were stored in a request.
    Store {
        /// The request.
        request: RequestId,
        /// The values, as they were given.
        pairs: PairList,
    },
    /// A request was given a buffer.
    Buffer {
        /// The request.
        request: RequestId,
        /// The buffer's number.
        buffer: u32,
    },
    /// A request was queued.
    Queue {
        /// The request.
        request: RequestId,
    },
    /// The frame of a request was begun.
    Begin {
        /// The request.
        request: RequestId,
    },
    /// The frame of a request was ended.
    Complete {
        /// The request.
        request: RequestId,
    },
    /// A request was taken from the queue.
    Cancel {
        /// The request.
        request: RequestId,
    },
    /// The stream was stopped.
    StreamOff,
    /// A request was made as new.
    Reinit {
        /// The request.
        request: RequestId,
    },
    /// A request was let go.
    Free {
        /// The request.
        request: RequestId,
    },
    /// A file handle was subscribed to the events of a control, where it wasn't yet.
    Subscribe {
        /// The file handle.
        fh: FhId,
        /// The control's number.
        control: u32,
        /// How it was subscribed, as it was given.
        flags: SubFlags,
    },
    /// The subscription of a file handle was ended, where there was one.
    Unsubscribe {
        /// The file handle.
        fh: FhId,
        /// The control's number; none where the id wasn't shown.
        control: Option<u32>,
    },
    /// An event was taken.
    Take {
        /// The file handle.
        fh: FhId,
        /// The number of the event's control.
        control: u32,
    },
}

/// The answer to an ask that a check refuses as a whole (of this project).
///
/// - `check`: the first check that doesn't hold.
pub fn refused(check: Check) -> Result<Reply, Refusal>
    ensures { result ≡ Err (whole check) }
{
    Err(Refusal::whole(check))
}

impl Ask {
    ghost use Rattle.device_history.specs.AskChecks.{fault_for};

    /// The fault that the ask is answered (Linux userspace API, "struct v4l2_ext_controls", `error_idx`; which index a list has is of this project): the errno of the
    /// check, and of a list an index: of a try the place of the entry where it is refused, and else the number of entries.
    ///
    /// - `refusal`: what refuses it.
    pub fn fault(&self, refusal: Refusal) -> Fault
        ensures { result ≡ fault_for self.now refusal }
    {
        match self {
            Ask::GetCtrls { list, .. } | Ask::SetCtrls { list, .. } => {
                refusal.at_count(list.len())
            }
            Ask::TryCtrls { list, .. } => refusal.at_entry(list.len()),
            _ => refusal.check.fault(),
        }
    }
}

// An ask, a reply and a step are let go by hand: a derived drop is written out wherever one may be let go, which makes the proof of each such
// function dear (docs/GATE.md).

impl Drop for Ask {
    fn drop(self) {
        match self {
            Ask::OpenFh { handler: _ }
            | Ask::CloseFh { fh: _ }
            | Ask::GetCtrls {
                fh: _,
                which: _,
                request: _,
                list: _,
            }
            | Ask::SetCtrls {
                fh: _,
                which: _,
                request: _,
                list: _,
            }
            | Ask::TryCtrls {
                fh: _,
                which: _,
                request: _,
                list: _,
            }
            | Ask::Grab { control: _, on: _ }
            | Ask::ModifyRange {
                control: _,
                min: _,
                max: _,
                step: _,
                default_value: _,
            }
            | Ask::Alloc
            | Ask::AddBuffer {
                request: _,
                buffer: _,
            }
            | Ask::Queue { request: _ }
            | Ask::Begin
            | Ask::Complete
            | Ask::Cancel { request: _ }
            | Ask::StreamOff
            | Ask::Reinit { request: _ }
            | Ask::Free { request: _ }
            | Ask::StateOf { request: _ }
            | Ask::Forecast { place: _ }
            | Ask::Subscribe {
                fh: _,
                id: _,
                flags: _,
            }
            | Ask::Unsubscribe { fh: _, id: _ }
            | Ask::Take { fh: _ }
            | Ask::Query { fh: _, id: _ }
            | Ask::NextId { fh: _, id: _ }
            | Ask::MenuItem {
                fh: _,
                id: _,
                index: _,
            }
            | Ask::Told { cluster: _ } => {}
        }
    }
}

impl Drop for Reply {
    fn drop(self) {
        match self {
            Reply::Fh(_)
            | Reply::Done
            | Reply::Controls(_)
            | Reply::Request(_)
            | Reply::State(_)
            | Reply::Frame {
                request: _,
                buffer: _,
                refused: _,
            }
            | Reply::Forecast(_)
            | Reply::Event(_)
            | Reply::Info(_)
            | Reply::Id(_)
            | Reply::Item(_)
            | Reply::Word(_) => {}
        }
    }
}

impl Drop for Step {
    fn drop(self) {
        match self {
            Step::OpenFh { handler: _ }
            | Step::CloseFh { fh: _ }
            | Step::Set { fh: _, pairs: _ }
            | Step::Grab { control: _, on: _ }
            | Step::ModifyRange {
                control: _,
                min: _,
                max: _,
                step: _,
                default_value: _,
            }
            | Step::Alloc
            | Step::Store {
                request: _,
                pairs: _,
            }
            | Step::Buffer {
                request: _,
                buffer: _,
            }
            | Step::Queue { request: _ }
            | Step::Begin { request: _ }
            | Step::Complete { request: _ }
            | Step::Cancel { request: _ }
            | Step::StreamOff
            | Step::Reinit { request: _ }
            | Step::Free { request: _ }
            | Step::Subscribe {
                fh: _,
                control: _,
                flags: _,
            }
            | Step::Unsubscribe { fh: _, control: _ }
            | Step::Take { fh: _, control: _ } => {}
        }
    }
}
