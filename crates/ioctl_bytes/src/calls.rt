//! The numbers of the calls, and the words of 32 bits that they read. Each constant has the name that the headers give it.

/// Reads what a control is like.
pub const VIDIOC_QUERYCTRL: u32 = 0xc044_5624;
/// Reads an item of a menu.
pub const VIDIOC_QUERYMENU: u32 = 0xc02c_5625;
/// Reads a control.
pub const VIDIOC_G_CTRL: u32 = 0xc008_561b;
/// Sets a control.
pub const VIDIOC_S_CTRL: u32 = 0xc008_561c;
/// Reads controls.
pub const VIDIOC_G_EXT_CTRLS: u32 = 0xc020_5647;
/// Sets controls.
pub const VIDIOC_S_EXT_CTRLS: u32 = 0xc020_5648;
/// Tries controls.
pub const VIDIOC_TRY_EXT_CTRLS: u32 = 0xc020_5649;
/// Reads what a control is like, with bounds of 64 bits.
pub const VIDIOC_QUERY_EXT_CTRL: u32 = 0xc0e8_5667;
/// Takes an event.
pub const VIDIOC_DQEVENT: u32 = 0x8088_5659;
/// Subscribes to events.
pub const VIDIOC_SUBSCRIBE_EVENT: u32 = 0x4020_565a;
/// Ends a subscription.
pub const VIDIOC_UNSUBSCRIBE_EVENT: u32 = 0x4020_565b;
/// Makes a request.
pub const MEDIA_IOC_REQUEST_ALLOC: u32 = 0x8004_7c05;
/// Queues a request.
pub const MEDIA_REQUEST_IOC_QUEUE: u32 = 0x0000_7c80;
/// Makes a request as new.
pub const MEDIA_REQUEST_IOC_REINIT: u32 = 0x0000_7c81;

/// The next control that is no array, behind an id.
pub const V4L2_CTRL_FLAG_NEXT_CTRL: u32 = 0x8000_0000;
/// The next control that is an array.
pub const V4L2_CTRL_FLAG_NEXT_COMPOUND: u32 = 0x4000_0000;
/// The bits of an id, which flags stand above.
pub const V4L2_CTRL_ID_MASK: u32 = 0x0fff_ffff;
/// A control whose value lies behind a pointer.
pub const V4L2_CTRL_FLAG_HAS_PAYLOAD: u32 = 0x100;
/// The first of the old ids of controls of a driver's own.
pub const V4L2_CID_PRIVATE_BASE: u32 = 0x0800_0000;
/// The class of the user controls.
pub const V4L2_CTRL_CLASS_USER: u32 = 0x0098_0000;
/// The type of a heading of a class.
pub const V4L2_CTRL_TYPE_CTRL_CLASS: u32 = 6;
/// The type of the event of a control.
pub const V4L2_EVENT_CTRL: u32 = 3;
/// Every type of event, where subscriptions end.
pub const V4L2_EVENT_ALL: u32 = 0;
