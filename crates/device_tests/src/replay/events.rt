//! Histories with events, each with what an audit makes of it; and what waits for a file handle behind them.

use crate::replay::cases::{Case, DEFAULTS, Move};

// Subscriptions, and their ends.
pub const EVENTS: &[Case] = &[
    (&[Move::Subscribe(0, 0, 0)], Err(0)),
    (&[Move::Unsubscribe(0, Some(0))], Err(0)),
    (&[Move::Unsubscribe(0, None)], Err(0)),
    (&[Move::Take(0, 0)], Err(0)),
    // what a handler finds under its id, DISABLED and READ_ONLY ones too; a second time, and with any bits
    (
        &[
            Move::Open(0),
            Move::Subscribe(0, 0, 0),
            Move::Subscribe(0, 0, 0x3),
            Move::Subscribe(0, 1, u32::MAX),
            Move::Subscribe(0, 3, 0),
            Move::Subscribe(0, 4, 0x1),
            Move::Subscribe(0, 5, 0x1),
        ],
        Ok(DEFAULTS),
    ),
    (
        &[
            Move::Open(1),
            Move::Subscribe(0, 2, 0),
            Move::Subscribe(0, 1, 0),
            Move::Subscribe(0, 4, 0),
            Move::Unsubscribe(0, Some(2)),
            Move::Unsubscribe(0, Some(5)),
        ],
        Ok(DEFAULTS),
    ),
    // what it doesn't: one whose id it finds another under, one that isn't shown, one of another handler, and none
    (&[Move::Open(1), Move::Subscribe(0, 0, 0)], Err(1)),
    (&[Move::Open(1), Move::Subscribe(0, 3, 0)], Err(1)),
    (&[Move::Open(0), Move::Subscribe(0, 2, 0)], Err(1)),
    (&[Move::Open(0), Move::Subscribe(0, 6, 0)], Err(1)),
    (
        &[Move::Open(0), Move::Subscribe(0, 4_294_967_295, 0x1)],
        Err(1),
    ),
    (&[Move::Open(1), Move::Unsubscribe(0, Some(0))], Err(1)),
    (&[Move::Open(1), Move::Unsubscribe(0, Some(3))], Err(1)),
    (&[Move::Open(0), Move::Unsubscribe(0, Some(2))], Err(1)),
    (&[Move::Open(0), Move::Unsubscribe(0, Some(6))], Err(1)),
    (
        &[Move::Open(0), Move::Unsubscribe(0, Some(4_294_967_295))],
        Err(1),
    ),
    // each through its own file handle
    (
        &[
            Move::Open(0),
            Move::Open(1),
            Move::Subscribe(0, 0, 0),
            Move::Subscribe(1, 2, 0),
            Move::Subscribe(1, 0, 0),
        ],
        Err(4),
    ),
    // the end of what isn't subscribed, and of what isn't shown
    (
        &[
            Move::Open(0),
            Move::Unsubscribe(0, Some(0)),
            Move::Unsubscribe(0, Some(0)),
            Move::Unsubscribe(0, None),
        ],
        Ok(DEFAULTS),
    ),
    // file handles that were never opened, or are closed
    (
        &[Move::Open(0), Move::Alloc, Move::Subscribe(1, 0, 0)],
        Err(2),
    ),
    (
        &[Move::Open(0), Move::Alloc, Move::Unsubscribe(1, None)],
        Err(2),
    ),
    (
        &[Move::Open(0), Move::Close(0), Move::Subscribe(0, 0, 0)],
        Err(2),
    ),
    (
        &[
            Move::Open(0),
            Move::Subscribe(0, 0, 0),
            Move::Close(0),
            Move::Unsubscribe(0, Some(0)),
        ],
        Err(3),
    ),
    (
        &[Move::Open(0), Move::Close(0), Move::Unsubscribe(0, None)],
        Err(2),
    ),
    (
        &[
            Move::Open(0),
            Move::Subscribe(0, 0, 0x1),
            Move::Close(0),
            Move::Take(0, 0),
        ],
        Err(3),
    ),
    (
        &[
            Move::Open(0),
            Move::Subscribe(0, 0, 0x1),
            Move::Close(0),
            Move::Open(0),
            Move::Take(3, 0),
        ],
        Err(4),
    ),
];

pub const TAKES: &[Case] = &[
    // a take where nothing waits: no subscription, one that tells nothing at once, or what is told already
    (&[Move::Open(0), Move::Take(0, 0)], Err(1)),
    (&[Move::Open(0), Move::Take(0, 4_294_967_295)], Err(1)),
    (
        &[Move::Open(0), Move::Subscribe(0, 0, 0x2), Move::Take(0, 0)],
        Err(2),
    ),
    (
        &[
            Move::Open(0),
            Move::Subscribe(0, 0, 0),
            Move::Subscribe(0, 0, 0x1),
            Move::Take(0, 0),
        ],
        Err(3),
    ),
    (
        &[
            Move::Open(0),
            Move::Subscribe(0, 0, 0x1),
            Move::Take(0, 0),
            Move::Take(0, 0),
        ],
        Err(3),
    ),
    (
        &[
            Move::Open(0),
            Move::Open(0),
            Move::Subscribe(0, 0, 0x1),
            Move::Take(1, 0),
        ],
        Err(3),
    ),
    (
        &[
            Move::Open(0),
            Move::Subscribe(0, 0, 0x1),
            Move::Unsubscribe(0, Some(0)),
            Move::Take(0, 0),
        ],
        Err(3),
    ),
    // its own set without feedback, and what a set leaves
    (
        &[
            Move::Open(0),
            Move::Subscribe(0, 0, 0),
            Move::Set(0, &[(0, 7)]),
            Move::Take(0, 0),
        ],
        Err(3),
    ),
    (
        &[
            Move::Open(0),
            Move::Open(0),
            Move::Subscribe(0, 0, 0),
            Move::Set(1, &[(0, 3)]),
            Move::Take(0, 0),
        ],
        Err(4),
    ),
    // a grab that holds already
    (
        &[
            Move::Open(0),
            Move::Grab(0, true),
            Move::Subscribe(0, 0, 0),
            Move::Grab(0, true),
            Move::Take(0, 0),
        ],
        Err(4),
    ),
    // a frame whose cluster is refused
    (
        &[
            Move::Open(0),
            Move::Alloc,
            Move::Store(1, &[(0, 8)]),
            Move::Buffer(1, 4),
            Move::Queue(1),
            Move::Grab(0, true),
            Move::Subscribe(0, 0, 0),
            Move::Begin(1),
            Move::Take(0, 0),
        ],
        Err(8),
    ),
    // a take of another control than the first
    (
        &[
            Move::Open(0),
            Move::Subscribe(0, 3, 0x1),
            Move::Subscribe(0, 0, 0x1),
            Move::Take(0, 0),
        ],
        Err(3),
    ),
    (
        &[
            Move::Open(0),
            Move::Open(0),
            Move::Subscribe(0, 3, 0),
            Move::Subscribe(0, 0, 0),
            Move::Set(1, &[(3, 1), (0, 1)]),
            Move::Take(0, 3),
        ],
        Err(5),
    ),
    (
        &[
            Move::Open(0),
            Move::Open(0),
            Move::Subscribe(0, 3, 0),
            Move::Subscribe(0, 0, 0),
            Move::Set(1, &[(0, 7)]),
            Move::Set(1, &[(3, 1)]),
            Move::Set(1, &[(0, 6)]),
            Move::Take(0, 0),
        ],
        Err(7),
    ),
    // takes: at once, of another's set, its own with feedback, grabs, and frames
    (
        &[Move::Open(0), Move::Subscribe(0, 0, 0x1), Move::Take(0, 0)],
        Ok(DEFAULTS),
    ),
    (
        &[
            Move::Open(0),
            Move::Open(0),
            Move::Subscribe(0, 0, 0),
            Move::Set(1, &[(0, 7)]),
            Move::Take(0, 0),
        ],
        Ok(&[7, 0, 4, 0, 0, 0]),
    ),
    (
        &[
            Move::Open(0),
            Move::Subscribe(0, 0, 0x2),
            Move::Set(0, &[(0, 7)]),
            Move::Take(0, 0),
            Move::Set(0, &[(0, 6)]),
            Move::Take(0, 0),
        ],
        Ok(&[6, 0, 4, 0, 0, 0]),
    ),
    (
        &[
            Move::Open(0),
            Move::Subscribe(0, 5, 0),
            Move::Grab(5, true),
            Move::Grab(4, true),
            Move::Take(0, 5),
            Move::Grab(5, false),
            Move::Take(0, 5),
        ],
        Ok(DEFAULTS),
    ),
    (
        &[
            Move::Open(0),
            Move::Subscribe(0, 0, 0),
            Move::Alloc,
            Move::Store(2, &[(0, 8)]),
            Move::Buffer(2, 4),
            Move::Queue(2),
            Move::Begin(2),
            Move::Take(0, 0),
        ],
        Ok(&[8, 0, 4, 0, 0, 0]),
    ),
    // the end of another subscription, and of none, leaves what waits
    (
        &[
            Move::Open(0),
            Move::Subscribe(0, 0, 0x1),
            Move::Unsubscribe(0, None),
            Move::Unsubscribe(0, Some(1)),
            Move::Subscribe(0, 0, 0),
            Move::Take(0, 0),
        ],
        Ok(DEFAULTS),
    ),
    // several wait: in the order of the controls after one step, and of the last raises after several
    (
        &[
            Move::Open(0),
            Move::Open(0),
            Move::Subscribe(0, 3, 0),
            Move::Subscribe(0, 0, 0),
            Move::Set(1, &[(3, 1), (0, 1)]),
            Move::Take(0, 0),
            Move::Take(0, 3),
        ],
        Ok(&[1, 0, 4, 1, 0, 0]),
    ),
    (
        &[
            Move::Open(0),
            Move::Open(0),
            Move::Subscribe(0, 3, 0),
            Move::Subscribe(0, 0, 0),
            Move::Subscribe(0, 5, 0),
            Move::Set(1, &[(0, 7)]),
            Move::Set(1, &[(3, 1)]),
            Move::Grab(5, true),
            Move::Set(1, &[(0, 6)]),
            Move::Unsubscribe(0, Some(5)),
            Move::Take(0, 3),
            Move::Set(1, &[(3, 2)]),
            Move::Take(0, 0),
            Move::Take(0, 3),
        ],
        Ok(&[6, 0, 4, 2, 0, 0]),
    ),
];

// What an event tells that waits: its control, the bits of what changed, its value, and its number.
pub type Told = (u32, u32, i64, u32);

// Steps, with what waits for a file handle behind them, and the number of its next event.
pub const WAITING: &[(&[Move], u32, &[Told], u32)] = &[
    (&[], 0, &[], 0),
    (&[Move::Open(0)], 0, &[], 0),
    (
        &[
            Move::Open(0),
            Move::Set(0, &[(0, 7)]),
            Move::Subscribe(0, 5, 0x1),
            Move::Subscribe(0, 0, 0x3),
            Move::Subscribe(0, 3, 0),
        ],
        0,
        &[(5, 0x3, 0, 0), (0, 0x3, 7, 1)],
        2,
    ),
    // what changed is joined, and the first that was taken still counts
    (
        &[
            Move::Open(0),
            Move::Open(0),
            Move::Subscribe(0, 0, 0),
            Move::Subscribe(0, 3, 0),
            Move::Set(1, &[(0, 7), (3, 2)]),
            Move::Take(0, 0),
            Move::Set(1, &[(0, 6)]),
            Move::Grab(3, true),
        ],
        0,
        &[(0, 0x1, 6, 2), (3, 0x3, 2, 3)],
        4,
    ),
    // of each file handle its own
    (
        &[
            Move::Open(0),
            Move::Open(1),
            Move::Subscribe(0, 0, 0),
            Move::Subscribe(1, 2, 0x2),
            Move::Set(0, &[(0, 7)]),
            Move::Set(1, &[(2, 5)]),
        ],
        0,
        &[],
        0,
    ),
    (
        &[
            Move::Open(0),
            Move::Open(1),
            Move::Subscribe(0, 0, 0),
            Move::Subscribe(1, 2, 0x2),
            Move::Set(0, &[(0, 7)]),
            Move::Set(1, &[(2, 5)]),
        ],
        1,
        &[(2, 0x1, 5, 0)],
        1,
    ),
    // another range, with another value and without, and one that it has already
    (
        &[
            Move::Open(0),
            Move::Subscribe(0, 0, 0),
            Move::Range(0, 0, 2, 1, 1),
        ],
        0,
        &[(0, 0x5, 2, 0)],
        1,
    ),
    (
        &[
            Move::Open(0),
            Move::Subscribe(0, 0, 0),
            Move::Range(0, 0, 9, 1, 4),
        ],
        0,
        &[(0, 0x4, 3, 0)],
        1,
    ),
    (
        &[
            Move::Open(0),
            Move::Subscribe(0, 0, 0),
            Move::Range(0, 0, 9, 1, 3),
        ],
        0,
        &[],
        0,
    ),
    // merged with a set that was heard of
    (
        &[
            Move::Open(0),
            Move::Subscribe(0, 0, 0x2),
            Move::Set(0, &[(0, 7)]),
            Move::Range(0, 0, 9, 1, 4),
        ],
        0,
        &[(0, 0x5, 7, 1)],
        2,
    ),
    // closed, and opened anew
    (
        &[Move::Open(0), Move::Subscribe(0, 0, 0x1), Move::Close(0)],
        0,
        &[],
        0,
    ),
    (
        &[
            Move::Open(0),
            Move::Subscribe(0, 0, 0x1),
            Move::Close(0),
            Move::Open(0),
            Move::Subscribe(3, 4, 0x1),
        ],
        3,
        &[(4, 0x3, 0, 0)],
        1,
    ),
];
