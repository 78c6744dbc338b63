//! Histories as data, each with what an audit makes of it.

// Controls, each with a value.
pub type Pairs = &'static [(u32, i64)];

// A step. File handles and requests stand by their numbers.
#[derive(Clone, Copy)]
pub enum Move {
    Open(u32),
    Close(u32),
    Set(u32, Pairs),
    Grab(u32, bool),
    // the bounds, the step and the default
    Range(u32, i64, i64, u64, i64),
    Alloc,
    Store(u32, Pairs),
    Buffer(u32, u32),
    Queue(u32),
    Begin(u32),
    Complete(u32),
    Cancel(u32),
    Off,
    Reinit(u32),
    Free(u32),
    // the bits of the flags stand last
    Subscribe(u32, u32, u32),
    Unsubscribe(u32, Option<u32>),
    Take(u32, u32),
}

pub const DEFAULTS: &[i64] = &[3, 0, 4, 0, 0, 0];

pub const MANY: [(u32, i64); 65] = [(0, 8); 65];

pub const MOST: [(u32, i64); 64] = [(0, 8); 64];

// Steps, with the present values that they make, or the place of the first that may not follow those before it.
pub type Case = (&'static [Move], Result<&'static [i64], usize>);

// Range changes: a control that isn't there, each fault of a range, what isn't asked for one, and what follows.
pub const RANGES: &[Case] = &[
    (&[Move::Range(0, 0, 2, 1, 1)], Ok(&[2, 0, 4, 0, 0, 0])),
    (&[Move::Range(6, 0, 9, 1, 0)], Err(0)),
    (&[Move::Range(4_294_967_295, 0, 9, 1, 0)], Err(0)),
    (&[Move::Range(0, 9, 0, 1, 0)], Err(0)),
    (&[Move::Range(0, 0, 9, 0, 0)], Err(0)),
    (&[Move::Range(0, 0, 9, 2, 3)], Err(0)),
    (&[Move::Range(0, 0, 2_147_483_648, 1, 0)], Err(0)),
    (&[Move::Range(0, -2_147_483_649, 9, 1, 0)], Err(0)),
    (
        &[Move::Range(0, -2_147_483_648, 2_147_483_647, 1, 0)],
        Ok(DEFAULTS),
    ),
    // of a control whose validator takes no row, of one that is DISABLED, READ_ONLY, private, grabbed
    (&[Move::Range(1, 5, 9, 1, 5)], Ok(&[3, 5, 4, 0, 0, 0])),
    (&[Move::Range(4, 3, 9, 1, 3)], Ok(&[3, 0, 4, 0, 3, 0])),
    (&[Move::Range(5, 1, 9, 4, 5)], Ok(&[3, 0, 4, 0, 0, 1])),
    (&[Move::Range(3, 7, 7, 1, 7)], Ok(&[3, 0, 4, 7, 0, 0])),
    (
        &[Move::Grab(0, true), Move::Range(0, 5, 9, 1, 5)],
        Ok(&[5, 0, 4, 0, 0, 0]),
    ),
    // a later one counts
    (
        &[Move::Range(0, 20, 30, 1, 20), Move::Range(0, 0, 9, 1, 3)],
        Ok(&[9, 0, 4, 0, 0, 0]),
    ),
    (
        &[Move::Range(0, 20, 30, 1, 20), Move::Range(0, 30, 20, 1, 20)],
        Err(1),
    ),
    (
        &[
            Move::Open(0),
            Move::Range(0, 0, 100, 10, 0),
            Move::Set(0, &[(0, 77)]),
        ],
        Ok(&[80, 0, 4, 0, 0, 0]),
    ),
    // what a request stores settles when its frame begins
    (
        &[
            Move::Open(0),
            Move::Alloc,
            Move::Store(1, &[(0, 50)]),
            Move::Buffer(1, 9),
            Move::Queue(1),
            Move::Range(0, 0, 100, 1, 0),
            Move::Begin(1),
        ],
        Ok(&[50, 0, 4, 0, 0, 0]),
    ),
    (
        &[
            Move::Open(0),
            Move::Range(0, 0, 100, 1, 0),
            Move::Alloc,
            Move::Store(2, &[(0, 50)]),
            Move::Buffer(2, 9),
            Move::Queue(2),
            Move::Range(0, 0, 9, 1, 3),
            Move::Begin(2),
            Move::Range(0, 0, 100, 1, 0),
        ],
        Ok(&[9, 0, 4, 0, 0, 0]),
    ),
];

pub const CASES: &[Case] = &[
    (&[], Ok(DEFAULTS)),
    // each kind of step at once
    (&[Move::Open(0)], Ok(DEFAULTS)),
    (&[Move::Open(2)], Err(0)),
    (&[Move::Close(0)], Err(0)),
    (&[Move::Set(0, &[])], Err(0)),
    (&[Move::Grab(5, true)], Ok(DEFAULTS)),
    (&[Move::Grab(6, true)], Err(0)),
    (&[Move::Alloc], Ok(DEFAULTS)),
    (&[Move::Store(0, &[])], Err(0)),
    (&[Move::Buffer(0, 1)], Err(0)),
    (&[Move::Queue(0)], Err(0)),
    (&[Move::Begin(0)], Err(0)),
    (&[Move::Complete(0)], Err(0)),
    (&[Move::Cancel(0)], Err(0)),
    (&[Move::Off], Ok(DEFAULTS)),
    (&[Move::Reinit(0)], Err(0)),
    (&[Move::Free(0)], Err(0)),
    // sets
    (
        &[Move::Open(0), Move::Set(0, &[(0, 7)])],
        Ok(&[7, 0, 4, 0, 0, 0]),
    ),
    (
        &[Move::Open(0), Move::Set(0, &[(0, 70), (3, -1)])],
        Ok(&[9, 0, 4, 0, 0, 0]),
    ),
    (&[Move::Open(0), Move::Set(0, &[])], Ok(DEFAULTS)),
    (&[Move::Open(0), Move::Set(1, &[(0, 7)])], Err(1)),
    (
        &[Move::Open(0), Move::Close(0), Move::Set(0, &[(0, 7)])],
        Err(2),
    ),
    (&[Move::Open(0), Move::Close(0), Move::Close(0)], Err(2)),
    // handler 1 finds another control under the id of control 0, and doesn't show control 3; no handler shows 2 and 3, or a control 6
    (
        &[Move::Open(1), Move::Set(0, &[(2, 7)])],
        Ok(&[3, 0, 7, 0, 0, 0]),
    ),
    (&[Move::Open(1), Move::Set(0, &[(0, 7)])], Err(1)),
    (&[Move::Open(1), Move::Set(0, &[(3, 7)])], Err(1)),
    (&[Move::Open(0), Move::Set(0, &[(2, 7)])], Err(1)),
    (&[Move::Open(0), Move::Set(0, &[(6, 7)])], Err(1)),
    (
        &[Move::Open(0), Move::Set(0, &[(4_294_967_295, 7)])],
        Err(1),
    ),
    // DISABLED, READ_ONLY, refused by its validator, grabbed
    (&[Move::Open(0), Move::Set(0, &[(4, 7)])], Err(1)),
    (&[Move::Open(0), Move::Set(0, &[(5, 7)])], Err(1)),
    (&[Move::Open(0), Move::Set(0, &[(1, 7)])], Err(1)),
    (
        &[
            Move::Open(0),
            Move::Grab(0, true),
            Move::Grab(0, false),
            Move::Set(0, &[(0, 7)]),
            Move::Grab(0, true),
            Move::Set(0, &[(0, 6)]),
        ],
        Err(5),
    ),
    // as many pairs as a list has entries, and one more
    (
        &[Move::Open(0), Move::Set(0, &MOST)],
        Ok(&[8, 0, 4, 0, 0, 0]),
    ),
    (&[Move::Open(0), Move::Set(0, &MANY)], Err(1)),
    (
        &[Move::Open(0), Move::Alloc, Move::Store(1, &MOST)],
        Ok(DEFAULTS),
    ),
    (&[Move::Open(0), Move::Alloc, Move::Store(1, &MANY)], Err(2)),
    // a store that no open file handle could make
    (&[Move::Alloc, Move::Store(0, &[])], Err(1)),
    (
        &[Move::Open(1), Move::Alloc, Move::Store(1, &[(3, 1)])],
        Err(2),
    ),
    (
        &[
            Move::Open(1),
            Move::Open(0),
            Move::Alloc,
            Move::Store(2, &[(3, 1)]),
            Move::Store(2, &[(2, 1)]),
            Move::Store(2, &[(2, 1), (3, 1)]),
        ],
        Err(5),
    ),
    (
        &[
            Move::Open(0),
            Move::Alloc,
            Move::Store(1, &[(0, 1)]),
            Move::Close(0),
            Move::Store(1, &[(0, 1)]),
        ],
        Err(4),
    ),
    (
        &[Move::Open(0), Move::Alloc, Move::Store(1, &[(1, 7)])],
        Err(2),
    ),
    (
        &[Move::Open(0), Move::Alloc, Move::Store(0, &[(0, 7)])],
        Err(2),
    ),
];

pub const REQUESTS: &[Case] = &[
    // a begin and an end that name another than the first that is queued, and the one that runs
    (
        &[
            Move::Alloc,
            Move::Alloc,
            Move::Buffer(0, 1),
            Move::Buffer(1, 2),
            Move::Queue(0),
            Move::Queue(1),
            Move::Begin(1),
        ],
        Err(6),
    ),
    (
        &[
            Move::Alloc,
            Move::Alloc,
            Move::Buffer(0, 1),
            Move::Buffer(1, 2),
            Move::Queue(0),
            Move::Queue(1),
            Move::Begin(0),
            Move::Complete(1),
        ],
        Err(7),
    ),
    // requests out of turn
    (&[Move::Alloc, Move::Buffer(1, 1)], Err(1)),
    (
        &[Move::Alloc, Move::Buffer(0, 1), Move::Buffer(0, 1)],
        Err(2),
    ),
    (
        &[
            Move::Alloc,
            Move::Alloc,
            Move::Buffer(0, 1),
            Move::Buffer(1, 1),
        ],
        Err(3),
    ),
    (&[Move::Alloc, Move::Queue(0)], Err(1)),
    (
        &[
            Move::Alloc,
            Move::Buffer(0, 1),
            Move::Queue(0),
            Move::Queue(0),
        ],
        Err(3),
    ),
    (
        &[
            Move::Alloc,
            Move::Buffer(0, 1),
            Move::Queue(0),
            Move::Free(0),
        ],
        Err(3),
    ),
    (
        &[
            Move::Alloc,
            Move::Buffer(0, 1),
            Move::Queue(0),
            Move::Complete(0),
        ],
        Err(3),
    ),
    (
        &[
            Move::Alloc,
            Move::Buffer(0, 1),
            Move::Queue(0),
            Move::Begin(0),
            Move::Begin(0),
        ],
        Err(4),
    ),
    (
        &[
            Move::Alloc,
            Move::Buffer(0, 1),
            Move::Queue(0),
            Move::Begin(0),
            Move::Cancel(0),
        ],
        Err(4),
    ),
    (
        &[
            Move::Alloc,
            Move::Buffer(0, 1),
            Move::Queue(0),
            Move::Off,
            Move::Begin(0),
        ],
        Err(4),
    ),
    (
        &[
            Move::Alloc,
            Move::Buffer(0, 1),
            Move::Queue(0),
            Move::Cancel(0),
            Move::Cancel(0),
        ],
        Err(4),
    ),
    (&[Move::Alloc, Move::Free(0), Move::Reinit(0)], Err(2)),
    // a whole frame, and one whose control is grabbed then
    (
        &[
            Move::Open(0),
            Move::Alloc,
            Move::Store(1, &[(0, 8)]),
            Move::Buffer(1, 4),
            Move::Queue(1),
            Move::Begin(1),
            Move::Complete(1),
            Move::Reinit(1),
            Move::Free(1),
        ],
        Ok(&[8, 0, 4, 0, 0, 0]),
    ),
    (
        &[
            Move::Open(0),
            Move::Alloc,
            Move::Store(1, &[(0, 8), (3, 5)]),
            Move::Buffer(1, 4),
            Move::Queue(1),
            Move::Grab(0, true),
            Move::Begin(1),
        ],
        Ok(&[3, 0, 4, 5, 0, 0]),
    ),
];
