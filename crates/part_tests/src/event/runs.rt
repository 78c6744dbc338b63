//! What file handles see of events, from one without any.

use crate::event::calls::{Call, Look, Told, is_wanted, shows};
use crate::event::scene::Scene;
use ctrl_types::{Errno, SubFlags};
use std::alloc::Global;

// Calls with their answers, and then looks.
type Run = (
    &'static [(Call, Result<Option<Told>, Errno>)],
    &'static [Look],
);

const RUNS: &[Run] = &[
    // nothing waits, nothing was raised, and nothing is subscribed
    (
        &[
            (Call::Take(0), Err(Errno::ENOENT)),
            (Call::Raise(1, 1, 4, None), Ok(None)),
            (Call::Take(0), Err(Errno::ENOENT)),
            (Call::Unsubscribe(0, 1), Ok(None)),
            (Call::Drop(0), Ok(None)),
            (Call::Take(0), Err(Errno::ENOENT)),
        ],
        &[
            Look::Waits(0, &[]),
            Look::Next(0, 0),
            Look::Subscribed(0, 1, None),
            Look::Empty(true),
        ],
    ),
    // merging: what changed is joined, the value and the number are the last, and the event moves to the end
    (
        &[
            (Call::Subscribe(0, 1, 0, 0), Ok(None)),
            (Call::Subscribe(0, 2, 0, 0), Ok(None)),
            (Call::Subscribe(0, 3, 0, 0), Ok(None)),
            (Call::Raise(1, 1, 10, None), Ok(None)),
            (Call::Raise(2, 1, 20, None), Ok(None)),
            (Call::Raise(3, 4, 30, None), Ok(None)),
            (Call::Raise(1, 2, 11, None), Ok(None)),
            (Call::Raise(2, 1, 21, None), Ok(None)),
        ],
        &[
            Look::Waits(
                0,
                &[
                    Told {
                        control: 3,
                        changes: 4,
                        value: 30,
                        sequence: 2,
                        pending: 2,
                    },
                    Told {
                        control: 1,
                        changes: 3,
                        value: 11,
                        sequence: 3,
                        pending: 1,
                    },
                    Told {
                        control: 2,
                        changes: 1,
                        value: 21,
                        sequence: 4,
                        pending: 0,
                    },
                ],
            ),
            Look::Next(0, 5),
        ],
    ),
    // merging with an event that waits alone, and once it was taken
    (
        &[
            (Call::Subscribe(0, 1, 0, 0), Ok(None)),
            (Call::Raise(1, 1, 10, None), Ok(None)),
            (Call::Raise(1, 4, 11, None), Ok(None)),
            (
                Call::Take(0),
                Ok(Some(Told {
                    control: 1,
                    changes: 5,
                    value: 11,
                    sequence: 1,
                    pending: 0,
                })),
            ),
            (Call::Take(0), Err(Errno::ENOENT)),
            (Call::Raise(1, 2, 12, None), Ok(None)),
            (
                Call::Take(0),
                Ok(Some(Told {
                    control: 1,
                    changes: 2,
                    value: 12,
                    sequence: 2,
                    pending: 0,
                })),
            ),
            (Call::Take(0), Err(Errno::ENOENT)),
        ],
        &[
            Look::Waits(0, &[]),
            Look::Next(0, 3),
            Look::Subscribed(0, 1, Some(0)),
            Look::Empty(false),
        ],
    ),
    // the last file handle goes, and with it all that was kept
    (
        &[
            (Call::Subscribe(0, 1, 1, 7), Ok(None)),
            (Call::Unsubscribe(0, 1), Ok(None)),
            (Call::Drop(0), Ok(None)),
        ],
        &[Look::Waits(0, &[]), Look::Empty(true)],
    ),
    // a take answers how many still wait
    (
        &[
            (Call::Subscribe(0, 1, 1, 7), Ok(None)),
            (Call::Subscribe(0, 2, 1, 8), Ok(None)),
            (Call::Subscribe(0, 3, 1, 9), Ok(None)),
            (
                Call::Take(0),
                Ok(Some(Told {
                    control: 1,
                    changes: 1,
                    value: 7,
                    sequence: 0,
                    pending: 2,
                })),
            ),
            (Call::Raise(1, 2, 17, None), Ok(None)),
            (
                Call::Take(0),
                Ok(Some(Told {
                    control: 2,
                    changes: 1,
                    value: 8,
                    sequence: 1,
                    pending: 2,
                })),
            ),
            (
                Call::Take(0),
                Ok(Some(Told {
                    control: 3,
                    changes: 1,
                    value: 9,
                    sequence: 2,
                    pending: 1,
                })),
            ),
            (
                Call::Take(0),
                Ok(Some(Told {
                    control: 1,
                    changes: 2,
                    value: 17,
                    sequence: 3,
                    pending: 0,
                })),
            ),
            (Call::Take(0), Err(Errno::ENOENT)),
        ],
        &[Look::Next(0, 4)],
    ),
    // unsubscribing drops what waits in the middle
    (
        &[
            (Call::Subscribe(0, 1, 1, 7), Ok(None)),
            (Call::Subscribe(0, 2, 1, 8), Ok(None)),
            (Call::Subscribe(0, 3, 1, 9), Ok(None)),
            (Call::Unsubscribe(0, 2), Ok(None)),
            (Call::Raise(2, 1, 18, None), Ok(None)),
        ],
        &[
            Look::Waits(
                0,
                &[
                    Told {
                        control: 1,
                        changes: 1,
                        value: 7,
                        sequence: 0,
                        pending: 1,
                    },
                    Told {
                        control: 3,
                        changes: 1,
                        value: 9,
                        sequence: 2,
                        pending: 0,
                    },
                ],
            ),
            Look::Next(0, 3),
            Look::Subscribed(0, 1, Some(1)),
            Look::Subscribed(0, 2, None),
            Look::Subscribed(0, 3, Some(1)),
        ],
    ),
    // unsubscribing what isn't subscribed, and twice
    (
        &[
            (Call::Subscribe(0, 1, 1, 7), Ok(None)),
            (Call::Unsubscribe(0, 2), Ok(None)),
            (Call::Unsubscribe(1, 1), Ok(None)),
            (Call::Unsubscribe(0, 1), Ok(None)),
            (Call::Unsubscribe(0, 1), Ok(None)),
        ],
        &[
            Look::Waits(0, &[]),
            Look::Next(0, 1),
            Look::Subscribed(0, 1, None),
            Look::Subscribed(1, 1, None),
        ],
    ),
    // subscribing again changes nothing, whatever its flags
    (
        &[
            (Call::Subscribe(0, 1, 0, 7), Ok(None)),
            (Call::Subscribe(0, 1, 3, 8), Ok(None)),
            (Call::Subscribe(0, 2, 1, 9), Ok(None)),
            (Call::Subscribe(0, 2, 1, 10), Ok(None)),
            (Call::Subscribe(0, 2, 0, 11), Ok(None)),
        ],
        &[
            Look::Waits(
                0,
                &[Told {
                    control: 2,
                    changes: 1,
                    value: 9,
                    sequence: 0,
                    pending: 0,
                }],
            ),
            Look::Next(0, 1),
            Look::Subscribed(0, 1, Some(0)),
            Look::Subscribed(0, 2, Some(1)),
        ],
    ),
    // bits of the flags that have no name are kept
    (
        &[(Call::Subscribe(0, 1, 2147483652, 7), Ok(None))],
        &[
            Look::Waits(0, &[]),
            Look::Subscribed(0, 1, Some(2147483652)),
        ],
    ),
    // numbers go on over an unsubscription, and begin again after a file handle is dropped
    (
        &[
            (Call::Subscribe(0, 1, 1, 7), Ok(None)),
            (Call::Subscribe(1, 1, 1, 7), Ok(None)),
            (Call::Raise(1, 1, 8, None), Ok(None)),
            (Call::Unsubscribe(0, 1), Ok(None)),
            (Call::Subscribe(0, 1, 1, 9), Ok(None)),
            (Call::Drop(1), Ok(None)),
            (Call::Subscribe(1, 1, 1, 9), Ok(None)),
        ],
        &[
            Look::Waits(
                0,
                &[Told {
                    control: 1,
                    changes: 1,
                    value: 9,
                    sequence: 2,
                    pending: 0,
                }],
            ),
            Look::Next(0, 3),
            Look::Waits(
                1,
                &[Told {
                    control: 1,
                    changes: 1,
                    value: 9,
                    sequence: 0,
                    pending: 0,
                }],
            ),
            Look::Next(1, 1),
        ],
    ),
    // a file handle that is dropped has nothing, and every other stays
    (
        &[
            (Call::Subscribe(0, 1, 1, 7), Ok(None)),
            (Call::Subscribe(1, 1, 1, 8), Ok(None)),
            (Call::Subscribe(2, 1, 1, 9), Ok(None)),
            (Call::Drop(0), Ok(None)),
            (Call::Raise(1, 2, 10, None), Ok(None)),
        ],
        &[
            Look::Waits(0, &[]),
            Look::Next(0, 0),
            Look::Subscribed(0, 1, None),
            Look::Waits(
                1,
                &[Told {
                    control: 1,
                    changes: 3,
                    value: 10,
                    sequence: 1,
                    pending: 0,
                }],
            ),
            Look::Waits(
                2,
                &[Told {
                    control: 1,
                    changes: 3,
                    value: 10,
                    sequence: 1,
                    pending: 0,
                }],
            ),
            Look::Subscribed(1, 1, Some(1)),
        ],
    ),
    // a file handle gets its own raises only where it allows feedback; another always does
    (
        &[
            (Call::Subscribe(0, 1, 0, 0), Ok(None)),
            (Call::Subscribe(1, 1, 2, 0), Ok(None)),
            (Call::Subscribe(2, 1, 3, 5), Ok(None)),
            (Call::Raise(1, 1, 6, Some(0)), Ok(None)),
            (Call::Raise(1, 2, 7, Some(1)), Ok(None)),
            (Call::Raise(1, 4, 8, Some(2)), Ok(None)),
        ],
        &[
            Look::Waits(
                0,
                &[Told {
                    control: 1,
                    changes: 6,
                    value: 8,
                    sequence: 1,
                    pending: 0,
                }],
            ),
            Look::Next(0, 2),
            Look::Waits(
                1,
                &[Told {
                    control: 1,
                    changes: 7,
                    value: 8,
                    sequence: 2,
                    pending: 0,
                }],
            ),
            Look::Next(1, 3),
            Look::Waits(
                2,
                &[Told {
                    control: 1,
                    changes: 7,
                    value: 8,
                    sequence: 3,
                    pending: 0,
                }],
            ),
            Look::Next(2, 4),
        ],
    ),
    // a raise between two subscriptions isn't heard, and one after both is
    (
        &[
            (Call::Subscribe(0, 1, 0, 0), Ok(None)),
            (Call::Subscribe(1, 1, 0, 0), Ok(None)),
            (Call::Unsubscribe(0, 1), Ok(None)),
            (Call::Raise(1, 1, 6, None), Ok(None)),
            (Call::Subscribe(0, 1, 0, 0), Ok(None)),
            (Call::Raise(1, 2, 7, None), Ok(None)),
        ],
        &[
            Look::Waits(
                0,
                &[Told {
                    control: 1,
                    changes: 2,
                    value: 7,
                    sequence: 0,
                    pending: 0,
                }],
            ),
            Look::Next(0, 1),
            Look::Waits(
                1,
                &[Told {
                    control: 1,
                    changes: 3,
                    value: 7,
                    sequence: 1,
                    pending: 0,
                }],
            ),
            Look::Next(1, 2),
        ],
    ),
    // the same, where no other is subscribed
    (
        &[
            (Call::Subscribe(0, 1, 0, 0), Ok(None)),
            (Call::Unsubscribe(0, 1), Ok(None)),
            (Call::Raise(1, 1, 6, None), Ok(None)),
            (Call::Raise(1, 1, 7, None), Ok(None)),
            (Call::Subscribe(0, 1, 0, 0), Ok(None)),
            (Call::Raise(1, 2, 8, None), Ok(None)),
        ],
        &[
            Look::Waits(
                0,
                &[Told {
                    control: 1,
                    changes: 2,
                    value: 8,
                    sequence: 0,
                    pending: 0,
                }],
            ),
            Look::Next(0, 1),
        ],
    ),
    // one that is no longer subscribed takes nothing from one whose number is 64 more
    (
        &[
            (Call::Subscribe(0, 1, 0, 0), Ok(None)),
            (Call::Subscribe(64, 1, 0, 0), Ok(None)),
            (Call::Unsubscribe(0, 1), Ok(None)),
            (Call::Raise(1, 1, 6, None), Ok(None)),
            (Call::Raise(1, 4, 7, None), Ok(None)),
        ],
        &[
            Look::Waits(0, &[]),
            Look::Next(0, 0),
            Look::Waits(
                64,
                &[Told {
                    control: 1,
                    changes: 5,
                    value: 7,
                    sequence: 1,
                    pending: 0,
                }],
            ),
            Look::Next(64, 2),
        ],
    ),
    // feedback is of the file handle's own subscription to the control
    (
        &[
            (Call::Subscribe(0, 1, 0, 0), Ok(None)),
            (Call::Subscribe(0, 2, 2, 0), Ok(None)),
            (Call::Raise(1, 1, 6, Some(0)), Ok(None)),
            (Call::Raise(2, 1, 7, Some(0)), Ok(None)),
            (Call::Raise(1, 1, 8, Some(9)), Ok(None)),
        ],
        &[
            Look::Waits(
                0,
                &[
                    Told {
                        control: 2,
                        changes: 1,
                        value: 7,
                        sequence: 0,
                        pending: 1,
                    },
                    Told {
                        control: 1,
                        changes: 1,
                        value: 8,
                        sequence: 1,
                        pending: 0,
                    },
                ],
            ),
            Look::Next(0, 2),
        ],
    ),
    // the event at once is for the one that subscribes, whatever it says of feedback
    (
        &[
            (Call::Subscribe(0, 1, 0, 0), Ok(None)),
            (Call::Subscribe(1, 1, 1, 5), Ok(None)),
        ],
        &[
            Look::Waits(0, &[]),
            Look::Next(0, 0),
            Look::Waits(
                1,
                &[Told {
                    control: 1,
                    changes: 1,
                    value: 5,
                    sequence: 0,
                    pending: 0,
                }],
            ),
            Look::Next(1, 1),
        ],
    ),
];

// What is seen of the file handle that subscribes.
fn seen(scene: &Scene, call: Call) -> (usize, u32, Option<SubFlags>) {
    match call {
        Call::Subscribe(fh, control, _, _) | Call::SubscribeSaying(fh, control, _, _, _) => (
            scene.pending_len(fh),
            scene.next_sequence(fh),
            scene.subscribed(fh, control),
        ),
        _ => (0, 0, None),
    }
}

// Whether a call has its answer. One that is refused for want of memory changes nothing, and is made again.
fn is_answered(scene: &mut Scene, call: Call, want: Result<Option<Told>, Errno>) -> bool {
    let before = seen(scene, call);
    let first = scene.answer(call);
    if first != Err(Errno::ENOMEM) {
        return is_wanted(first, want);
    }
    let is_unchanged = seen(scene, call) == before;
    is_wanted(scene.answer(call), want) && is_unchanged
}

// What the calls leave is alike where they are made twice.
fn plays(alloc: Global, run: &Run) -> bool {
    let mut scene = Scene::new(alloc);
    let mut other = Scene::new(alloc);
    for (call, want) in run.0 {
        if !is_answered(&mut scene, *call, *want) || !is_answered(&mut other, *call, *want) {
            return false;
        }
    }
    for look in run.1 {
        if !shows(&scene, *look) {
            return false;
        }
    }
    scene.is_like(&other, 0) && scene.is_like(&other, 1)
}

#[test]
fn runs(rt: HostRuntime) {
    for (number, run) in RUNS.iter().enumerate() {
        assert!(rt; plays(rt.alloc(), run), "{number}");
    }
}

// How many file handles there are, of which the last six share their bits with the first, and how many controls.
const HANDLES: u32 = 70;

const MOST: u32 = 64;

// Each file handle subscribes to each control, and then an event of each control is raised, the last first.
fn fills(scene: &mut Scene) -> bool {
    for fh in 0..HANDLES {
        for control in 0..MOST {
            if !is_answered(scene, Call::Subscribe(fh, control, 1, 5), Ok(None)) {
                return false;
            }
        }
    }
    for control in (0..MOST).rev() {
        if !is_answered(scene, Call::Raise(control, 2, 6, None), Ok(None)) {
            return false;
        }
    }
    true
}

// The events of a file handle come in the order of the raises.
fn empties(scene: &mut Scene, fh: u32) -> bool {
    for count in 0..MOST {
        let left = MOST - 1 - count;
        let told = Told {
            control: left,
            changes: 3,
            value: 6,
            sequence: MOST + count,
            pending: left,
        };
        if !is_answered(scene, Call::Take(fh), Ok(Some(told))) {
            return false;
        }
    }
    is_answered(scene, Call::Take(fh), Err(Errno::ENOENT))
}

fn fills_and_empties(alloc: Global) -> bool {
    let mut scene = Scene::new(alloc);
    if !fills(&mut scene) {
        return false;
    }
    for fh in 0..HANDLES {
        if !empties(&mut scene, fh) {
            return false;
        }
    }
    true
}

#[test]
fn as_many_as_there_can_be(rt: HostRuntime) {
    assert!(rt; fills_and_empties(rt.alloc()));
}
