//! How many validators are asked where the values before the frames are changed: up to the first frame that comes out as it was, or in all of them.

use crate::forecast::planning::plan_of;
use crate::forecast::scene::Scene;
use crate::values::pairs_of;
use ctrl_calls::Work;
use ctrl_types::CtrlValue;
use std::alloc::{AllocError, Global};
use std::test::Fail;

// What frames ask for, the control that gets a value, and how many validators are asked: by a renewal after a set, and by one through all frames. Of the controls, which begin
// at 0, the first two are a cluster that is refused where the second is less.
struct Case {
    frames: &'static [&'static [(u32, i64)]],
    control: u32,
    value: i64,
    renewed: u64,
    rejudged: u64,
}

const CASES: &[Case] = &[
    // no frame waits
    Case {
        frames: &[],
        control: 1,
        value: 5,
        renewed: 0,
        rejudged: 0,
    },
    // the value goes through all frames
    Case {
        frames: &[&[(0, 0)], &[(0, 1)], &[(0, 2)]],
        control: 1,
        value: 5,
        renewed: 3,
        rejudged: 3,
    },
    // the second frame says what both members are
    Case {
        frames: &[&[(0, 0)], &[(0, 2), (1, 3)], &[(0, 1)]],
        control: 1,
        value: 5,
        renewed: 2,
        rejudged: 3,
    },
    // the first does
    Case {
        frames: &[&[(0, 2), (1, 3)], &[(1, 4)], &[(0, 1)]],
        control: 1,
        value: 5,
        renewed: 1,
        rejudged: 3,
    },
    // the first is refused before and after, and leaves another row
    Case {
        frames: &[&[(0, 9)], &[(0, 1), (1, 1)], &[(0, 0)]],
        control: 1,
        value: 5,
        renewed: 2,
        rejudged: 3,
    },
    // a frame that names no member passes the value on, and asks nobody
    Case {
        frames: &[&[(6, 1)], &[(0, 1), (1, 1)], &[(0, 0)]],
        control: 1,
        value: 5,
        renewed: 1,
        rejudged: 2,
    },
    // the value stays as it was
    Case {
        frames: &[&[(0, 0)], &[(0, 0)]],
        control: 1,
        value: 0,
        renewed: 1,
        rejudged: 2,
    },
    // a cluster without a validator
    Case {
        frames: &[&[(6, 1)], &[(0, 1)]],
        control: 6,
        value: 5,
        renewed: 0,
        rejudged: 0,
    },
];

#[test]
fn frames_are_asked_up_to_the_first_that_stays(rt: HostRuntime) -> Result<(), Fail> {
    for case in CASES {
        let counts = counts_of(rt.alloc(), case)?;
        assert!(rt; counts == (case.renewed, case.rejudged), "{counts:?}");
    }
    Ok(())
}

// How many validators are asked where the control gets its value, each way. Where what is kept is not what is computed anew, none that any case has.
fn counts_of(alloc: Global, case: &Case) -> Result<(u64, u64), Fail> {
    let plan = plan_of(alloc)?;
    let mut set = Scene::new(alloc, &plan)?;
    let mut changed = Scene::new(alloc, &plan)?;
    queue(alloc, &mut set, case.frames)?;
    queue(alloc, &mut changed, case.frames)?;
    if set.control_count() != 8 || changed.control_count() != 8 || case.control >= 8 {
        return Err(Fail::new("the controls"));
    }
    let value = CtrlValue::Number(case.value);
    let mut renewed = Work::new();
    let mut rejudged = Work::new();
    set.set(alloc, case.control, value, &mut renewed)?;
    changed.change(case.control, value, 7, false, &mut rejudged);
    if !set.is_twin(alloc)? || !changed.is_twin(alloc)? {
        return Err(Fail::new("another board"));
    }
    Ok((renewed.asked, rejudged.asked))
}

// Has frames wait.
fn queue(alloc: Global, scene: &mut Scene<'_>, frames: &[&[(u32, i64)]]) -> Result<(), AllocError> {
    for frame in frames {
        scene.push(1, pairs_of(alloc, frame)?, &mut Work::new())?;
    }
    Ok(())
}
