//! Turns that are drawn from a seed.

use crate::forecast::dice::Dice;
use crate::forecast::planning::plan_of;
use crate::forecast::scene::Scene;
use ctrl_calls::Work;
use std::alloc::{AllocError, Global};
use std::test::Fail;

const TURNS: u32 = 400;

// How many kinds of turns are drawn, and the first, which has a frame come.
const KINDS: u32 = 12;

const PUSH: u32 = 0;

// The seed of a run, how many of the controls its frames may name, how many frames wait at most, and how many at least: where fewer do, frames come until the most wait.
#[derive(Drop)]
struct Run {
    seed: u64,
    named: u32,
    most: u32,
    least: usize,
}

// Makes a change of a kind, and draws the rest. The answer is whether there are controls, and no more validators were asked than may be.
fn turn(
    alloc: Global,
    scene: &mut Scene<'_>,
    dice: &mut Dice,
    run: &Run,
    kind: u32,
) -> Result<bool, AllocError> {
    let controls = scene.control_count();
    if controls == 0 || run.named == 0 || run.most == 0 {
        return Ok(false);
    }
    let mut work = Work::new();
    let mut bound = 0;
    match kind {
        0..=4 if scene.len() < run.most as usize => {
            let number = dice.roll(1000);
            let asked = dice.pairs(alloc, run.named)?;
            bound = scene.push(number, asked, &mut work)?;
        }
        5 => scene.begin(),
        6 | 7 => bound = scene.remove(dice.roll(run.most), &mut work),
        8 if dice.roll(4) == 0 => scene.clear(),
        9 => {
            let control = dice.roll(controls);
            let maximum = i64::from(dice.roll(11));
            bound = scene.narrow(control, maximum, &mut work);
        }
        10 => {
            let control = dice.roll(controls);
            let value = dice.value();
            bound = scene.set(alloc, control, value, &mut work)?;
        }
        _ => {
            let control = dice.roll(controls);
            let value = dice.value();
            let other = dice.roll(controls);
            let is_grabbed = dice.roll(3) == 0;
            bound = scene.change(control, value, other, is_grabbed, &mut work);
        }
    }
    Ok(work.asked <= bound)
}

// Has frames come until the most wait, where too few do. The answer is whether each leaves the board as it is computed anew.
fn fill(
    alloc: Global,
    scene: &mut Scene<'_>,
    dice: &mut Dice,
    run: &Run,
) -> Result<bool, AllocError> {
    if scene.len() >= run.least {
        return Ok(true);
    }
    for _ in scene.len()..run.most as usize {
        if !turn(alloc, scene, dice, run, PUSH)? || !scene.is_twin(alloc)? {
            return Ok(false);
        }
    }
    Ok(true)
}

// Whether the turns of a run each leave the board as it is computed anew.
fn is_kept(alloc: Global, run: &Run) -> Result<bool, Fail> {
    let plan = plan_of(alloc)?;
    let mut scene = Scene::new(alloc, &plan)?;
    let mut dice = Dice(run.seed);
    for _ in 0..TURNS {
        if !fill(alloc, &mut scene, &mut dice, run)? {
            return Ok(false);
        }
        let kind = dice.roll(KINDS);
        if !turn(alloc, &mut scene, &mut dice, run, kind)? || !scene.is_twin(alloc)? {
            return Ok(false);
        }
    }
    Ok(true)
}

// Those of the last two have 64 frames. The frames of the last name the first three controls alone: so a set of another goes through all of them, and
// where it is the sixth, which stands in a cluster with the third, those that name the third are judged anew.
const RUNS: &[Run] = &[
    Run {
        seed: 1,
        named: 8,
        most: 6,
        least: 0,
    },
    Run {
        seed: 20,
        named: 8,
        most: 6,
        least: 0,
    },
    Run {
        seed: 300,
        named: 8,
        most: 6,
        least: 0,
    },
    Run {
        seed: 4000,
        named: 8,
        most: 6,
        least: 0,
    },
    Run {
        seed: 50_000,
        named: 8,
        most: 64,
        least: 60,
    },
    Run {
        seed: 600_000,
        named: 3,
        most: 64,
        least: 60,
    },
];

#[test]
fn kept_rows_are_those_computed_anew(rt: HostRuntime) -> Result<(), Fail> {
    for run in RUNS {
        let is_kept = is_kept(rt.alloc(), run)?;
        let seed = run.seed;
        assert!(rt; is_kept, "{seed}");
    }
    Ok(())
}
