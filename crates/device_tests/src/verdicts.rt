//! Validators that answer what clusters can't take, asked through sets, stores and forecasts of a device.

ghost use Rattle.std.specs.Prelude.{⊤, ◌≡◌, ◌≤◌, ◌==◌, pos, int_lt, ◌∷◌, [], length, if◌then◌else◌};
ghost use Rattle.ctrl_calls.specs.declared.verdict.Verdict.TheVariants.{Accept, Refuse};
ghost use Rattle.ctrl_types.specs.declared.value.CtrlValue.TheVariants.{Number};
ghost use Rattle.ctrl_types.specs.declared.errno.Errno.TheVariants.{ENOENT, ENOMEM, ERANGE};
ghost use Rattle.data_driver.specs.Limits.{sum_of_values};

use crate::scene::parts;
use bitflags::Flags as FlagSet;
use ctl_script::{Outcome, run_script};
use ctrl_calls::{
    Calls, ClusterRow, Judging, Notifies, Relation, Telling, Validates, Validator, Verdict,
};
use ctrl_handlers::{Plan, PlanBuilder};
use ctrl_settle::Ctrl;
use ctrl_types::{CtrlId, CtrlValue, Errno, Flags, Kind};
use data_driver::Limit;
use device_state::Device;
use script_lines::ControlWords;
use std::alloc::Global;

/// Relation 0 takes a row of three where the values are more than 13 together, and else the row as it is; 1 takes 300 in place of each row; 2, 3 and every other refuse with ENOMEM,
/// ENOENT and ERANGE.
enum Odd {}

#[derive(Drop)]
struct Judge {
    number: u32,
}

impl Judging for Judge {
    ghost callable = { λ _. ⊤ };

    ghost answers = { λ judge row verdict. verdict ≡ (
        if judge.number == 0 then (if int_lt (pos 13) (sum_of_values row) then Accept (Number (pos 7) ∷ Number (pos 7) ∷ Number (pos 0) ∷ []) else Accept row)
        else if judge.number == 1 then Accept (Number (pos 300) ∷ [])
        else if judge.number == 2 then Refuse ENOMEM
        else if judge.number == 3 then Refuse ENOENT
        else Refuse ERANGE) };

    fn judge(&self, row: ClusterRow) -> Verdict {
        match self.number {
            0 => one_too_many(row),
            1 => accept(&[CtrlValue::Number(300)]),
            2 => Verdict::Refuse(Errno::ENOMEM),
            3 => Verdict::Refuse(Errno::ENOENT),
            _ => Verdict::Refuse(Errno::ERANGE),
        }
    }
}

// A row of three where the values are more than 13 together, and else the row.
fn one_too_many(row: ClusterRow) -> Verdict
    ensures { result ≡ (if int_lt (pos 13) (sum_of_values row) then Accept (Number (pos 7) ∷ Number (pos 7) ∷ Number (pos 0) ∷ []) else Accept row) }
{
    let few = Limit::Sum { most: 13 };
    match few.verdict(&row) {
        Verdict::Accept(row) => Verdict::Accept(row),
        Verdict::Refuse(_) => accept(&[
            CtrlValue::Number(7),
            CtrlValue::Number(7),
            CtrlValue::Number(0),
        ]),
    }
}

// The row of at most eight values is taken.
fn accept(values: &[CtrlValue]) -> Verdict
    requires { length values.now ≤ 8 }
    ensures { result ≡ Accept values.now }
{
    Verdict::Accept(ClusterRow::from_slice(values).unwrap())
}

#[derive(Drop)]
struct Says {}

impl Telling for Says {
    ghost callable = { λ _. ⊤ };

    ghost answers = { λ _ _ _. ⊤ };

    fn tell(&self, _row: ClusterRow) -> u64 {
        0
    }
}

impl Validates for Odd {
    type Judge = Judge;

    ghost verdict = { λ relation row.
        if relation.number == 0 then (if int_lt (pos 13) (sum_of_values row) then Accept (Number (pos 7) ∷ Number (pos 7) ∷ Number (pos 0) ∷ []) else Accept row)
        else if relation.number == 1 then Accept (Number (pos 300) ∷ [])
        else if relation.number == 2 then Refuse ENOMEM
        else if relation.number == 3 then Refuse ENOENT
        else Refuse ERANGE };
}

impl Notifies for Odd {
    type Teller = Says;

    ghost told = { λ _ _ _. ⊤ };
}

// The controls of the handler: the word of each, which names it by its id, and the most that it can be. The first two are a cluster.
const CONTROLS: [(&str, i64); 6] = [
    ("one", 7),
    ("other", 7),
    ("gain", 255),
    ("unkept", 7),
    ("unknown", 7),
    ("outside", 7),
];

// A set, a store and a forecast, of each cluster. A refused set changes nothing.
const SCRIPT: &str = "\
open f 0 -> ok
set f cur one=7 other=7 -> error 22 index 2
try f cur one=7 other=7 -> error 22 index 0
get f cur one other -> ok 0 0
set f cur one=6 other=7 -> ok 6 7
set f cur one=7 -> error 22 index 1
set f cur one=0 other=0 -> ok 0 0
alloc r1 -> ok
alloc r2 -> ok
set f req:r1 one=7 -> ok 7
set f req:r2 other=7 -> ok 7
buffer r1 1 -> ok
buffer r2 2 -> ok
queue r1 -> ok
queue r2 -> ok
row 0 -> frame 0 buffer 1 refused - values 7 0 0 0 0 0
row 1 -> frame 1 buffer 2 refused 0 values 7 0 0 0 0 0
begin -> ok buffer 1 refused -
complete -> ok
begin -> ok buffer 2 refused 0
complete -> ok
get f req:r2 one other -> ok 7 0
set f cur gain=5 -> error 22 index 1
set f cur unkept=5 -> error 22 index 1
set f cur unknown=5 -> error 22 index 1
set f cur outside=5 -> error 34 index 1
set f cur one=1 outside=5 gain=5 -> error 34 index 3
try f cur one=1 outside=5 gain=5 -> error 34 index 1
get f cur one other gain unkept unknown outside -> ok 7 0 0 0 0 0
audit -> audit equal 15
";

fn validated(number: u32) -> Calls<Odd> {
    let relation = Relation {
        number,
        bounds: [0; 4],
    };
    Calls {
        validator: Some(Validator::new(relation, Judge { number })),
        notifier: None,
    }
}

// There is no plan where a growth or another call of the builder was refused.
fn plan(alloc: Global) -> Option<Plan<Odd>> {
    let mut builder = PlanBuilder::new(alloc);
    builder.handler().ok()?;
    for (number, (_, most)) in CONTROLS.iter().enumerate() {
        builder.control(0, ctrl(number as u32, *most)?).ok()?;
    }
    let clusters: [&[u32]; 5] = [&[0, 1], &[2], &[3], &[4], &[5]];
    for (number, members) in clusters.iter().enumerate() {
        builder.cluster(*members, validated(number as u32)).ok()?;
    }
    builder.finish().ok()
}

fn ctrl(id: u32, most: i64) -> Option<Ctrl> {
    let flags = Flags::from_bits_retain(0);
    Ctrl::new(CtrlId(id), Kind::Integer, 0, most, 1, 0, 0, flags, false).ok()
}

fn words(alloc: Global) -> Option<ControlWords> {
    let mut words = ControlWords::new(alloc);
    for (number, (word, _)) in CONTROLS.iter().enumerate() {
        let number = number as u32;
        words
            .push(alloc, word.as_bytes(), CtrlId(number), number)
            .ok()?;
    }
    Some(words)
}

// What the script prints, and what it is to print.
fn answered(alloc: Global) -> Option<(Vec<u8>, Vec<u8>)> {
    let (commands, replies) = parts(alloc, SCRIPT).ok()?;
    let device = Device::new(alloc, plan(alloc)?).ok()?;
    let mut reader = commands.as_slice();
    let mut printed = Vec::new(alloc);
    let (_device, outcome) = run_script(alloc, &words(alloc)?, device, &mut reader, &mut printed);
    match outcome {
        Outcome::Finished => Some((printed, replies)),
        _ => None,
    }
}

#[test]
fn verdicts_that_clusters_can_not_take(rt: HostRuntime) {
    let answered = answered(rt.alloc());
    assert!(rt;
        matches!(&answered, Some((printed, replies)) if printed == replies),
        "{answered:?}"
    );
}
