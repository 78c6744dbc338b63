//! Rows of values, and closures that are called with them.

ghost use Rattle.std.specs.Prelude.{◌≡◌, length};
ghost use Rattle.ctrl_calls.specs.Meanings.{JudgesBy, TellsBy};
ghost use Rattle.ctrl_calls.specs.declared.verdict.Verdict.TheVariants.{Accept};

use crate::values::{are_numbers, is_row, row_of, values_of};
use ctrl_calls::{
    Calls, ClusterRow, Driver, Notifier, Notifies, Relation, Relations, RowValues, Validates,
    Validator, Verdict, Work, ask, tell,
};
use ctrl_types::{ByteRow, CtrlValue};
use std::alloc::Global;
use std::sync::Arc;
use std::sync::atomic::{AtomicU64, Ordering};
use std::test::Fail;

// Each relation accepts every row; the word told is the length of the row.
enum Boxed {}

impl Validates for Boxed {
    type Judge = Box<dyn Fn(ClusterRow) -> Verdict + Send>;

    ghost verdict = { λ relation row. Accept row };
}

impl Notifies for Boxed {
    type Teller = Box<dyn Fn(ClusterRow) -> u64 + Send>;

    ghost told = { λ relation row word. word ≡ length row };
}

const ACCEPTS: Relation = Relation {
    number: 0,
    bounds: [0; 4],
};

// How often a row is asked and told, with what was counted before and what is counted then.
const COUNTS: &[(u64, Work, Work)] = &[
    (3, Work { asked: 0, told: 0 }, Work { asked: 3, told: 3 }),
    (
        2,
        Work {
            asked: u64::MAX - 1,
            told: u64::MAX - 1,
        },
        Work {
            asked: u64::MAX,
            told: u64::MAX,
        },
    ),
];

// Numbers with arrays behind them, and whether they are a row inside.
const INSIDE: &[(&[i64], &[&[u8]], bool)] = &[
    (&[], &[], true),
    (&[i64::MIN], &[], true),
    (&[i64::MIN, -1, 0], &[], true),
    (&[i64::MIN, -1, 0, 1, i64::MAX, 5, 6, 7], &[], true),
    (&[i64::MIN, -1, 0, 1, i64::MAX, 5, 6, 7, 8], &[], false),
    (&[], &[&[]], true),
    (&[], &[&[0, 255]], true),
    (&[], &[&[7; 32]], true),
    // an array is alone
    (&[3], &[&[7]], false),
    (&[], &[&[7], &[8]], false),
    (&[1, 2, 3, 4, 5, 6, 7], &[&[8]], false),
];

// A value that none of these has.
const OTHER: CtrlValue = CtrlValue::Number(4);

fn array(bytes: &[u8]) -> Result<CtrlValue, Fail> {
    match ByteRow::from_slice(bytes) {
        Some(row) => Ok(CtrlValue::Bytes(row)),
        None => Err(Fail::new("at most 32 bytes")),
    }
}

// Whether the value at each place is this one, and no other.
fn has_each(row: &RowValues, values: &[CtrlValue]) -> bool {
    for (place, value) in values.iter().enumerate() {
        if place >= row.len()
            || row.value(place) != *value
            || !row.has(place, value)
            || row.has(place, &OTHER)
        {
            return false;
        }
    }
    row.len() == values.len()
}

fn is_inside(alloc: Global, numbers: &[i64], arrays: &[&[u8]], fits: bool) -> Result<bool, Fail> {
    let mut values = values_of(alloc, numbers)?;
    for bytes in arrays {
        values.push(array(bytes)?)?;
    }
    Ok(match RowValues::from_slice(values.as_slice()) {
        Some(row) => {
            let is_like = row.is_like(values.as_slice());
            values.push(OTHER)?;
            fits && is_like
                && !row.is_like(values.as_slice())
                && {
                    values.truncate(row.len());
                    has_each(&row, values.as_slice())
                        && row.to_cluster_row().values() == values.as_slice()
                }
        }
        None => !fits,
    })
}

#[test]
fn rows_inside_are_numbers_or_one_array(rt: HostRuntime) -> Result<(), Fail> {
    for (numbers, arrays, fits) in INSIDE {
        let is_inside = is_inside(rt.alloc(), numbers, arrays, *fits)?;
        assert!(rt; is_inside, "{numbers:?} {arrays:?}");
    }
    Ok(())
}

// A row with another value at one place, and a row of one that takes an array in place of a number, and a number in place of that.
#[test]
fn values_that_are_written(rt: HostRuntime) -> Result<(), Fail> {
    let mut row = ClusterRow::zeros(3);
    let other = row.with(2, CtrlValue::Number(-9));
    row.set(1, CtrlValue::Number(7));
    let is_set = row.len() == 3 && row.value(1) == CtrlValue::Number(7);
    assert!(rt; is_set && are_numbers(other.values(), &[0, 0, -9]));
    let bytes = array(&[9, 8])?;
    let mut inside = RowValues::zeros(1);
    inside.set(0, bytes);
    assert!(rt; inside.has(0, &bytes) && inside.value(0) == bytes);
    inside.set(0, CtrlValue::Number(-7));
    assert!(rt; is_row(&inside, &[-7]));
    Ok(())
}

// Asks and tells of the row this many times, and answers the work; none where an answer is another than these.
fn call<D: Driver>(
    calls: &Calls<D>,
    row: &RowValues,
    want: &Verdict,
    times: u64,
    start: Work,
) -> Option<Work> {
    let mut work = start;
    for _ in 0..times {
        if let Some(validator) = &calls.validator {
            if ask(validator, row, &mut work) != *want {
                return None;
            }
        }
        if let Some(notifier) = &calls.notifier {
            if tell(notifier, row.to_cluster_row(), &mut work) != 2 {
                return None;
            }
        }
    }
    Some(work)
}

// Keeps the two closures of a driver, calls each five times on the row, and says whether they answer as they should.
fn drives<D: Driver>(
    relation: Relation,
    judge: D::Judge,
    teller: D::Teller,
    row: &RowValues,
    want: &Verdict,
) -> bool
    requires judge_callable { D.Judge.callable judge }
    requires judges { JudgesBy (D.Judge.answers judge) (D.verdict relation) }
    requires teller_callable { D.Teller.callable teller }
    requires tells { TellsBy (D.Teller.answers teller) (D.told relation) }
{
    let validator = Validator::new(relation, judge);
    let notifier = Notifier::new(relation, teller);
    let are_kept = validator.relation() == relation && notifier.relation() == relation;
    let calls: Calls<D> = Calls {
        validator: Some(validator),
        notifier: Some(notifier),
    };
    let relations = Relations {
        validator: Some(relation),
        notifier: Some(relation),
    };
    for (times, start, end) in COUNTS {
        if call(&calls, row, want, *times, *start) != Some(*end) {
            return false;
        }
    }
    are_kept && calls.relations() == relations
}

#[test]
fn boxes_are_called_as_often_as_counted(rt: HostRuntime) -> Result<(), Fail> {
    let row = row_of(&[3, -4]).ok_or("two")?;
    let asked = Arc::new(rt.alloc(), AtomicU64::new(0))?;
    let told = Arc::new(rt.alloc(), AtomicU64::new(0))?;
    let asked_too = asked.clone()?;
    let told_too = told.clone()?;
    let judge: Box<dyn Fn(ClusterRow) -> Verdict + Send> = Box::new(
        rt.alloc(),
        move |row: ClusterRow| {
            asked_too.fetch_add(1, Ordering::SeqCst);
            Verdict::Accept(row)
        },
    )?;
    let teller: Box<dyn Fn(ClusterRow) -> u64 + Send> = Box::new(
        rt.alloc(),
        move |row: ClusterRow| {
            told_too.fetch_add(1, Ordering::SeqCst);
            row.len() as u64
        },
    )?;
    let want = Verdict::Accept(row.to_cluster_row());
    let answers = drives::<Boxed>(ACCEPTS, judge, teller, &row, &want);
    let (asked, told) = (asked.load(Ordering::SeqCst), told.load(Ordering::SeqCst));
    assert!(rt; answers && asked == 5 && told == 5, "{asked} {told}");
    Ok(())
}
