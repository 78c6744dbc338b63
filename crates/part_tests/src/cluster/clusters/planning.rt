// Plans of one handler, as data.
use crate::cluster::driver::{Judge, Says, Strict, relation};
use bitflags::Flags as FlagSet;
use ctrl_calls::{Calls, Notifier, Validator};
use ctrl_handlers::{DefaultSource, Follower, Plan, PlanBuilder, Source};
use ctrl_settle::Ctrl;
use ctrl_types::{CtrlId, Flags, Kind};
use std::alloc::Global;
use std::sync::Arc;
use std::sync::atomic::AtomicU64;
use std::test::Fail;

/// Controls that a plan has.
#[derive(Clone, Copy)]
pub enum Made {
    // a number of 0 to 255
    Byte,
    Button,
    // a number of 0 to 255 that acts on each write
    Acting,
    // an array of 2 bytes, each 0, 10, .. 250
    Array,
    // a number of 0 to 255 whose maximum follows a control, with a number that is added
    Following(u32, i64),
}

/// Clusters that it has.
#[derive(Clone, Copy)]
pub enum Named {
    Plain(&'static [u32]),
    // with a validator of this relation
    Judged(&'static [u32], u32),
    Auto(&'static [u32], i64),
    // with a notifier
    Heard(&'static [u32]),
}

fn control(id: u32, made: Made) -> Result<Ctrl, Fail> {
    let none = Flags::empty();
    if let Made::Array = made {
        return match Ctrl::new_array(CtrlId(id), 2, 0, 250, 10, 0, none, false) {
            Ok(ctrl) => Ok(ctrl),
            Err(_) => Err(Fail::new("an array")),
        };
    }
    let (kind, maximum, step, flags) = match made {
        Made::Byte | Made::Following(_, _) => (Kind::Integer, 255, 1, none),
        Made::Button | Made::Array => (Kind::Button, 0, 0, none),
        Made::Acting => (Kind::Integer, 255, 1, Flags::EXECUTE_ON_WRITE),
    };
    match Ctrl::new(CtrlId(id), kind, 0, maximum, step, 0, 0, flags, false) {
        Ok(ctrl) => Ok(ctrl),
        Err(_) => Err(Fail::new("a control")),
    }
}

fn name(
    builder: &mut PlanBuilder<Strict>,
    named: Named,
    notifier: Option<Notifier<Strict>>,
) -> Result<(), Fail> {
    let mut calls = Calls {
        validator: None,
        notifier,
    };
    let answer = match named {
        Named::Plain(members) | Named::Heard(members) => builder.cluster(members, calls),
        Named::Auto(members, manual) => builder.auto_cluster(members, manual, calls),
        Named::Judged(members, number) => {
            let relation = relation(number);
            calls.validator = Some(Validator::new(relation, Judge { number }));
            builder.cluster(members, calls)
        }
    };
    match answer {
        Ok(_) => Ok(()),
        Err(_) => Err(Fail::new("a cluster")),
    }
}

// A notifier of its own for a cluster that has one; its calls are counted by the last of `heard`.
fn notifier(
    alloc: Global,
    named: Named,
    all: &Arc<AtomicU64>,
    heard: &mut Vec<Arc<AtomicU64>>,
) -> Result<Option<Notifier<Strict>>, Fail> {
    match named {
        Named::Heard(_) => {
            let own = Arc::new(alloc, AtomicU64::new(0))?;
            heard.push(own.clone()?)?;
            let all = all.clone()?;
            Ok(Some(Notifier::new(relation(0), Says { own, all })))
        }
        Named::Plain(_) | Named::Judged(_, _) | Named::Auto(_, _) => Ok(None),
    }
}

/// A plan of one handler with these controls and clusters.
pub fn plan_of(
    alloc: Global,
    made: &[Made],
    named: &[Named],
    heard: &mut Vec<Arc<AtomicU64>>,
) -> Result<Plan<Strict>, Fail> {
    let all = Arc::new(alloc, AtomicU64::new(0))?;
    let mut builder = PlanBuilder::new(alloc);
    let handler = builder.handler()?;
    let mut id: u32 = 0;
    for &made in made {
        let number = builder.control(handler, control(id, made)?)?;
        id = id.wrapping_add(1);
        if let Made::Following(followed, plus) = made {
            builder.follow(&Follower {
                control: number,
                minimum: None,
                maximum: Some(Source {
                    control: followed,
                    plus,
                }),
                default_value: DefaultSource::Number(0),
            })?;
        }
    }
    for named in named {
        let notifier = notifier(alloc, *named, &all, heard)?;
        name(&mut builder, *named, notifier)?;
    }
    match builder.finish() {
        Ok(plan) => Ok(plan),
        Err(_) => Err(Fail::new("the plan")),
    }
}
