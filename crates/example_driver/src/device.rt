//! The camera: two handlers, seven controls and two clusters with closures.

ghost use Rattle.std.specs.Prelude.{◌≡◌, None, Some};

use crate::driver::{BLUE_LIMIT, EXPOSURE_WORDS};
use anyhow::{Context, Result};
use bitflags::Flags as FlagSet;
use ctrl_calls::{Calls, Driver};
use ctrl_handlers::{Plan, PlanBuilder, PlanFault};
use ctrl_settle::CtrlConfig;
use ctrl_types::{CtrlId, Flags, Kind};
use std::alloc::Global;

/// How the exposure is found: 0 by the camera, 1 by time and gain.
pub const MODE: CtrlId = CtrlId(0x009a_0901);
/// The time of exposure, in units of 100 us.
pub const TIME: CtrlId = CtrlId(0x009a_0902);
/// The gain of the sensor.
pub const GAIN: CtrlId = CtrlId(0x0098_0913);
/// Whether the picture is mirrored.
pub const HFLIP: CtrlId = CtrlId(0x0098_0914);
/// Which lamps are lit, for tests of the sensor.
pub const LAMPS: CtrlId = CtrlId(0x0098_1900);
/// The share of red.
pub const RED: CtrlId = CtrlId(0x0098_090e);
/// The share of blue.
pub const BLUE: CtrlId = CtrlId(0x0098_090f);

/// The plan of the camera. Handler 0 is the sensor's, handler 1 the video node's, which shows the sensor's controls too, but for the
/// lamps. The caller owes that each cluster gets the calls that are its own.
///
/// - `of_exposure`: the calls of cluster 0, the auto cluster of mode, time and gain: no validator, and a notifier by `EXPOSURE_WORDS`.
/// - `of_balance`: those of cluster 1, red and blue: a validator by `BLUE_LIMIT`, and no notifier.
pub fn camera_plan<D: Driver>(
    alloc: Global,
    of_exposure: Calls<D>,
    of_balance: Calls<D>,
) -> Result<Plan<D>>
    requires exposure { of_exposure ≡ record { validator = None; notifier = Some EXPOSURE_WORDS } }
    requires balance { of_balance ≡ record { validator = Some BLUE_LIMIT; notifier = None } }
{
    let mut builder = PlanBuilder::new(alloc);
    let sensor = builder.handler()?;
    let video = builder.handler()?;
    builder.add_handler(video, sensor)?;
    // in this order: clusters have their numbers by it
    add_sensor(&mut builder, sensor, of_exposure)?;
    add_video(&mut builder, video, of_balance)?;
    or_fault(builder.finish())
}

// Adds the sensor's controls, and makes mode, time and gain an auto cluster, which is manual where the mode is 1. A fault names its control.
fn add_sensor<D: Driver>(builder: &mut PlanBuilder<D>, sensor: u32, calls: Calls<D>) -> Result<()>
    requires { calls ≡ record { validator = None; notifier = Some EXPOSURE_WORDS } }
{
    let mode = add(builder, sensor, config(MODE, Kind::Menu, 0, 1, 0)).context("mode")?;
    let time = add(builder, sensor, config(TIME, Kind::Integer, 1, 65535, 312)).context("time")?;
    let gain = add(builder, sensor, config(GAIN, Kind::Integer, 0, 255, 16)).context("gain")?;
    add(builder, sensor, config(HFLIP, Kind::Boolean, 0, 1, 0)).context("hflip")?;
    add(builder, sensor, lamps()).context("lamps")?;
    builder.menu_name(mode, 0, "Auto")?;
    builder.menu_name(mode, 1, "Manual")?;
    or_fault(builder.auto_cluster(&[mode, time, gain], 1, calls))?;
    Ok(())
}

// Adds the video node's controls, red and blue, and makes them a cluster.
fn add_video<D: Driver>(builder: &mut PlanBuilder<D>, video: u32, calls: Calls<D>) -> Result<()>
    requires { calls ≡ record { validator = Some BLUE_LIMIT; notifier = None } }
{
    let red = add(builder, video, config(RED, Kind::Integer, 0, 255, 128)).context("red")?;
    let blue = add(builder, video, config(BLUE, Kind::Integer, 0, 255, 128)).context("blue")?;
    or_fault(builder.cluster(&[red, blue], calls))?;
    Ok(())
}

// Makes a control as it is described, and adds it to a handler; its number.
fn add<D: Driver>(
    builder: &mut PlanBuilder<D>,
    handler: u32,
    described: CtrlConfig,
) -> Result<u32> {
    let ctrl = described.build()?;
    Ok(builder.control(handler, ctrl)?)
}

// What a call answered. A refusal hands back what the call took, a value that can be let go (`Drop`), and here it is.
fn or_fault<T, B: Drop>(answer: Result<T, (B, PlanFault)>) -> Result<T> {
    match answer {
        Ok(it) => Ok(it),
        Err((_, fault)) => Err(fault.into()),
    }
}

// A control whose values lie in steps of 1, without flags, and shown by handlers that add its own.
fn config(id: CtrlId, kind: Kind, minimum: i64, maximum: i64, default_value: i64) -> CtrlConfig {
    CtrlConfig {
        id,
        kind,
        minimum,
        maximum,
        step: 1,
        default_value,
        skip: 0,
        flags: Flags::empty(),
        is_private: false,
        elems: None,
    }
}

// Two lamps, bits 0 and 2. The video node doesn't show them.
fn lamps() -> CtrlConfig {
    CtrlConfig {
        step: 0,
        is_private: true,
        ..config(LAMPS, Kind::Bitmask, 0, 0x5, 0)
    }
}
