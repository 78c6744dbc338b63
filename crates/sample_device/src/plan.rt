ghost use Rattle.std.specs.Prelude.{◌≡◌, IfOk, IfErr, Ok, Some, None};
ghost use Rattle.ctrl_settle.specs.Control.{described, described_array};
ghost use Rattle.ctrl_settle.specs.Faults.{IsWellFormed};
ghost use Rattle.sample_device.specs.Closures.{limit_of, own_sample, pair_calls, told_calls, words_of};
ghost use Rattle.sample_device.specs.Sample.{array_sample, sample, weights as weights_of, whole_sample, sample_before, first_controls as first_controls_of, sample_controls as sample_controls_of, autogain as autogain_of, gain as gain_of, flip as flip_of, hue as hue_of, brightness as brightness_of, power as power_of, button as button_of, balance as balance_of, no_flags};

use crate::driver::{
    BALANCE_LIMIT, BRIGHTNESS_WORDS, BUTTON_WORDS, GAIN_LIMIT, Judge, PAIR_WORDS, Sample, Teller,
};
use bitflags::Flags as FlagSet;
use ctrl_calls::{Calls, Driver, Notifier, Relation, Validator};
use ctrl_handlers::{Plan, PlanBuilder, PlanFault};
use ctrl_settle::{Ctrl, CtrlFault};
use ctrl_types::{CtrlId, Flags, Kind};
use std::alloc::Global;

/// A builder that holds the plan of the sample device before it is finished. The only fault is `Memory` (7); the calls are then let
/// go. Any calls will do, such as none at all; `sample_plan` takes those of the sample's driver alone.
///
/// - `of_gain`: the calls of cluster 0, the auto cluster of autogain and gain.
/// - `of_balance`: those of cluster 1, red and blue.
/// - `of_button`: those of cluster 2, the button.
/// - `of_brightness`: those of cluster 3, brightness.
pub fn sample_builder<D: Driver>(
    alloc: Global,
    of_gain: Calls<D>,
    of_balance: Calls<D>,
    of_button: Calls<D>,
    of_brightness: Calls<D>,
) -> Result<PlanBuilder<D>, PlanFault>
    ensures ok { IfOk result (λ builder. builder ≡ sample of_gain of_balance of_button of_brightness) }
    ensures err { IfErr result (λ fault. fault ≡ PlanFault.Memory) }
{
    let mut builder = sample_menus(alloc)?;
    if let Err((_, fault)) = builder.auto_cluster(&[0, 1], 0, of_gain) {
        return Err(fault);
    }
    if let Err((_, fault)) = builder.cluster(&[8, 9], of_balance) {
        return Err(fault);
    }
    if let Err((_, fault)) = builder.cluster(&[7], of_button) {
        return Err(fault);
    }
    if let Err((_, fault)) = builder.cluster(&[5], of_brightness) {
        return Err(fault);
    }
    Ok(builder)
}

/// A builder that holds the plan of the array device before it is finished: the sample device, and behind the other controls of handler 1 control 10, an array of 4 bytes with
/// id 0x00981000, each 0 to 250 in steps of 10, with the default 0. No cluster is named for it, so it stands alone in cluster 8 of the finished plan. The only fault is
/// `Memory` (7); the calls are then let go. Any calls will do, as of `sample_builder`, whose arguments these are.
pub fn array_builder<D: Driver>(
    alloc: Global,
    of_gain: Calls<D>,
    of_balance: Calls<D>,
    of_button: Calls<D>,
    of_brightness: Calls<D>,
) -> Result<PlanBuilder<D>, PlanFault>
    ensures ok { IfOk result (λ builder. builder ≡ array_sample of_gain of_balance of_button of_brightness) }
    ensures err { IfErr result (λ fault. fault ≡ PlanFault.Memory) }
{
    let mut builder = sample_builder(alloc, of_gain, of_balance, of_button, of_brightness)?;
    let Ok(weights) = weights() else {
        return Err(PlanFault::Memory);
    };
    builder.control(1, weights)?;
    Ok(builder)
}

fn weights() -> Result<Ctrl, CtrlFault>
    ensures { result ≡ Ok weights_of }
{
    Ctrl::new_array(CtrlId(0x0098_1000), 4, 0, 250, 10, 0, Flags::empty(), false)
}

// The handlers and controls of the sample device, with the names of the menu's items.
#[tactic(auto, unfolding(ctrl_settle::specs::Settle::settle))]
fn sample_menus<D: Driver>(alloc: Global) -> Result<PlanBuilder<D>, PlanFault>
    ensures ok { IfOk result (λ builder. builder ≡ sample_before) }
    ensures err { IfErr result (λ fault. fault ≡ PlanFault.Memory) }
{
    let mut builder = sample_controls(alloc)?;
    builder.menu_name(6, 0, "Disabled")?;
    builder.menu_name(6, 1, "50 Hz")?;
    builder.menu_name(6, 2, "60 Hz")?;
    Ok(builder)
}

// The handlers and controls of the sample device.
#[tactic(auto, unfolding(ctrl_handlers::specs::Plan::owning, ctrl_handlers::specs::Plan::adding))]
fn sample_controls<D: Driver>(alloc: Global) -> Result<PlanBuilder<D>, PlanFault>
    ensures ok { IfOk result (λ builder. builder ≡ sample_controls_of) }
    ensures err { IfErr result (λ fault. fault ≡ PlanFault.Memory) }
{
    let mut builder = first_controls(alloc)?;
    let (Ok(brightness), Ok(power), Ok(button)) = (brightness(), power(), button()) else {
        return Err(PlanFault::Memory);
    };
    let (Ok(red), Ok(blue)) = (balance(0x0098_090e), balance(0x0098_090f)) else {
        return Err(PlanFault::Memory);
    };
    builder.control(1, brightness)?;
    builder.control(1, power)?;
    builder.control(1, button)?;
    builder.control(1, red)?;
    builder.control(1, blue)?;
    builder.add_handler(1, 0)?;
    Ok(builder)
}

// The handlers of the sample device, and the controls of the first.
#[tactic(auto, unfolding(ctrl_handlers::specs::Plan::owning))]
fn first_controls<D: Driver>(alloc: Global) -> Result<PlanBuilder<D>, PlanFault>
    ensures ok { IfOk result (λ builder. builder ≡ first_controls_of) }
    ensures err { IfErr result (λ fault. fault ≡ PlanFault.Memory) }
{
    let mut builder = PlanBuilder::new(alloc);
    builder.handler()?;
    builder.handler()?;
    let (Ok(autogain), Ok(gain)) = (autogain(), gain()) else {
        return Err(PlanFault::Memory);
    };
    let (Ok(hflip), Ok(vflip), Ok(hue)) = (flip(0x0098_0914), flip(0x0098_0915), hue()) else {
        return Err(PlanFault::Memory);
    };
    builder.control(0, autogain)?;
    builder.control(0, gain)?;
    builder.control(0, hflip)?;
    builder.control(0, vflip)?;
    builder.control(0, hue)?;
    Ok(builder)
}

fn autogain() -> Result<Ctrl, CtrlFault>
    ensures { result ≡ Ok autogain_of }
{
    plain(0x0098_0912, Kind::Boolean, 0, 1, 1, 1, false)
}

fn gain() -> Result<Ctrl, CtrlFault>
    ensures { result ≡ Ok gain_of }
{
    plain(0x0098_0913, Kind::Integer, 0, 255, 1, 16, false)
}

fn flip(id: u32) -> Result<Ctrl, CtrlFault>
    ensures { result ≡ Ok (flip_of id) }
{
    plain(id, Kind::Boolean, 0, 1, 1, 0, false)
}

fn hue() -> Result<Ctrl, CtrlFault>
    ensures { result ≡ Ok hue_of }
{
    plain(0x0098_0903, Kind::Integer, 0, 10, 3, 0, true)
}

fn brightness() -> Result<Ctrl, CtrlFault>
    ensures { result ≡ Ok brightness_of }
{
    plain(0x0098_0900, Kind::Integer, -64, 64, 4, 0, false)
}

fn power() -> Result<Ctrl, CtrlFault>
    ensures { result ≡ Ok power_of }
{
    Ctrl::new(
        CtrlId(0x0098_0918),
        Kind::Menu,
        0,
        3,
        1,
        1,
        8,
        Flags::empty(),
        false,
    )
}

fn button() -> Result<Ctrl, CtrlFault>
    ensures { result ≡ Ok button_of }
{
    plain(0x0098_090d, Kind::Button, 0, 0, 0, 0, false)
}

fn balance(id: u32) -> Result<Ctrl, CtrlFault>
    ensures { result ≡ Ok (balance_of id) }
{
    plain(id, Kind::Integer, 0, 255, 1, 128, false)
}

// A control with no skipped items, and no flag given.
fn plain(
    id: u32,
    kind: Kind,
    minimum: i64,
    maximum: i64,
    step: u64,
    default_value: i64,
    is_private: bool,
) -> Result<Ctrl, CtrlFault>
    requires { IsWellFormed (described (record { 0 = id }) kind minimum maximum step default_value 0 no_flags is_private) }
    ensures { result ≡ Ok (described (record { 0 = id }) kind minimum maximum step default_value 0 no_flags is_private) }
{
    Ctrl::new(
        CtrlId(id),
        kind,
        minimum,
        maximum,
        step,
        default_value,
        0,
        Flags::empty(),
        is_private,
    )
}

/// The plan of the sample device: 10 controls on 2 handlers, in 8 clusters. The only fault is `Memory` (7); the calls are then let
/// go. The caller owes that the closures of each cluster are there and answer by its relations.
///
/// - `of_gain`: the calls of cluster 0, the auto cluster of autogain and gain: `GAIN_LIMIT` and `PAIR_WORDS`.
/// - `of_balance`: those of cluster 1, red and blue: `BALANCE_LIMIT` and `PAIR_WORDS`.
/// - `of_button`: those of cluster 2, the button: no validator, and `BUTTON_WORDS`.
/// - `of_brightness`: those of cluster 3, brightness: no validator, and `BRIGHTNESS_WORDS`.
#[tactic(auto, using(crate::proofs::PlanLemmas::finished_sample))]
pub fn sample_plan<D: Driver>(
    alloc: Global,
    of_gain: Calls<D>,
    of_balance: Calls<D>,
    of_button: Calls<D>,
    of_brightness: Calls<D>,
) -> Result<Plan<D>, PlanFault>
    requires gain { of_gain ≡ record { validator = Some GAIN_LIMIT; notifier = Some PAIR_WORDS } }
    requires balance { of_balance ≡ record { validator = Some BALANCE_LIMIT; notifier = Some PAIR_WORDS } }
    requires button { of_button ≡ record { validator = None; notifier = Some BUTTON_WORDS } }
    requires brightness { of_brightness ≡ record { validator = None; notifier = Some BRIGHTNESS_WORDS } }
    ensures ok { IfOk result (λ plan. plan ≡ whole_sample of_gain of_balance of_button of_brightness) }
    ensures err { IfErr result (λ fault. fault ≡ PlanFault.Memory) }
{
    match sample_builder(alloc, of_gain, of_balance, of_button, of_brightness)?.finish() {
        Ok(plan) => Ok(plan),
        Err((_, fault)) => Err(fault),
    }
}

/// The plan of the sample device with the closures of its own driver (of this project), as `sample_plan` makes it of their calls. The only fault is `Memory`
/// (7).
pub fn own_sample_plan(alloc: Global) -> Result<Plan<Sample>, PlanFault>
    ensures ok { IfOk result (λ plan. plan ≡ own_sample) }
    ensures err { IfErr result (λ fault. fault ≡ PlanFault.Memory) }
{
    sample_plan(
        alloc,
        pair_calls(GAIN_LIMIT, Judge::OfGain),
        pair_calls(BALANCE_LIMIT, Judge::OfBalance),
        told_calls(BUTTON_WORDS, Teller::OfButton),
        told_calls(BRIGHTNESS_WORDS, Teller::OfBrightness),
    )
}

// The calls of a pair of controls, whose validator answers by this relation.
fn pair_calls(limit: Relation, judge: Judge) -> Calls<Sample>
    requires { limit_of judge ≡ limit }
    ensures { result ≡ pair_calls limit }
{
    Calls {
        validator: Some(Validator::new(limit, judge)),
        notifier: Some(Notifier::new(PAIR_WORDS, Teller::OfPair)),
    }
}

// The calls of a control without a validator, whose notifier answers by this relation.
fn told_calls(words: Relation, teller: Teller) -> Calls<Sample>
    requires { words_of teller ≡ words }
    ensures { result ≡ told_calls words }
{
    Calls {
        validator: None,
        notifier: Some(Notifier::new(words, teller)),
    }
}
