ghost use Rattle.std.specs.Prelude.{◌≡◌, ◌↔◌, IsOk, IfOk, IfErr};
ghost use Rattle.ctrl_settle.specs.Control.{default_of, described, described_array, elems_of, flags_of, is_array, with_range};
ghost use Rattle.ctrl_settle.specs.Faults.{IsFirstFault, IsWellFormed};
ghost use Rattle.ctrl_settle.specs.Settle.{settle, settle_check, settle_value, settled_anew};

use crate::config::CtrlConfig;
use crate::fault::CtrlFault;
use bitflags::Flags as FlagSet;
use ctrl_types::{Check, CtrlId, CtrlValue, Errno, Flags, Kind};
use std::marker::Model;

/// A control with which nothing is wrong (Linux userspace API, "struct v4l2_query_ext_ctrl").
#[derive(Clone, Copy, Debug, PartialEq, Eq)]
pub struct Ctrl {
    description: CtrlConfig,
}

impl Model for Ctrl {
    ghost use Rattle.ctrl_settle.specs.Control.{Control};
    ghost use Rattle.ctrl_settle.specs.Faults.{IsWellFormed};

    ghost Value = { Control };

    ghost view = { λ c. c.description };

    ghost invariant = { λ c. IsWellFormed c.description };

    ghost inverse = { λ c. record { description = c } };
}

impl Ctrl {
    /// Makes a control of a driver's description (Linux driver API, "V4L2 Controls", "Custom Controls").
    ///
    /// - `id`: the number by which userspace asks for it; any.
    /// - `kind`: what values it takes; an array of bytes (`U8`) is made by `new_array`.
    /// - `minimum`, `maximum`: the least and the greatest value; of a `Bitmask` 0 and the mask.
    /// - `step`: how far the values of a number lie apart, 1 or more; 1 for a `Boolean` and the menus, 0 for a `Button`
    ///   and a `Bitmask`.
    /// - `default_value`: the value at the start, one that the control takes as it is.
    /// - `skip`: bit i leaves out item i of a menu; 0 for other kinds.
    /// - `flags`: what holds of it, kept as given; a `Button` has WRITE_ONLY and EXECUTE_ON_WRITE besides.
    /// - `is_private`: handlers that add this control's handler don't show it.
    ///
    /// Refused by the checks 35, `BadRange` (1), 36, `ZeroStep` (2), 37, `KindBounds` (4), and 38, `BadDefault` (3), of docs/RULES.md, in this order
    /// (of this project); nothing is made then. What is of each kind stands there, too.
    pub fn new(
        id: CtrlId,
        kind: Kind,
        minimum: i64,
        maximum: i64,
        step: u64,
        default_value: i64,
        skip: u64,
        flags: Flags,
        is_private: bool,
    ) -> Result<Ctrl, CtrlFault>
        ensures ok { IsOk result ↔ IsWellFormed
            (described id kind minimum maximum step default_value skip flags is_private) }
        ensures value { IfOk result (λ c. c ≡
            described id kind minimum maximum step default_value skip flags is_private) }
        ensures fault { IfErr result (IsFirstFault
            (described id kind minimum maximum step default_value skip flags is_private)) }
    {
        Ctrl::made(CtrlConfig {
            id,
            kind,
            minimum,
            maximum,
            step,
            default_value,
            skip,
            flags: flags_of(kind, flags),
            is_private,
            elems: None,
        })
    }

    // The control that is described, where nothing is wrong with it.
    pub(crate) fn made(description: CtrlConfig) -> Result<Ctrl, CtrlFault>
        ensures ok { IsOk result ↔ IsWellFormed description }
        ensures value { IfOk result (λ c. c ≡ description) }
        ensures fault { IfErr result (IsFirstFault description) }
    {
        match description.check() {
            Ok(()) => Ok(Ctrl { description }),
            Err(fault) => Err(fault),
        }
    }

    /// Makes an array of bytes of a driver's description (Linux userspace API, "enum v4l2_ctrl_type", `V4L2_CTRL_TYPE_U8`; Linux driver API, "V4L2
    /// Controls"; the limit of 32 elements is of this project).
    ///
    /// - `id`, `flags`, `is_private`: as of `new`.
    /// - `elems`: how many elements it has, 1 to 32.
    /// - `minimum`, `maximum`: the least and the greatest value of each element, within 0 to 255.
    /// - `step`: how far these lie apart, 1 or more.
    /// - `default_value`: what stands in each element at the start, a value that an element takes as it is.
    ///
    /// Refused by the checks 35, `BadRange` (1), 36, `ZeroStep` (2), 37, `KindBounds` (4), and 38, `BadDefault` (3), of docs/RULES.md, in this order
    /// (of this project); nothing is made then.
    pub fn new_array(
        id: CtrlId,
        elems: u32,
        minimum: i64,
        maximum: i64,
        step: u64,
        default_value: i64,
        flags: Flags,
        is_private: bool,
    ) -> Result<Ctrl, CtrlFault>
        ensures ok { IsOk result ↔ IsWellFormed
            (described_array id elems minimum maximum step default_value flags is_private) }
        ensures value { IfOk result (λ c. c ≡
            described_array id elems minimum maximum step default_value flags is_private) }
        ensures fault { IfErr result (IsFirstFault
            (described_array id elems minimum maximum step default_value flags is_private)) }
    {
        Ctrl::made(CtrlConfig {
            id,
            kind: Kind::U8,
            minimum,
            maximum,
            step,
            default_value,
            skip: 0,
            flags,
            is_private,
            elems: Some(elems),
        })
    }

    /// The control with another range (Linux driver API, `v4l2_ctrl_modify_range`): its id, kind, flags, skipped items, number of
    /// elements and whether it is private stay.
    ///
    /// - `minimum`, `maximum`: the least and the greatest value from then on; of a `Bitmask` 0 and the mask.
    /// - `step`: how far the values of a number lie apart, 1 or more; 1 for a `Boolean` and the menus, 0 for a `Button` and a `Bitmask`.
    /// - `default_value`: the default from then on, one that the control takes as it is within the new range.
    ///
    /// Refused as `new` refuses a description with these bounds: by the checks 35, `BadRange` (1), 36, `ZeroStep` (2), 37, `KindBounds` (4), and 38,
    /// `BadDefault` (3), of docs/RULES.md, in this order. This control is as it was, whatever is answered. It takes no memory.
    pub fn with_range(
        &self,
        minimum: i64,
        maximum: i64,
        step: u64,
        default_value: i64,
    ) -> Result<Ctrl, CtrlFault>
        ensures ok { IsOk result ↔ IsWellFormed (with_range self.now minimum maximum step default_value) }
        ensures value { IfOk result (λ c. c ≡ with_range self.now minimum maximum step default_value) }
        ensures fault { IfErr result (IsFirstFault (with_range self.now minimum maximum step default_value)) }
    {
        Ctrl::made(CtrlConfig {
            minimum,
            maximum,
            step,
            default_value,
            ..self.description
        })
    }

    /// The number by which userspace asks for the control.
    pub fn id(&self) -> CtrlId
        ensures id { result ≡ self.now.id }
        ensures well_formed { IsWellFormed self.now }
    {
        self.description.id
    }

    /// What values the control takes (Linux userspace API, "enum v4l2_ctrl_type").
    pub fn kind(&self) -> Kind
        ensures { result ≡ self.now.kind }
    {
        self.description.kind
    }

    /// The least value (Linux userspace API, "struct v4l2_query_ext_ctrl", as for the next three).
    pub fn minimum(&self) -> i64
        ensures { result ≡ self.now.minimum }
    {
        self.description.minimum
    }

    /// The greatest value; of a bitmask the mask.
    pub fn maximum(&self) -> i64
        ensures { result ≡ self.now.maximum }
    {
        self.description.maximum
    }

    /// How far the values of a number lie apart; 1 of a boolean and a menu, 0 of a button and a bitmask.
    pub fn step(&self) -> u64
        ensures { result ≡ self.now.step }
    {
        self.description.step
    }

    /// The default, as a number.
    pub fn default_value(&self) -> i64
        ensures { result ≡ self.now.default_value }
    {
        self.description.default_value
    }

    /// The default, as a value: what the control has at the start.
    pub fn default_as_value(&self) -> CtrlValue
        ensures { result ≡ default_of self.now }
    {
        self.description.default_as_value()
    }

    /// The items that a menu leaves out: bit i stands for item i (Linux driver API, "V4L2 Controls", "Menu Controls").
    pub fn skip(&self) -> u64
        ensures { result ≡ self.now.skip }
    {
        self.description.skip
    }

    /// Whether it is an array.
    pub fn is_array(&self) -> bool
        ensures { result ≡ is_array self.now }
    {
        self.description.elems.is_some()
    }

    /// How many elements its value has: 1 where it is no array (Linux userspace API, "struct v4l2_query_ext_ctrl").
    pub fn elems(&self) -> u32
        ensures { result ≡ elems_of self.now }
    {
        self.description.elems.unwrap_or(1)
    }

    /// What holds of the control from the start, a button's own flags included (Linux userspace API, "Control Flags").
    pub fn flags(&self) -> Flags
        ensures { result ≡ self.now.flags }
    {
        self.description.flags
    }

    /// Whether handlers that add this control's handler leave it out (Linux driver API, "V4L2 Controls", "Preventing
    /// Controls inheritance").
    pub fn is_private(&self) -> bool
        ensures { result ≡ self.now.is_private }
    {
        self.description.is_private
    }
}

// The flags of a control that is given these: a button has two of its own besides.
pub(crate) fn flags_of(kind: Kind, flags: Flags) -> Flags
    ensures { result ≡ flags_of kind flags }
{
    match kind {
        Kind::Button => flags.union(Flags::WRITE_ONLY.union(Flags::EXECUTE_ON_WRITE)),
        _ => flags,
    }
}

/// The value that `control` takes when `value` is asked for, which may be any value (Linux driver API, "V4L2
/// Controls"; the rounding is this project's).
///
/// An `Integer` and an `Integer64` take the nearest of minimum, minimum + step, .. that isn't above the maximum, of two
/// equally near the larger. A `Boolean` takes 1 for every number but 0, a `Bitmask` the bits of the number that are in
/// its mask (two's complement), a `Button` 0, and a `Menu` and an `IntegerMenu` an index as it is. An array of bytes (`U8`) takes as many bytes as it has elements, and each
/// of them as an `Integer` takes a number.
///
/// Refused by the check 57 (EINVAL, 22) of docs/RULES.md where an array is given a number or another count of bytes, or another control bytes; and, of a menu alone, by the
/// checks 51 (ERANGE, 34) and 52 (EINVAL), in this order.
#[tactic(auto, unfolding(crate::specs::Settle::settle))]
pub fn settle(control: &Ctrl, value: &CtrlValue) -> Result<CtrlValue, Errno>
    ensures settled { result ≡ settle control.now value.now }
    ensures well_formed { IsWellFormed control.now }
{
    match settle_value(control, value) {
        Ok(taken) => Ok(taken),
        Err(check) => Err(check.errno()),
    }
}

/// The same, where a refusal is the check: for who settles many values, and wants the errno of the one that is refused (Linux driver API, "V4L2 Controls").
///
/// - `value`: any value.
///
/// Refused as `settle` is.
pub fn settle_value(control: &Ctrl, value: &CtrlValue) -> Result<CtrlValue, Check>
    ensures settled { result ≡ settle_value control.now.kind control.now value.now }
    ensures well_formed { IsWellFormed control.now }
{
    control.description.settle(value)
}

/// Which check refuses a value for `control`, none where it takes one for it: 57 where an array is given a number or another count of bytes, or another
/// control bytes; and, of a menu alone, 51 and 52 of docs/RULES.md, in this order (Linux driver API, "V4L2 Controls"). `settle` answers its errno.
///
/// - `value`: any value.
///
/// It takes no memory and refuses nothing.
#[tactic(auto, unfolding(crate::specs::Settle::settle_check))]
pub fn settle_check(control: &Ctrl, value: &CtrlValue) -> Option<Check>
    ensures { result ≡ settle_check control.now value.now }
{
    settle_value(control, value).err()
}

/// The value that `control` has from `value`, once its range was changed (Linux driver API, `v4l2_ctrl_modify_range`): what it takes for it, and its default
/// where it takes none (the latter of this project).
///
/// - `value`: any value; the one that the control had within its earlier range.
///
/// The control takes the answer as it is (the law `settled_anew_stays`). It takes no memory and refuses nothing.
pub fn settle_anew(control: &Ctrl, value: &CtrlValue) -> CtrlValue
    ensures value { result ≡ settled_anew control.now value.now }
    ensures well_formed { IsWellFormed control.now }
{
    match settle(control, value) {
        Ok(taken) => taken,
        Err(_) => control.default_as_value(),
    }
}
