ghost use Rattle.std.specs.Prelude.{◌≡◌, ◌<◌, ◌≤ℤ◌, ◌↔◌, pos, IsOk, IfOk, IfErr, IsTrue, MatchResult};
ghost use Rattle.ctrl_settle.specs.Control.{control_of, default_of, elems_of};
ghost use Rattle.ctrl_settle.specs.Faults.{FitsKind, HasBounds, HasElems, HasItems, IsFirstFault, IsWellFormed, has_grid};
ghost use Rattle.ctrl_settle.specs.Grid.{IsNearest, grid_value, nearest};
ghost use Rattle.ctrl_settle.specs.Settle.{item, settle_as, settle_bytes, settle_value, settled_byte};

use crate::control::{Ctrl, flags_of};
use crate::fault::CtrlFault;
use bitflags::Flags as FlagSet;
use ctrl_types::{ByteRow, Check, CtrlId, CtrlValue, Flags, Kind, MAX_ELEMENTS};

/// What a driver says of a control, not checked yet (Linux driver API, "V4L2 Controls", `struct v4l2_ctrl_config`). What each field may
/// be stands at `Ctrl::new`, whose arguments they are.
#[derive(Clone, Copy, Debug, PartialEq, Eq)]
pub struct CtrlConfig {
    /// The number by which userspace asks for it; any.
    pub id: CtrlId,
    /// What values it takes.
    pub kind: Kind,
    /// The least value.
    pub minimum: i64,
    /// The greatest value; of a `Bitmask` the mask.
    pub maximum: i64,
    /// How far the values of a number lie apart, 1 or more; 1 for a `Boolean` and the menus, 0 for a `Button` and a `Bitmask`.
    pub step: u64,
    /// The value at the start, one that the control takes as it is.
    pub default_value: i64,
    /// Bit i leaves out item i of a menu; 0 for other kinds.
    pub skip: u64,
    /// What holds of it from the start.
    pub flags: Flags,
    /// Whether handlers that add this control's handler leave it out.
    pub is_private: bool,
    /// How many elements an array has, 1 to 32; `None` for every other kind.
    pub elems: Option<u32>,
}

impl CtrlConfig {
    /// The control that the fields describe, as `Ctrl::new` makes it of them, and `Ctrl::new_array` where the kind is `U8` and there are elements. Its faults, of which the
    /// first is answered, are 1 `BadRange`, 2 `ZeroStep`, 4 `KindBounds` (also where an array has no elements here, or another kind has some) and 3 `BadDefault`, in this
    /// order; nothing is made then.
    pub fn build(&self) -> Result<Ctrl, CtrlFault>
        ensures ok { IsOk result ↔ IsWellFormed (control_of self.now) }
        ensures value { IfOk result (λ c. c ≡ control_of self.now) }
        ensures fault { IfErr result (IsFirstFault (control_of self.now)) }
    {
        Ctrl::made(CtrlConfig {
            flags: flags_of(self.kind, self.flags),
            ..*self
        })
    }

    /// The first fault of the description, in the order in which they are looked for.
    pub(crate) fn check(&self) -> Result<(), CtrlFault>
        ensures { MatchResult result (λ _. IsWellFormed self.now) (IsFirstFault self.now) }
    {
        if self.minimum > self.maximum {
            return Err(CtrlFault::BadRange);
        }
        if self.has_grid() && self.step == 0 {
            return Err(CtrlFault::ZeroStep);
        }
        if !self.fits_kind() {
            return Err(CtrlFault::KindBounds);
        }
        if self.settle_number(self.default_value) != Ok(self.default_value) {
            return Err(CtrlFault::BadDefault);
        }
        Ok(())
    }

    fn has_grid(&self) -> bool
        ensures { result ≡ has_grid self.now.kind self.now.elems }
    {
        match self.kind {
            Kind::Integer | Kind::Integer64 => true,
            Kind::U8 => self.elems.is_some(),
            _ => false,
        }
    }

    fn fits_kind(&self) -> bool
        ensures { IsTrue result ↔ FitsKind self.now }
    {
        let can_skip = matches!(self.kind, Kind::Menu | Kind::IntegerMenu);
        self.has_bounds()
            && self.has_elems()
            && (can_skip || self.skip == 0)
            && !self.flags.intersects(Flags::GRABBED.union(Flags::INACTIVE))
    }

    fn has_bounds(&self) -> bool
        ensures { IsTrue result ↔ HasBounds self.now.kind self.now }
    {
        let (minimum, maximum, step) = (self.minimum, self.maximum, self.step);
        match self.kind {
            Kind::Integer => i32::try_from(minimum).is_ok() && i32::try_from(maximum).is_ok(),
            Kind::Integer64 => true,
            Kind::Boolean => minimum == 0 && maximum == 1 && step == 1,
            Kind::Button => minimum == 0 && maximum == 0 && step == 0,
            Kind::Menu | Kind::IntegerMenu => minimum >= 0 && maximum <= 63 && step == 1,
            Kind::Bitmask => minimum == 0
                && (1..=i64::from(u32::MAX)).contains(&maximum)
                && step == 0,
            Kind::U8 => minimum >= 0 && maximum <= 255,
        }
    }

    fn has_elems(&self) -> bool
        ensures { IsTrue result ↔ HasElems self.now.kind self.now.elems }
    {
        match (self.kind, self.elems) {
            (Kind::U8, Some(elems)) => (1..=MAX_ELEMENTS).contains(&(elems as usize)),
            (Kind::U8, None) => false,
            (_, elems) => elems.is_none(),
        }
    }

    /// The default, as a value.
    pub(crate) fn default_as_value(&self) -> CtrlValue
        requires sound { IsWellFormed self.now }
        ensures { result ≡ default_of self.now }
    {
        match self.elems {
            Some(elems) => CtrlValue::Bytes(ByteRow::repeated(
                elems as usize,
                self.default_value as u8,
            )),
            None => CtrlValue::Number(self.default_value),
        }
    }

    /// The value that the control takes for `value`, or why it takes none.
    pub(crate) fn settle(&self, value: &CtrlValue) -> Result<CtrlValue, Check>
        requires in_order { self.now.minimum ≤ℤ self.now.maximum }
        requires stepped { IsTrue (has_grid self.now.kind self.now.elems) → 0 < self.now.step }
        requires bounds { HasBounds self.now.kind self.now }
        requires elems { HasElems self.now.kind self.now.elems }
        ensures { result ≡ settle_value self.now.kind self.now value.now }
    {
        match (self.kind, value) {
            (Kind::U8, CtrlValue::Bytes(row)) => self.settle_bytes(row),
            (Kind::U8, CtrlValue::Number(_)) | (_, CtrlValue::Bytes(_)) => Err(
                Check::ValueNotOfKind,
            ),
            (_, CtrlValue::Number(number)) => match self.settle_number(*number) {
                Ok(taken) => Ok(CtrlValue::Number(taken)),
                Err(check) => Err(check),
            },
        }
    }

    /// How many elements its value has: 1 where it is no array.
    pub(crate) fn elems_of(&self) -> usize
        ensures { result ≡ elems_of self.now }
    {
        self.elems.unwrap_or(1) as usize
    }

    /// What an array takes for bytes, element by element.
    fn settle_bytes(&self, row: &ByteRow) -> Result<CtrlValue, Check>
        requires in_order { self.now.minimum ≤ℤ self.now.maximum }
        requires stepped { 0 < self.now.step }
        requires low { pos 0 ≤ℤ self.now.minimum }
        requires high { self.now.maximum ≤ℤ pos 255 }
        ensures { result ≡ settle_bytes self.now row.now }
    {
        if row.len() != self.elems_of() {
            return Err(Check::ValueNotOfKind);
        }
        let mut settled = *row;
        for place in 0..row.len() {
            settled.set(place, self.settled_byte(row.byte(place)));
        }
        Ok(CtrlValue::Bytes(settled))
    }

    // What each element of an array takes for a byte.
    fn settled_byte(&self, byte: u8) -> u8
        requires in_order { self.now.minimum ≤ℤ self.now.maximum }
        requires stepped { 0 < self.now.step }
        requires low { pos 0 ≤ℤ self.now.minimum }
        requires high { self.now.maximum ≤ℤ pos 255 }
        ensures { result ≡ settled_byte self.now byte }
    {
        self.nearest(i64::from(byte)) as u8
    }

    /// The number that the control takes for `number`, or why it takes none.
    fn settle_number(&self, number: i64) -> Result<i64, Check>
        requires in_order { self.now.minimum ≤ℤ self.now.maximum }
        requires stepped { IsTrue (has_grid self.now.kind self.now.elems) → 0 < self.now.step }
        requires bounds { HasBounds self.now.kind self.now }
        requires elems { HasElems self.now.kind self.now.elems }
        ensures { result ≡ settle_as self.now.kind self.now number }
    {
        match self.kind {
            Kind::Integer | Kind::Integer64 | Kind::U8 => Ok(self.nearest(number)),
            Kind::Boolean => Ok(i64::from(number != 0)),
            Kind::Bitmask => Ok(number & self.maximum),
            Kind::Button => Ok(0),
            Kind::Menu | Kind::IntegerMenu => self.item(number),
        }
    }

    fn item(&self, value: i64) -> Result<i64, Check>
        requires { HasItems self.now }
        ensures { result ≡ item self.now value }
    {
        if value < self.minimum || self.maximum < value {
            return Err(Check::ValueOutsideMenu);
        }
        if self.skip >> value & 1 == 1 {
            return Err(Check::ValueSkipped);
        }
        Ok(value)
    }

    fn nearest(&self, value: i64) -> i64
        requires in_order { self.now.minimum ≤ℤ self.now.maximum }
        requires stepped { 0 < self.now.step }
        ensures { result ≡ nearest self.now value }
    {
        let above = self.nearest_step(value) * self.step;
        (i128::from(self.minimum) + i128::from(above)) as i64
    }

    /// How many steps above the minimum the nearest value lies.
    fn nearest_step(&self, value: i64) -> u64
        requires in_order { self.now.minimum ≤ℤ self.now.maximum }
        requires stepped { 0 < self.now.step }
        ensures { IsNearest self.now value (grid_value self.now result) }
    {
        if value <= self.minimum {
            return 0;
        }
        let last = self.maximum.abs_diff(self.minimum) / self.step;
        let asked = value.abs_diff(self.minimum);
        let below = asked / self.step;
        let past = asked % self.step;
        if below >= last {
            last
        } else if past < self.step - past {
            below
        } else {
            below + 1
        }
    }
}
