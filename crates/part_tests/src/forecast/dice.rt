//! Numbers that are drawn from a seed.

ghost use Rattle.std.specs.Prelude.{◌<◌};

use ctrl_types::{CtrlValue, Pair};
use std::alloc::{AllocError, Global};

/// The state that numbers are drawn from.
#[derive(Drop)]
pub struct Dice(pub u64);

impl Dice {
    /// A number below a limit.
    pub fn roll(&mut self, limit: u32) -> u32
        requires { 0 < limit }
        ensures { result < limit }
    {
        let state = self.0.wrapping_mul(6_364_136_223_846_793_005);
        self.0 = state.wrapping_add(1_442_695_040_888_963_407);
        (self.0 >> 33) as u32 % limit
    }

    /// A value, now and then one that no control takes as it is.
    pub fn value(&mut self) -> CtrlValue {
        CtrlValue::Number(i64::from(self.roll(13)))
    }

    /// One to three pairs of these controls.
    pub fn pairs(&mut self, alloc: Global, controls: u32) -> Result<Vec<Pair>, AllocError>
        requires { 0 < controls }
    {
        let mut pairs = Vec::new(alloc);
        for _ in 0..=self.roll(3) {
            let control = self.roll(controls);
            let value = self.value();
            pairs.push(Pair { control, value })?;
        }
        Ok(pairs)
    }
}
