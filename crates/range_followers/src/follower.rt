ghost use Rattle.std.specs.Prelude.{◌≡◌, nat_eq, not};
ghost use Rattle.range_followers.specs.Followed.{passes};
ghost use Rattle.range_followers.specs.Wanted.{value_at};

use ctrl_types::CtrlValue;

/// What a bound follows: the value of another control, and a number that is added to it (of this project).
#[derive(Clone, Copy)]
pub struct Source {
    /// The number of the control that is followed: an integer or an integer64, whose own range follows nothing.
    pub control: u32,
    /// What is added to its value.
    pub plus: i64,
}

impl Source {
    ghost use Rattle.range_followers.specs.Wanted.{number_from};

    /// What the bound is asked to be: the value that is followed and the number, which may be more than 64 bits hold. A control that isn't there counts as 0, as does
    /// an array.
    ///
    /// - `values`: a value for each control, in the order of their numbers.
    pub fn number(&self, values: &[CtrlValue]) -> i128
        ensures { result ≡ number_from values.now self.now }
    {
        i128::from(value_at(values, self.control).number()) + i128::from(self.plus)
    }
}

/// What the default of a follower is nearest to (of this project).
#[derive(Clone, Copy)]
pub enum DefaultSource {
    /// Always this number, which is the default where the range has it.
    Number(i64),
    /// What the default follows.
    Value(Source),
}

impl DefaultSource {
    ghost use Rattle.range_followers.specs.Followed.{source_of};

    /// What the default follows, if anything (of this project).
    pub fn source(self) -> Option<Source>
        ensures { result ≡ source_of self }
    {
        match self {
            DefaultSource::Number(_) => None,
            DefaultSource::Value(source) => Some(source),
        }
    }
}

/// A control whose range follows others: an integer or an integer64. A bound without a source stays as it is (of this project).
#[derive(Clone, Copy)]
pub struct Follower {
    /// The control's number.
    pub control: u32,
    /// What the minimum follows, if anything.
    pub minimum: Option<Source>,
    /// What the maximum follows, if anything.
    pub maximum: Option<Source>,
    /// What the default is nearest to.
    pub default_value: DefaultSource,
}

impl Follower {
    ghost use Rattle.range_followers.specs.Followed.{is_followed_by, follows_any};

    /// Whether it follows a control (of this project).
    ///
    /// - `control`: any number.
    pub fn follows(&self, control: u32) -> bool
        ensures { result ≡ is_followed_by self.now control }
    {
        is_of(self.minimum, control)
            || is_of(self.maximum, control)
            || is_of(self.default_value.source(), control)
    }

    /// Whether it follows any control (of this project).
    pub fn follows_any(&self) -> bool
        ensures { result ≡ follows_any self.now }
    {
        self.minimum.is_some() || self.maximum.is_some() || self.default_value.source().is_some()
    }
}

// Whether this control is followed.
fn is_of(source: Option<Source>, control: u32) -> bool
    ensures { result ≡ not (passes (λ s. not (nat_eq s control)) source) }
{
    match source {
        Some(source) => source.control == control,
        None => false,
    }
}

// The value of a control; 0 where it isn't there.
pub(crate) fn value_at(values: &[CtrlValue], control: u32) -> CtrlValue
    ensures { result ≡ value_at values.now control }
{
    values
        .get(control as usize)
        .copied()
        .unwrap_or(CtrlValue::Number(0))
}
