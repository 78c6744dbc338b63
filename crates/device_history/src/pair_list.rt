ghost use Rattle.std.specs.Prelude.{◌≡◌};

use ctrl_types::Pair;
use std::marker::Model;

/// A list of values for controls, as steps keep it. Contracts see it as a list.
#[derive(Debug, Drop)]
pub struct PairList {
    items: Vec<Pair>,
}

impl Model for PairList {
    ghost use Rattle.std.specs.Prelude.{List};
    ghost use Rattle.ctrl_types.specs.declared.ids.Pair.{Pair};

    ghost Value = { List Pair };

    ghost view = { λ l. l.items.items };
}

impl PairList {
    /// The list of these pairs.
    pub fn from_vec(items: Vec<Pair>) -> PairList
        ensures { result ≡ items.items }
    {
        PairList { items }
    }

    /// The pairs, with the memory that they lie in.
    pub fn into_vec(self) -> Vec<Pair>
        ensures { result.items ≡ self }
    {
        let PairList { items } = self;
        items
    }

    /// The pairs.
    pub fn as_slice(&self) -> &[Pair]
        ensures { result.now ≡ self.now }
    {
        self.items.as_slice()
    }
}
