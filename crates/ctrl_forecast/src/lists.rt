use ctrl_types::CtrlValue;
use std::marker::Model;

/// A value for each control, in the order of their numbers (of this project). Contracts see it as the list of them.
#[derive(Debug, Drop)]
pub struct ValueRow {
    values: Vec<CtrlValue>,
}

impl Model for ValueRow {
    ghost use Rattle.std.specs.Prelude.{List};
    ghost use Rattle.ctrl_types.specs.declared.value.CtrlValue.{CtrlValue};

    ghost Value = { List CtrlValue };

    ghost view = { λ r. r.values.items };
}

impl ValueRow {
    ghost use Rattle.std.specs.Prelude.{◌≡◌};

    /// These values (of this project). It takes no further memory.
    ///
    /// - `values`: a value for each control, in the order of their numbers.
    pub fn from_vec(values: Vec<CtrlValue>) -> ValueRow
        ensures { result ≡ values.items }
    {
        ValueRow { values }
    }

    /// The values, with the memory that they lie in (of this project). It takes no further memory.
    pub fn into_vec(self) -> Vec<CtrlValue>
        ensures { result.items ≡ self }
    {
        let ValueRow { values } = self;
        values
    }

    /// The values, in the order of the controls' numbers (of this project). It takes no memory.
    pub fn as_slice(&self) -> &[CtrlValue]
        ensures { result.now ≡ self.now }
    {
        self.values.as_slice()
    }
}

/// Numbers of clusters, rising (of this project). Contracts see it as the list of them.
#[derive(Debug, Drop)]
pub struct ClusterList {
    clusters: Vec<u32>,
}

impl Model for ClusterList {
    ghost use Rattle.std.specs.Prelude.{List, ℕ};

    ghost Value = { List ℕ };

    ghost view = { λ l. l.clusters.items };
}

impl ClusterList {
    ghost use Rattle.std.specs.Prelude.{◌≡◌};

    /// These clusters (of this project). It takes no further memory.
    ///
    /// - `clusters`: numbers of clusters, rising.
    pub fn from_vec(clusters: Vec<u32>) -> ClusterList
        ensures { result ≡ clusters.items }
    {
        ClusterList { clusters }
    }

    /// The numbers, rising, with the memory that they lie in (of this project). It takes no further memory.
    pub fn into_vec(self) -> Vec<u32>
        ensures { result.items ≡ self }
    {
        let ClusterList { clusters } = self;
        clusters
    }

    /// The numbers, rising (of this project). It takes no memory.
    pub fn as_slice(&self) -> &[u32]
        ensures { result.now ≡ self.now }
    {
        self.clusters.as_slice()
    }
}
