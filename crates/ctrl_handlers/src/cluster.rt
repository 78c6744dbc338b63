ghost use Rattle.std.specs.Prelude.{◌≡◌, ◌<◌, ◌≤◌, length};
ghost use Rattle.ctrl_handlers.specs.Plan.{has_member, leads};
ghost use Rattle.ctrl_calls.specs.declared.row.TheConstants.{MAX_MEMBERS};

use arrayvec::ArrayVec;
use ctrl_calls::{MAX_MEMBERS, Relations};
use std::marker::Model;

/// A cluster, but for its closures (Linux driver API, "V4L2 Controls", "Control Clusters").
#[derive(Drop)]
pub struct Cluster {
    members: ArrayVec<u32, MAX_MEMBERS>,
    // the master's manual value, where it is an auto cluster
    manual: Option<i64>,
    calls: Relations,
}

impl Model for Cluster {
    ghost use Rattle.std.specs.Prelude.{◌<◌, length};
    ghost use Rattle.ctrl_handlers.specs.ClusterData.{ClusterData};

    ghost Value = { ClusterData };

    ghost view = { λ k. record { members = k.members.items; manual = k.manual; calls = k.calls } };

    ghost invariant = { λ k. 0 < length k.members.items };
}

impl Cluster {
    /// A cluster of these controls, 1 to 8 of them.
    pub(crate) fn new(members: &[u32], manual: Option<i64>, calls: Relations) -> Cluster
        requires some { 0 < length members.now }
        requires few { length members.now ≤ MAX_MEMBERS }
        ensures { result ≡ record { members = members.now; manual = manual; calls = calls } }
    {
        let mut all = ArrayVec::new();
        for &member in members {
            all.push(member);
        }
        Cluster {
            members: all,
            manual,
            calls,
        }
    }

    /// The master's manual value, where it is an auto cluster.
    pub(crate) fn manual(&self) -> Option<i64>
        ensures { result ≡ self.now.manual }
    {
        self.manual
    }

    /// Whether it is an auto cluster with this master.
    pub(crate) fn leads(&self, control: u32) -> bool
        ensures { result ≡ leads control self.now }
    {
        self.manual.is_some() && self.members.as_slice()[0] == control
    }

    /// Its members, the first of which is its master.
    pub(crate) fn members(&self) -> &[u32]
        ensures { result.now ≡ self.now.members }
    {
        self.members.as_slice()
    }

    /// Whether a control is one of its members.
    pub(crate) fn has(&self, control: u32) -> bool
        ensures { result ≡ has_member control self.now }
    {
        self.members.as_slice().contains(&control)
    }
}
