ghost use Rattle.std.specs.Prelude.{◌≡◌};

use thiserror::Error;

/// Why a plan builder refused a call. The numbers are this project's.
#[derive(Clone, Copy, Debug, PartialEq, Eq, Error)]
pub enum PlanFault {
    /// 1: the handler has a control of this id.
    #[error("the handler has a control of this id")]
    DuplicateId,
    /// 2: the control is in a cluster already, or named twice.
    #[error("the control is in a cluster already, or named twice")]
    InCluster,
    /// 3: a cluster has 1 to 8 members, and these are none or more than 8.
    #[error("a cluster has 1 to 8 members")]
    ClusterSize,
    /// 4: a handler adds only handlers with smaller numbers.
    #[error("a handler adds only handlers with smaller numbers")]
    LaterHandler,
    /// 5: there is no handler or control of this number, or the control isn't a menu that takes the index.
    #[error("there is nothing of this number")]
    UnknownNumber,
    /// 6: as many are there as there can be, or a name has more bytes than it can have.
    #[error("a limit is reached")]
    Limit,
    /// 7: a growth was refused.
    #[error("out of memory")]
    Memory,
    /// 8: an array stands alone in its cluster, which is no auto cluster.
    #[error("an array stands alone in its cluster, which is no auto cluster")]
    ArrayAlone,
    /// 9: the control can't follow these, or nothing is followed.
    #[error("the range can't follow these controls")]
    CannotFollow,
}

impl PlanFault {
    ghost use Rattle.ctrl_handlers.specs.Builder.{plan_fault_number};

    /// The number of the fault.
    pub fn number(self) -> u32
        ensures { result ≡ plan_fault_number self }
    {
        match self {
            PlanFault::DuplicateId => 1,
            PlanFault::InCluster => 2,
            PlanFault::ClusterSize => 3,
            PlanFault::LaterHandler => 4,
            PlanFault::UnknownNumber => 5,
            PlanFault::Limit => 6,
            PlanFault::Memory => 7,
            PlanFault::ArrayAlone => 8,
            PlanFault::CannotFollow => 9,
        }
    }
}
