use crate::row::ClusterRow;
use ctrl_types::Errno;

/// What a validator makes of a row (Linux driver API, "V4L2 Controls", "Control Clusters": what `try_ctrl` and `s_ctrl`
/// answer, and what they leave in the cluster's values).
#[derive(Clone, Copy, Debug, PartialEq, Eq)]
pub enum Verdict {
    /// The row that is to be set: the one that was asked, or another that the hardware can take in its place.
    Accept(ClusterRow),
    /// The row can't be set, for this reason.
    Refuse(Errno),
}
