use ctrl_calls::RowValues;

/// The row that a cluster gets (Linux driver API, "V4L2 Controls", "Control Clusters").
#[derive(Clone, Copy, Debug)]
pub struct NewRow {
    /// The cluster's number.
    pub cluster: u32,
    /// A value for each of its members, in member order.
    pub row: RowValues,
}
