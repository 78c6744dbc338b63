use thiserror::Error;

/// Why a history isn't audited.
#[derive(Debug, Drop, Error)]
pub enum AuditFault {
    /// A step may not follow those before it.
    #[error("step {index} may not follow those before it")]
    NotLegal {
        /// Its place in the history, from 0 to 1,000,000: no more steps are kept.
        index: u32,
    },
    /// A growth was refused.
    #[error("out of memory")]
    Memory,
}
