// Why a request has no plan.
use crate::Refusal;

/// Why a request has no plan.
#[derive(Drop)]
pub enum FrontFault {
    /// The host has failed.
    HostFailed,
    Refused(Refusal),
    /// Memory was refused.
    Memory,
}
