use thiserror::Error;

/// The failure of a device. The device's count of faults shows it.
#[derive(Clone, Copy, Debug, PartialEq, Eq, Error)]
#[error("a device failed")]
pub struct Failed;
