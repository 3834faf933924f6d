use thiserror::Error;

/// The one fault of a device: it did not do what it was asked for.
#[derive(Clone, Copy, Debug, PartialEq, Eq, Error)]
#[error("the device failed")]
pub struct Failed;
