//! Why a bridge isn't attached.

/// Why a bridge isn't attached.
#[derive(Clone, Copy, Debug, PartialEq, Eq)]
pub enum AttachFault {
    /// It is attached.
    Already { bridge: u32 },
    /// Its guard's trace is a bridge that isn't attached.
    NoParent { bridge: u32 },
    OutOfMemory,
}
