//! Sides of a call.

use fact_types::StringEncoding;

/// What values on one side of a call are read by (canonical ABI, "Canonical ABI options").
#[derive(Clone, Copy)]
pub struct SideAbi {
    /// Whether addresses and lengths in the side's memory have 64 bits, and not 32.
    pub memory64: bool,
    /// The encoding of the side's strings.
    pub encoding: StringEncoding,
}
