//! How far the clocks go.

/// No clock in a packet, or of a group that receives one, is above this.
pub const GREATEST_CLOCK: u64 = 1 << 62;
