//! The greatest whole number that JSON programs exchange safely.
#![tactic(auto)]

/// The greatest whole number that JSON programs exchange safely, 2^53 - 1 (RFC 8259, section 6).
pub const MAX_SAFE_INTEGER: u64 = 9_007_199_254_740_991;
