// The boundary to C and Rust: functions on bytes and numbers. capi/span.h says the same in C's words.
#![tactic(auto)]

pub mod behind;
pub mod calls;
pub mod census;
pub mod conversion;
pub mod desks;
pub mod fields;
pub mod marks;
pub mod numbers;
pub mod opening;
pub mod plans;
pub mod sheet;
pub mod version;
