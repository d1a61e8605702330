// The form of a sheet of calls, and what its run keeps of the labels from call to call.

#![tactic(auto)]

pub mod bound;
pub mod form;
pub mod kinds;

// The bytes of an argument, and of what a count in one may count.
pub const ARGUMENT_SIZE: usize = 16;

pub const MOST_BYTES: u32 = 12;
