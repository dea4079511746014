//! What a call may cost: memory that may run out, and steps that contracts count.
//!
//! ```text
//! let mut steps: Steps<Brand> = Steps::open(blank);
//! steps.tick();
//! vec.try_reserve(1).map_err(|_| NoMemory)?;
//! ```
#![tactic(auto)]

mod no_memory;
mod steps;

pub use no_memory::NoMemory;
pub use steps::Steps;
