//! Tests of numbers and hashes, of the table of rules, of parameters, of median times, of difficulties, of dividends, of walks over
//! certifications and of sources and sinks, and nothing else.
//!
//! Each call is made with values whose answers are known from outside. The tests stand above the crates that they try: a crate with
//! tests of its own is proved once more with them.
#![tactic(auto)]

#[cfg(test)]
mod difficulties;
#[cfg(test)]
mod numbers;
#[cfg(test)]
mod parameters;
#[cfg(test)]
mod rules;
#[cfg(test)]
mod streams;
#[cfg(test)]
mod times;
#[cfg(test)]
mod walks;
