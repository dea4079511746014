//! Tests of a moving table, under each kind of finder and with the least of its values, of the queue of what falls due, and of certifications and sources at work, and nothing else.
//!
//! Each call of theirs is made once or twice, with values whose answers are known from outside. Most calls of `back` stand in a small
//! function that asks first whether a state is kept, so that few functions here have to say that one is.
#![tactic(auto)]

#[cfg(test)]
mod certifications;
#[cfg(test)]
mod expiry;
#[cfg(test)]
mod found;
#[cfg(test)]
mod sources;
#[cfg(test)]
mod table;
