//! Tests of the core's libraries, each in a module of its own: what no clause says.
#![tactic(auto)]

#[cfg(test)]
mod allocator;
#[cfg(test)]
mod lines;
#[cfg(test)]
mod msg;
#[cfg(test)]
mod value;
