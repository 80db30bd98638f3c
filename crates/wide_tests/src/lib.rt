//! Tests of cells of any bandwidth against the reference implementation: resource elements of the control and shared
//! channels, grants, halved recordings, received slots, and soft values; and what is read in subframes that the reference
//! implementation sends.
#![tactic(auto)]

#[cfg(test)]
mod cells;
#[cfg(test)]
mod checksum;
#[cfg(test)]
mod distributed;
#[cfg(test)]
mod grants;
#[cfg(test)]
mod halvings;
#[cfg(test)]
mod inits;
#[cfg(test)]
mod lists;
#[cfg(test)]
mod narrow;
#[cfg(test)]
mod places;
#[cfg(test)]
mod rows;
#[cfg(test)]
mod samples;
#[cfg(test)]
mod sender;
#[cfg(test)]
mod slots;
#[cfg(test)]
mod systems;
#[cfg(test)]
mod values;
