//! Tests of cell search over complete recordings, cancellation, and frequency correction: `explain`, `clean_air`,
//! `two_ports`, `four_ports`, `long_prefix`, `cancel`, `successive_cancel` and `frequency_offset`.
#![tactic(auto)]

#[cfg(test)]
mod clean_cells;
#[cfg(test)]
mod estimate;
#[cfg(test)]
mod examples;
#[cfg(test)]
mod extended_prefix;
#[cfg(test)]
mod found_cells;
#[cfg(test)]
mod four_antenna_ports;
#[cfg(test)]
mod plans;
#[cfg(test)]
mod ports;
#[cfg(test)]
mod rounds_of_recordings;
#[cfg(test)]
mod rows;
#[cfg(test)]
mod taken_off;
#[cfg(test)]
mod turned;
#[cfg(test)]
mod two_antenna_ports;
