//! Tests of the crates for numbers, bits, sources and sinks, plain values, and synchronisation and reference signals:
//! `cs_num`, `cs_bits`, `cs_outside`, `lte_types`, `sample_file`, `uper`, `sub_block`, `fold128`, `gold`, `crs`,
//! `sync_seq` and `observe`.
#![tactic(auto)]

#[cfg(test)]
mod bits;
#[cfg(test)]
mod cells_and_frames;
#[cfg(test)]
mod complex_numbers;
#[cfg(test)]
mod fields;
#[cfg(test)]
mod interleaving;
#[cfg(test)]
mod plain_values;
#[cfg(test)]
mod recordings;
#[cfg(test)]
mod reference_signals;
#[cfg(test)]
mod scrambling;
#[cfg(test)]
mod seen;
#[cfg(test)]
mod sources_and_sinks;
#[cfg(test)]
mod synchronisation;
#[cfg(test)]
mod timings;
#[cfg(test)]
mod transforms;
