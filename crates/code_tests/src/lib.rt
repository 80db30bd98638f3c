//! Tests of the channel codes and of the receiver's single stages: `conv_code`, `tailbite`, `code_distance`,
//! `tail_cert`, `turbo_code`, `turbo_dec`, `erasure`, `dci`, `sib1`, `grid_map`, `soft_bits`, `sss_detect` and
//! `pss_search`.
#![tactic(auto)]

#[cfg(test)]
mod certificates;
#[cfg(test)]
mod coded_words;
#[cfg(test)]
mod grants;
#[cfg(test)]
mod identities;
#[cfg(test)]
mod least_words;
#[cfg(test)]
mod messages;
#[cfg(test)]
mod nearest_words;
#[cfg(test)]
mod places;
#[cfg(test)]
mod punctured_blocks;
#[cfg(test)]
mod shared;
#[cfg(test)]
mod soft_values;
#[cfg(test)]
mod sweeps;
#[cfg(test)]
mod turbo_coding;
#[cfg(test)]
mod turbo_decoding;
#[cfg(test)]
mod word_rooms;
