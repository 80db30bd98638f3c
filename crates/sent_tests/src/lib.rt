//! Tests of the transmitter and of the report formats: `cell_plan`, `cell_tx`, `cell_json`, `capture_make`, `two_tx`,
//! `hit_details`, `report_text` and `report_json`.
#![tactic(auto)]

#[cfg(test)]
mod descriptions;
#[cfg(test)]
mod emissions;
#[cfg(test)]
mod four_antenna_ports;
#[cfg(test)]
mod made_recordings;
#[cfg(test)]
mod texts;
#[cfg(test)]
mod transmissions;
#[cfg(test)]
mod two_antenna_ports;
