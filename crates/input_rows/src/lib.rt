//! Tests of the crates that read and write, of layouts, of spans and of regions.
#![tactic(auto)]

#[cfg(test)]
mod of_parameter_regions;
#[cfg(test)]
mod of_screened_coulomb;
#[cfg(test)]
mod of_sidb_io;
#[cfg(test)]
mod of_sidb_layout;
#[cfg(test)]
mod of_sidb_units;
