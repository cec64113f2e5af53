//! Tests of the search, of its workers and of the share of each entry.
#![tactic(auto)]

#[cfg(test)]
mod counting;
#[cfg(test)]
mod meeting;
#[cfg(test)]
mod of_branch_search;
#[cfg(test)]
mod of_incumbent;
#[cfg(test)]
mod of_occupation;
#[cfg(test)]
mod of_shared_board;
#[cfg(test)]
mod of_shared_leaves;
#[cfg(test)]
mod of_sidb_units;
#[cfg(test)]
mod problems;
