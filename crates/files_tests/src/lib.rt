//! Road files and query files tried out: every fault in its place, and what good files give.
#![tactic(auto)]

#[cfg(test)]
mod faults;
#[cfg(test)]
mod name_orders;
#[cfg(test)]
mod query_files;
#[cfg(test)]
mod road_files;
