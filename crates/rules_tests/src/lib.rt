//! Tests of the rules on examples: maps, loads and walks.
#![tactic(auto)]

#[cfg(test)]
mod bad_input;
#[cfg(test)]
mod piles;
#[cfg(test)]
mod profiles;
#[cfg(test)]
mod worked_walks;
