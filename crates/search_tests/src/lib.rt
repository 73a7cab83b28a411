//! Tests of the search on small maps: fronts, walks, charts, and every refusal.
#![tactic(auto)]

#[cfg(test)]
mod charges;
#[cfg(test)]
mod examples;
#[cfg(test)]
mod profiles;
#[cfg(test)]
mod refused;
