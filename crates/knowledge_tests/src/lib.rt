// Tests of the crate `knowledge`, at the edges of its rules.
#![tactic(auto)]

#[cfg(test)]
mod checks;
#[cfg(test)]
mod counts;
#[cfg(test)]
mod plans;
#[cfg(test)]
mod tables;
