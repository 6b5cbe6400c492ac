// Tests of the boards: the grid and signs over it, held against plain truth tables.
#![tactic(auto)]

#[cfg(test)]
mod compare;
#[cfg(test)]
mod edges;
#[cfg(test)]
mod generate;
#[cfg(test)]
mod layers;
#[cfg(test)]
mod making;
#[cfg(test)]
mod operands;
#[cfg(test)]
mod piles;
#[cfg(test)]
mod requests;
#[cfg(test)]
mod tables;
#[cfg(test)]
mod turns;
