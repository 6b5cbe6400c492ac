// What every other crate stands on: refusals, plans, formula tables, and what truth means.
#![tactic(auto)]

pub mod check;
pub mod fault;
pub mod measure;
pub mod plan;
pub mod scheduler;
pub mod sets;
mod survey;
pub mod table;
pub mod verdicts;
