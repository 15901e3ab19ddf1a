//! Tests of the check on tables: every refusal with its row, and the shortcuts that it must not take.

#![tactic(auto)]

#[cfg(test)]
mod limits;
#[cfg(test)]
mod party_levels;
#[cfg(test)]
mod protocols;
#[cfg(test)]
mod settings;
#[cfg(test)]
mod shapes;
#[cfg(test)]
mod shortcuts;
#[cfg(test)]
mod tables;
#[cfg(test)]
mod uses;
#[cfg(test)]
mod verdicts;
