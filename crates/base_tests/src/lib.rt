//! Tests of the small crates: lists, names, fractions, energies, JSON, files, the queue of nodes and the check of plans.
#![tactic(auto)]

#[cfg(test)]
mod certificates;
#[cfg(test)]
mod energies;
#[cfg(test)]
mod faults;
#[cfg(test)]
mod files;
#[cfg(test)]
mod fractions_of_text;
#[cfg(test)]
mod lists;
#[cfg(test)]
mod made;
#[cfg(test)]
mod names;
#[cfg(test)]
mod numerals;
#[cfg(test)]
mod queue;
#[cfg(test)]
mod trees;
