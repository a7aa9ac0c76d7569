//! Tests of what a dump is read as, and of what is said of runs that went wrong, beside texts that were written by hand.
#![tactic(auto)]

#[cfg(test)]
mod crafts;
#[cfg(test)]
mod drafts;
#[cfg(test)]
mod faults;
#[cfg(test)]
mod field_rows;
#[cfg(test)]
mod field_values;
#[cfg(test)]
mod fields;
#[cfg(test)]
mod lines;
#[cfg(test)]
mod places;
#[cfg(test)]
mod said;
#[cfg(test)]
mod trees;
