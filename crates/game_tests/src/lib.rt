//! Tests of the records of a game, of the rates of machines, and of the script's lines.
#![tactic(auto)]

#[cfg(test)]
mod copies;
#[cfg(test)]
mod fields;
#[cfg(test)]
mod fitting;
#[cfg(test)]
mod games;
#[cfg(test)]
mod line_rows;
#[cfg(test)]
mod lines;
#[cfg(test)]
mod rates;
#[cfg(test)]
mod shown_changes;
#[cfg(test)]
mod shown_commands;
#[cfg(test)]
mod shown_rows;
#[cfg(test)]
mod shown_words;
