//! Tests of public calls of the other crates: what no clause says, and the program does not show.
#![tactic(auto)]

#[cfg(test)]
mod bases;
#[cfg(test)]
mod checks;
#[cfg(test)]
mod edits;
mod files;
#[cfg(test)]
mod machines;
#[cfg(test)]
mod sessions;
#[cfg(test)]
mod streams;
#[cfg(test)]
mod texts;
#[cfg(test)]
mod theorems;
#[cfg(test)]
mod views;
