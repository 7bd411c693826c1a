//! Rows of the journal: its entries, its checker with the map of numbers that it uses, its text and
//! the reader of that, and the keepers of volumes. They show what no contract says.
#![tactic(auto)]

#[cfg(test)]
mod asserts;
#[cfg(test)]
mod check;
#[cfg(test)]
mod journal;
#[cfg(test)]
mod journals;
#[cfg(test)]
mod numbers;
#[cfg(test)]
mod volumes;
