//! Definitions and lemmas on lists that several crates use: sums over a list that changes at one
//! place, and how often a number stands in a list.
#![tactic(auto)]
