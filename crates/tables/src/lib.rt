// The table: its words, its rules, and what showing and preparing do. The definitions stand in specs/, the theorems in proofs/.
// Here are document 01's numbers for a table's words, by their names.
#![tactic(auto)]

pub mod flags;
pub mod heads;
pub mod kinds;
pub mod tags;
