//! Tests of the history's table in a database, by its keepers' public calls: that calls succeed, which tables are a
//! keeper's, and what becomes of those of schema 1; and of marks in a table, and of the reports of rows, over
//! marks in memory.
//!
//! They stand in a crate of their own, since a crate that has tests is proved a second time with them.
#![tactic(auto)]

#[cfg(test)]
mod keeping;
#[cfg(test)]
mod marks;
#[cfg(test)]
mod reports;
