//! Tests of remotes by public calls: what stays of each, in which order, and what can't be merged.
#![tactic(auto)]

#[cfg(test)]
mod merging;
