//! Tests of update plans over documents, by their public calls: which steps a plan has, and what a check
//! says of it once it has other steps, or the history another row.
#![tactic(auto)]

#[cfg(test)]
mod checking;
#[cfg(test)]
mod documents;
#[cfg(test)]
mod pasts;
#[cfg(test)]
mod planning;
