//! Tests of the program that compute what they run or what they want: every order of turns, each prefix of a file, as many actors as
//! there may be, runs that no single thread makes, and the image of each workload. Rows that are written out stand in `run_cases`.
#![tactic(auto)]

#[cfg(test)]
mod harness;
#[cfg(test)]
mod journals;
#[cfg(test)]
mod many;
#[cfg(test)]
mod orders;
#[cfg(test)]
mod parts;
#[cfg(test)]
mod prefixes;
#[cfg(test)]
mod threads;
#[cfg(test)]
mod workloads;
