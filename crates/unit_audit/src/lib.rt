//! Tests of run_audit and audited_run: what an audit answers of logs and histories that agree, and of those that do
//! not.
#![tactic(auto)]

#[cfg(test)]
mod gathering;
#[cfg(test)]
mod run_audit_tests;
#[cfg(test)]
mod text_tests;
