//! Tests of the crates of texts and ELF files: what they answer that no command shows.
#![tactic(auto)]

#[cfg(test)]
mod cb_analyze_tests;
#[cfg(test)]
mod elf_in_tests;
#[cfg(test)]
mod report_text_schedule_tests;
#[cfg(test)]
mod report_text_tests;
#[cfg(test)]
mod rv_asm_tests;
#[cfg(test)]
mod sheet_enforce_tests;
#[cfg(test)]
mod trace_form_tests;
