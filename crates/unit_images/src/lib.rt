//! Tests of the crates of images: what they answer that no command shows.
#![tactic(auto)]

#[cfg(test)]
mod image_form_tests;
#[cfg(test)]
mod image_table_tests;
#[cfg(test)]
mod ready_text_tests;
#[cfg(test)]
mod stable_sort_tests;
