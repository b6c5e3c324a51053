//! The world, its turns and its runs, as definitions, and the laws that hold of every run. There is no code here: the
//! crates above compute what is defined, and stand on the laws, each of which is the contract of a function that does nothing.
#![tactic(auto)]

mod laws;

pub use laws::{
    accesses_are_isolated, actors_walk, allowed_calls_take_place, asks_fit_their_cells,
    cells_open_by_their_rules, complete_runs_end_all, copies_are_granted, drafts_are_sorted,
    fuel_is_kept, gates_are_kept, gates_are_not_held_within, lives_are_counted,
    memory_has_the_images_ranges, moments_are_lawful, names_are_distinct,
    rights_are_within_the_roots, root_begins_as_declared, runs_are_alone, runs_read_their_own,
    runs_write_their_own, slots_are_occupied,
};
