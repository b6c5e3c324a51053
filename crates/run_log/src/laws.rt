//! Laws of logs: each is the contract of a function that does nothing.

ghost use Rattle.run_log.specs.ChainLaws.{ChainsAreWellFormed};
ghost use Rattle.run_log.specs.MakerLaws.{MakersAreOfTheRun};
ghost use Rattle.run_log.specs.NamedNotes.{NotesAreNamed};
ghost use Rattle.run_log.specs.NoteLaws.{NotesAreWithin};
ghost use Rattle.run_log.specs.OpenCalls.{ChainsAreOpenCalls};
ghost use Rattle.run_log.specs.TurnLaws.{EachNoteHasItsTurn};

/// Whatever the image and the schedule, the chain of each note has 1 to 64 frames. The first is the compartment of the
/// actor that made the access, and each other is the procedure to which an address of the text belongs.
pub fn chains_are_well_formed()
    ensures { ChainsAreWellFormed }
{}

/// A chain has the first 64 of the procedures that were called and have not returned, and counts the others: a jump
/// that links with ra calls the procedure of its target, the return of the calling standard takes off the last call,
/// and never the compartment, and no other instruction changes a chain.
pub fn chains_are_open_calls()
    ensures { ChainsAreOpenCalls }
{}

/// Whatever the image and the schedule, the compartment of each note is a procedure of the image, a private
/// access is a load or a store, and the item is of the kind of the access: a tag that the image declares, or one
/// that the run made in a procedure; a descriptor that the image declares, or a file of the image; or a gate at a
/// procedure.
pub fn notes_are_named()
    ensures { NotesAreNamed }
{}

/// In every run a turn adds to the notes exactly one for each instruction of its actor that reaches a private
/// copy, in order, and then one for its event exactly where that loaded, stored, gave, appended or entered. Each
/// is of an access that the actor's own rights permit: of the greatest tag of which its sheet grants a copy in
/// that slot; of the tag that lives in the slot, with Read or ReadWrite on it; of a descriptor, with the bit; of
/// the gate that it holds at the entry. A tag or a descriptor of the image is noted by its number, a tag that the
/// run made by who made it, and a file that it opened by its path.
///
/// The chain of each note is that of its actor before that instruction. An actor begins with the chain of its
/// compartment alone. From the chain that the log keeps for the actor of a turn, each of its instructions leads to
/// the next chain, and the log keeps the one at which the actor comes to rest; no other actor's chain changes.
pub fn notes_are_within()
    ensures { NotesAreWithin }
{}

/// In every run what is known of a tag that the run made, and of the path of a descriptor, is so: a turn of the run
/// opened the tag, and its actor was then in that compartment at that address; and a turn opened the file of that
/// path as that descriptor. Each tag that a turn opened has a maker, and each descriptor that a turn opened with a
/// file has a path.
pub fn makers_are_of_the_run()
    ensures { MakersAreOfTheRun }
{}

/// Whatever the image and the schedule, each note has the number of a turn, from 1 to the number of names, and these
/// do not fall: as many notes have a number up to `k` as there are in the log of the first `k` names.
pub fn each_note_has_its_turn()
    ensures { EachNoteHasItsTurn }
{}
