//! Laws of the definitions: each is the contract of a function that does nothing.

ghost use Rattle.wedge_base.specs.Images.{Image};
ghost use Rattle.run_laws.specs.Laws.{CellsOpen, AccessesAreIsolated, MomentsAreLawful, InstructionsAreLawful, NamesAreDistinct, RunsWriteTheirOwn, RunsReadTheirOwn, LivesAreCounted, FuelIsKept, RootBounds, SlotsAreOccupied, AsksFit, RangesAreKept, CopiesAreGranted, GatesAreKept, NoneRunsWithin, GatesHeldAreOlder, RunsAreAlone, RunsEnd, EndedHaveJoinedAll, AllHaveEnded, DraftsAreSorted, AllowedCallsTakePlace};
ghost use Rattle.run_laws.specs.RootBegins.{RootBegins};
ghost use Rattle.run_laws.specs.Walks.{RootsWalk};

/// In every run, whatever the image and the order of the turns, each request that an instruction makes
/// takes place exactly where the actor's sheet allows it and nothing else refuses it; a denial names the
/// missing grant, and all else stays but that a load or store ends its actor and a call answers that it is
/// denied; where no request is in question nothing is denied. An instruction comes to the event that its word, the registers and
/// private memory say, and asks there for just that, whatever is replied. A call is refused with the code of its row. Each
/// actor ends exactly by the cause of its end, passes no instruction over, and pays exactly what each moment
/// costs: a unit of fuel for an instruction, and one for each byte that it reads or appends, and of the path of a root
/// directory or of a file that it opens. Its drafts are as its calls made them. Its private bytes are those that it stored, and
/// a load gives them. It starts and joins its own children alone, each with no more rights than it has itself, and makes
/// tags, gates and the copies with which children and the runs of gates begin by its own calls alone. It enters a gate that
/// it holds alone, and the run begins with the sheet, the argument and the fuel that the gate's maker fixed; with the memory that
/// the maker fixed too, or, in a recycled gate, with that which the gate's cell keeps; and with what the caller lends of its own
/// where that sheet names nothing. Each turn of an actor that waited for such a run begins with the
/// value, the end and the fuel that this run left, and each other turn with the actor as it was.
/// All this holds also of the instructions of an actor whose next event has to wait.
pub fn moments_are_lawful()
    ensures moments { MomentsAreLawful }
    ensures instructions { InstructionsAreLawful }
{}

/// In every run the bytes of each tag are those that the image declares, with the stores of the run
/// written over them in order, and each store was made by an actor with ReadWrite on the tag; the
/// bytes of each stream are those that the image declares, with the appends of the run behind them in order,
/// each by an actor with the bit to append. Which tag lives in a slot, its blocks, the kind of a stream and
/// whether it is open, and all else that the cells hold, is changed by their own events alone: no load or store
/// changes a tag's number, no append closes a stream.
pub fn runs_write_their_own()
    ensures { RunsWriteTheirOwn }
{}

/// In every run each load of a tag was made by an actor with Read on it or more, and each read of a stream by one with the
/// bit to read.
pub fn runs_read_their_own()
    ensures { RunsReadTheirOwn }
{}

/// As a run begins, the first slots have the declared tags and the first descriptors the declared streams, in order, with the
/// bytes that the image declares; nothing else is claimed, one sthread lives, and each recycled gate is free.
pub fn cells_open_by_their_rules()
    ensures { (image : Image) → CellsOpen image }
{}

/// As a run begins there is the root alone. It runs at the image's entry with the image's fuel, and its private memory is the image's
/// data, a private range of zeros, and a copy of each tag that is declared with the right to a copy alone. Its sheet has
/// exactly what the image declares.
pub fn root_begins_as_declared()
    ensures { RootBegins }
{}

/// In every world of a run each actor has a name of its own.
pub fn names_are_distinct()
    ensures { NamesAreDistinct }
{}

/// In every run the entries of the root are a walk of the root alone: each is an event that it asks at rest, and they
/// lead to what it is in the end, whatever the cells and the other actors do. Of other actors nothing is said here.
pub fn actors_walk()
    ensures { RootsWalk }
{}

/// In every world of a run the count of live sthreads is that of the actors that have not ended and are not runs of gates, and of
/// the children that are being prepared; and it is at most 256.
pub fn lives_are_counted()
    ensures { LivesAreCounted }
{}

/// In every run the fuel of the actors that are not joined yet is in sum that of the image, less exactly the units that the
/// turns took: a unit for each instruction, and one for each byte that was read or appended, and of the path of a root
/// directory or of a file that was opened. A start gives fuel to a child, and the entry of a gate to its run; a join, or the
/// end of a run, brings back what is left: none of them changes the sum.
/// So every run ends: it has at most 1,028 turns for each unit of fuel, and one.
pub fn fuel_is_kept()
    ensures sum { FuelIsKept }
    ensures ends { RunsEnd }
{}

/// In every world of a run, no actor has a right on a declared tag, or bits on a declared descriptor, that the root did
/// not have. Where the root's user is not 0, every actor has the root's user and root directory, and every actor's root directory
/// is under the root's.
pub fn rights_are_within_the_roots()
    ensures { RootBounds }
{}

/// In every world of a run a slot was never used, or was released, or is held by the call of one actor, or one tag lives
/// there; no two live tags have one number, and a tag lives nowhere but in the slot in which those that hold it have it, which is
/// one that there is. So a
/// claim gives a slot that was not claimed and is empty, and none is free where it gives none, since the numbers of tags outlast
/// the fuel of any image; a tag is opened in a claimed slot that is empty; and a slot that is released was claimed and is
/// empty, and can be claimed again.
pub fn slots_are_occupied()
    ensures { SlotsAreOccupied }
{}

/// What is asked of a cell in a turn of a run fits the cell: a slot and a descriptor are there; a load or a store is aligned and inside the window of its slot, and
/// goes there with the right on the tag that lives in the slot; and a recycled gate is free when it is entered, and
/// entered when a run leaves it, each with private memory that has the ranges of the image.
pub fn asks_fit_their_cells()
    ensures { AsksFit }
{}

/// In every world of a run every private memory has the ranges of the image, the private range and the data ranges, in
/// their order, each with the base and the length that it has there: the memory of each actor that has not ended, the one that is
/// prepared for a child or for the runs of a gate, the one with which the runs of each gate begin that an actor knows, and
/// the one that a recycled gate keeps for its next run. So a store or a read changes bytes of a range and never where it
/// lies, and a run begins with ranges as long as the image's.
pub fn memory_has_the_images_ranges()
    ensures { RangesAreKept }
{}

/// In every world of a run, each private copy of an actor is at the slot of a grant of a copy on its own sheet, and each copy with which the
/// runs of a gate begin is at the slot of one on the gate's.
pub fn copies_are_granted()
    ensures { CopiesAreGranted }
{}

/// In every world of a run an actor knows each gate that it holds, by its sheet or because it made it; the sheet of a gate names only gates
/// that were made before it; and a gate that an actor knows is the one that its maker made under that identity, whoever knows it.
pub fn gates_are_kept()
    ensures { GatesAreKept }
{}

/// If two worlds agree on an actor and on everything it may read, its next load, store, read or append has the same event and reply in
/// both. They agree where each tag that it may load from lives in the same slot with the same bytes or in neither, and each
/// descriptor on which it has a bit has the same stream; the access is in the slot of such a tag or on such a descriptor. The actor
/// then is the same in both, and they still agree.
pub fn accesses_are_isolated()
    ensures { AccessesAreIsolated }
{}

/// In every world of a run, each run of a gate has the gate's sheet, with what was lent to it where that names nothing, and so no other
/// grant of a copy. A recycled gate is entered exactly while one run of it has not ended, and what it keeps for the next run has the copies
/// alone that the gate's sheet grants.
pub fn runs_are_alone()
    ensures { RunsAreAlone }
{}

/// In every world of a run, no actor that runs a gate, and none that such a run started or that these started, holds that gate: what it holds
/// was made before the gate, or at or under the run. So no gate is entered from within.
pub fn gates_are_not_held_within()
    ensures own { NoneRunsWithin }
    ensures others { GatesHeldAreOlder }
{}

/// In every world of a run, an actor that has ended has joined every actor that it began. So once the root has ended, each
/// actor has: no child and no run of a gate outlives a complete run.
pub fn complete_runs_end_all()
    ensures joined { EndedHaveJoinedAll }
    ensures all { AllHaveEnded }
{}

/// In every run, at each instruction, the drafts of the actor have their tags, descriptors and gates in order, and at most 1,024
/// of them. So what a denied start, making or loan of a draft names is what its actor lacks first
/// (`excess_names_the_missing_grant` of grant_sheet).
pub fn drafts_are_sorted()
    ensures { DraftsAreSorted }
{}

/// In every run, a start of a child, a making or an entry of a gate, an opening of a file, a deletion of a tag and a placing of a
/// block that the rights of its actor allow and that nothing else refuses takes place: from that turn on the actor's turns are
/// exactly the events of one row of the table, one after another, and it carries out no instruction between them. After the last, the
/// deed is done and answered, or the row is one of those where nothing is left of what the call claims, and then the
/// call answers its code. A run may end on the way, but then it is not complete.
pub fn allowed_calls_take_place()
    ensures { AllowedCallsTakePlace }
{}
