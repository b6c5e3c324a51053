//! Laws of the definitions: each is the contract of a function that does nothing.

ghost use Rattle.thread_laws.specs.ActorWalks.{EveryActorWalks};
ghost use Rattle.thread_laws.specs.Auditing.{ComparedAgree, DifferentDisagree};
ghost use Rattle.thread_laws.specs.ActorProgresses.{ProgressKeepsAccount, ReturnedLogsAreFamilies};
ghost use Rattle.thread_laws.specs.CacheLines.{CachesAreCounted};
ghost use Rattle.thread_laws.specs.Joining.{GatheredIsRun};
ghost use Rattle.thread_laws.specs.Forests.{ForestIsExecutions};
ghost use Rattle.thread_laws.specs.Laws.{ExecutionsAreARun};
ghost use Rattle.thread_laws.specs.Replaying.{KeptAreLegal};
ghost use Rattle.thread_laws.specs.Sorting.{OrderIsMerge};

/// Where the executions of actors fit together, their entries in the order of the stamps are a complete
/// run, if those of each cell are a legal history of it.
pub fn executions_are_a_run()
    ensures { ExecutionsAreARun }
{}

/// The root with all that it created, and that these created, are executions that fit together, each with
/// a name of its own.
pub fn forest_is_executions()
    ensures { ForestIsExecutions }
{}

/// The entries of executions that fit together, put in the order of their stamps, and those of one stamp in
/// that of their actors' names, are a merge of them.
pub fn order_is_merge()
    ensures { OrderIsMerge }
{}

/// Where the logs of a run on threads are walked, the histories of its cells are legal, and both agree, the
/// journal is a complete run, with the outcome that is read off the logs and the histories. The journal is
/// all logged entries in the order of their stamps, those of one stamp by the names of their actors.
pub fn gathered_is_run()
    ensures { GatheredIsRun }
{}

/// Where the logs of a run on threads are walked, their counts are for the entries of the journal: there are
/// counts for each actor that the outcome lists, in that order, of as many look-ups as the actor's entries in
/// the journal made; and where none was refused, the hits are those of a cache of 8 tags.
pub fn caches_are_counted()
    ensures { CachesAreCounted }
{}

/// What the thread of an actor returns are the logs of a family: of whole executions, one for each actor
/// that it created, and that these created, and no other.
pub fn returned_logs_are_families()
    ensures { ReturnedLogsAreFamilies }
{}

/// Of an actor that began with no child to join, those that it has not joined are among those that it
/// created, each with the fuel with which it began; and it has at most the fuel with which it began itself.
pub fn progress_keeps_account()
    ensures { ProgressKeepsAccount }
{}

/// The histories that the locked cells of a run kept are legal.
pub fn kept_are_legal()
    ensures { KeptAreLegal }
{}

/// Where each listed cell has the history that the journal has, and each entry of a cell is of a listed one,
/// both agree; and where one difference is found they do not.
pub fn compared_agree()
    ensures agree { ComparedAgree }
    ensures differ { DifferentDisagree }
{}

/// From each moment of a run on, the entries of every actor that is there are a walk of it, which leads to
/// what it is in the end.
pub fn every_actor_walks()
    ensures { EveryActorWalks }
{}
