//! The outcome, read off logs and histories.

ghost use Rattle.std.specs.Prelude.{◌≡◌, IfOk, length};
ghost use Rattle.thread_laws.specs.Joining.{journal_of, outcome_gathered};
ghost use Rattle.thread_laws.specs.Replaying.{all_histories};
ghost use Rattle.thread_laws.specs.KeptEntries.{entries_elsewhere};

use crate::actor_lines::lines_in;
use crate::labels::labels_in;
use crate::logs::logs_in_order;
use crate::sorts::JournalEntry;
use crate::stream_lines::stream_lines;
use image_form::Image;
use std::alloc::Global;
use thread_laws::Gathered;
use wedge_base::{Items, NoMemory, Outcome};

/// Returns the outcome: the lines of the actors, in the order of their names, and those of the
/// append streams, each as its history leaves it. The entries of the journal that are compared are enough: no
/// actor is created on a slot.
#[tactic(auto, using(crate::proofs::ComparedOrder::names_compared, crate::proofs::DeclaredHistories::streams_of_others))]
pub(crate) fn outcome_gathered(
    alloc: Global,
    image: &Image,
    journal: &[JournalEntry<'_>],
    gathered: &Gathered,
) -> Result<Outcome, NoMemory>
    requires { journal.now
        ≡ entries_elsewhere (length gathered.now.declared) (journal_of gathered.now.logs) }
    ensures { IfOk result (λ o. o
        ≡ outcome_gathered image.now gathered.now.logs (all_histories gathered.now)) }
{
    let logs = logs_in_order(alloc, gathered.logs.as_slice(), journal)?;
    let labels = labels_in(alloc, logs.as_slice())?;
    Ok(Outcome {
        actors: Items::new(lines_in(alloc, image, logs.as_slice())?),
        streams: Items::new(stream_lines(
            alloc,
            image,
            labels.as_slice(),
            gathered.others.as_slice(),
        )?),
    })
}
