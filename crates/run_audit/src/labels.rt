//! The paths of the files that actors opened.

ghost use Rattle.std.specs.Prelude.{◌≡◌, ◌++◌, [], unwrap_or, IfOk};
ghost use Rattle.std.specs.Option.{option_copied};
ghost use Rattle.machine.specs.Outcomes as outcomes;
ghost use Rattle.thread_laws.specs.Joining.{labels_in};

use crate::logs::LogReference;
use image_form::Image;
use machine::StreamLabel;
use std::alloc::Global;
use std::marker::Model;
use wedge_base::{Bytes, Items, NoMemory, PathText};

/// A label by reference. Contracts see it as the label.
#[derive(Drop)]
pub(crate) struct LabelReference<'a> {
    pub label: &'a StreamLabel,
}

impl<'a> Model for LabelReference<'a> {
    ghost use Rattle.machine.specs.declared.opening.StreamLabel.{StreamLabel as Plain};

    ghost Value = { Plain };

    ghost view = { λ p. p.label.now };
}

/// Adds references to labels after others.
fn add_labels<'a>(
    mut all: Vec<LabelReference<'a>>,
    labels: &'a [StreamLabel],
) -> Result<Vec<LabelReference<'a>>, NoMemory>
    ensures { IfOk result (λ v. v.items ≡ all.entry.items ++ labels.now) }
{
    for label in labels {
        all.push(LabelReference { label })?;
    }
    Ok(all)
}

/// Returns references to the labels of all logs, log by log.
pub(crate) fn labels_in<'a>(
    alloc: Global,
    logs: &[LogReference<'a>],
) -> Result<Vec<LabelReference<'a>>, NoMemory>
    ensures { IfOk result (λ v. v.items ≡ labels_in logs.now) }
{
    let mut all = Vec::new(alloc);
    for item in logs {
        all = add_labels(all, item.log.labels.as_slice())?;
    }
    Ok(all)
}

/// Returns the first path of a number among labels.
fn path_of<'a>(labels: &[LabelReference<'a>], number: u32) -> Option<&'a PathText>
    ensures { unwrap_or (option_copied result) [] ≡ outcomes.path_of labels.now number }
{
    for item in labels {
        let label = item.label;
        if label.number.0 == number {
            return Some(&label.path);
        }
    }
    None
}

/// Returns the name under which a descriptor was declared, or else the path under which an actor
/// opened it, which is empty if none did.
pub(crate) fn label_of(
    alloc: Global,
    image: &Image,
    labels: &[LabelReference<'_>],
    number: u32,
) -> Result<Bytes, NoMemory>
    ensures { IfOk result (λ b. b ≡ outcomes.label_of image.now labels.now number) }
{
    match image.fds().get(number as usize) {
        Some(fd) => Ok(fd.name.clone()?),
        None => match path_of(labels, number) {
            Some(path) => Ok(Bytes::from_slice(alloc, path.as_slice())?),
            None => Ok(Items::new(Vec::new(alloc))),
        },
    }
}
