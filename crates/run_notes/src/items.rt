//! What is accessed.

ghost use Rattle.std.specs.Prelude.{◌≡◌, None, IfOk, OnErr, OnOk, option_copied};
ghost use Rattle.wedge_base.specs.Maps.{with};
ghost use Rattle.run_notes.specs.Items as items;

use crate::doer::Doer;
use grant_sheet::{NumberMap, Sheet};
use image_form::Image;
use machine::StreamLabel;
use std::alloc::Global;
use wedge_base::{FdNo, Grant, NoMemory, PathText, Right, Slot, TagNo};
use wedge_events::{Event, SlotAsk, SlotReply, StreamAsk, StreamReply};

/// What is accessed.
#[derive(Debug, Drop)]
pub enum NoteItem {
    /// A tag of the image, or a private copy of it.
    Declared { tag: TagNo },
    /// A tag that a run made, or a private copy of it: the compartment that made it, and the address of the call.
    Made { compartment: u32, pc: u32 },
    /// A descriptor of the image.
    Fd { number: FdNo },
    /// A file, by its path.
    File { path: PathText },
    /// A gate, by the address of its entry.
    Gate { entry: u32 },
}

/// The compartment that made a tag, and the address of the call.
#[derive(Clone, Copy, Debug, PartialEq, Eq)]
pub struct Origin {
    pub compartment: u32,
    pub pc: u32,
}

/// What a run has made so far: the origin of each tag by its number, and the path of each file by the number of its
/// descriptor. Both are found by binary search.
#[derive(Debug, Drop)]
pub struct Makings {
    pub tags: NumberMap<Origin>,
    pub files: NumberMap<PathText>,
}

impl Makings {
    /// Nothing.
    pub fn new(alloc: Global) -> Makings
        ensures { result ≡ items.no_makings }
    {
        Makings {
            tags: NumberMap::new(alloc),
            files: NumberMap::new(alloc),
        }
    }

    /// The item of a tag.
    pub fn tag_item(&self, image: &Image, tag: TagNo) -> NoteItem
        ensures { result ≡ items.tag_item image.now self.now tag }
    {
        if (tag.0 as usize) < image.tags().len() {
            return NoteItem::Declared { tag };
        }
        match self.tags.get(tag.0) {
            None => NoteItem::Declared { tag },
            Some(origin) => NoteItem::Made {
                compartment: origin.compartment,
                pc: origin.pc,
            },
        }
    }

    /// The item of a descriptor.
    pub fn fd_item(&self, image: &Image, number: FdNo) -> Result<NoteItem, NoMemory>
        ensures { IfOk result (λ it. it ≡ items.fd_item image.now self.now number) }
    {
        if (number.0 as usize) < image.fds().len() {
            return Ok(NoteItem::Fd { number });
        }
        match self.files.get(number.0) {
            None => Ok(NoteItem::Fd { number }),
            Some(path) => Ok(NoteItem::File { path: path.copy()? }),
        }
    }

    /// The item of the private copy at a slot, by the grants of a sheet. None where none of them is of a copy there.
    pub fn copy_item(&self, image: &Image, sheet: &Sheet, slot: Slot) -> Option<NoteItem>
        ensures { result ≡ items.copy_item image.now self.now sheet.now slot }
    {
        let tag = greatest_copy(sheet.tags().as_slice(), slot)?;
        Some(self.tag_item(image, TagNo(tag)))
    }

    /// Keeps what an event makes: a tag that is opened, and the path of a file, which is the last of those that the
    /// actor keeps after the event. Out of memory all is as it was.
    pub fn add(
        &mut self,
        doer: &Doer,
        labels: &[StreamLabel],
        event: &Event,
    ) -> Result<(), NoMemory>
        ensures ok { OnOk result
            (self.new ≡ items.makings_after self.old doer.now labels.now event.now) }
        ensures err { OnErr result (self.new ≡ self.old) }
    {
        match event {
            Event::Slot {
                ask: SlotAsk::Open { tag, .. },
                reply: SlotReply::Opened,
                ..
            } => self.add_tag(doer, *tag),
            Event::Fd {
                fd,
                ask: StreamAsk::Open { .. },
                reply: StreamReply::Opened,
            } => self.add_file(labels, *fd),
            _ => Ok(()),
        }
    }

    /// Keeps the origin of a tag that an actor opens.
    fn add_tag(&mut self, doer: &Doer, tag: TagNo) -> Result<(), NoMemory>
        ensures ok { OnOk result (self.new ≡ record self.old {
          tags = with self.old.tags tag
              (record { compartment = doer.now.compartment; pc = doer.now.pc });
        }) }
        ensures err { OnErr result (self.new ≡ self.old) }
    {
        let origin = Origin {
            compartment: doer.compartment,
            pc: doer.pc,
        };
        self.tags.insert(tag.0, origin)
    }

    /// Keeps the path of the file that an actor opened.
    fn add_file(&mut self, labels: &[StreamLabel], number: FdNo) -> Result<(), NoMemory>
        ensures ok { OnOk result (self.new ≡ record self.old {
          files = items.with_label self.old.files
              number (items.last_label labels.now);
        }) }
        ensures err { OnErr result (self.new ≡ self.old) }
    {
        match last_label(labels) {
            None => Ok(()),
            Some(label) => self.files.insert(number.0, label.path.copy()?),
        }
    }
}

/// The last path that an actor keeps.
fn last_label(labels: &[StreamLabel]) -> Option<&StreamLabel>
    ensures { option_copied result ≡ items.last_label labels.now }
{
    labels.get(labels.len().saturating_sub(1))
}

/// Whether a grant is of a copy, of a tag that was opened in this slot.
fn is_copy_in(slot: Slot, grant: &Grant) -> bool
    ensures { result ≡ items.is_copy_in slot grant.now }
{
    matches!(grant.right, Right::Cow) && grant.slot.0 == slot.0
}

/// The greatest number of a tag of which a copy at a slot is granted.
fn greatest_copy(grants: &[(u32, Grant)], slot: Slot) -> Option<u32>
    ensures { result ≡ items.greatest_copy slot None grants.now }
{
    let mut best: Option<u32> = None;
    for (tag, grant) in grants {
        if is_copy_in(slot, grant) {
            best = Some(match best {
                Some(other) => other.max(*tag),
                None => *tag,
            });
        }
    }
    best
}
