//! An actor: the root, a child, or the run of a gate.

ghost use Rattle.std.specs.Prelude.{◌≡◌, ◌≤◌, ◌++◌, ◌∷◌, [], length, map, IfOk, OnOk, OnErr, Some, true, false};
ghost use Rattle.std.specs.List.{AllByRecursion};
ghost use Rattle.image_form.specs.Rules.{IsTag};
ghost use Rattle.machine.specs.Preparation.{with_declared};
ghost use Rattle.cow_pages.specs.PrivateMemory.{PrivateMemory};
ghost use Rattle.rv_hart.specs.Local.{hart_after_call};
ghost use Rattle.machine.specs.Between.{HoldsInSlots};
ghost use Rattle.wedge_base.specs.Sheets.{root_sheet, nothing_made};
ghost use Rattle.machine.specs.declared.phase.Phase.TheVariants as phase;
ghost use Rattle.machine.specs.Actors as actors;
ghost use Rattle.machine.specs.Actors.{whole};
ghost use Rattle.machine.specs.Local.{has_ended, end_reached, run_awaited};
ghost use Rattle.machine.specs.Children.{fuel_given};
ghost use Rattle.std.specs.Arc.{arc_value};
ghost use Rattle.machine.specs.Take.{pair, asks};

use crate::children::Children;
use crate::copy_grant::is_copy_alone;
use crate::ended::EndedActor;
use crate::opening::StreamLabel;
use crate::phase::Phase;
use crate::registers::SP;
use callgate::Gate;
use cow_pages::{Pages, PrivateView};
use grant_sheet::{Draft, Made, Sheet, right_on};
use image_form::Image;
use ready_text::Program;
use rv_hart::Hart;
use std::alloc::Global;
use std::marker::Model;
use std::sync::Arc;
use wedge_base::{
    ActorName, Code, Denial, DenialAt, End, Items, NoMemory, PRIVATE_BASE, PRIVATE_SIZE, PathText,
    Slot, TagEntry, TagNo,
};
use wedge_events::{Ask, Live, Want};

/// An actor: its sheet, its registers, its fuel, the actors that it began and has not joined, and
/// what it is at. Its private memory is kept beside it. Once it ran out of memory it has stopped,
/// and takes no further part in a run.
#[derive(Debug)]
pub struct Actor {
    pub alloc: Global,
    pub name: ActorName,
    pub compartment: u32,
    /// The gate, if it is the run of one.
    pub run_of: Option<Arc<Gate>>,
    pub sheet: Sheet,
    pub made: Made,
    /// The gates that it knows: those that its starter knew when it started it, and those that it made. That a gate is among
    /// them is no right to enter it.
    pub gates: Vec<Arc<Gate>>,
    /// The paths of the files that it opened.
    pub labels: Items<StreamLabel>,
    pub drafts: Vec<Draft>,
    pub hart: Hart,
    pub fuel: u32,
    pub denials: Items<DenialAt>,
    /// How many actors it started.
    pub starts: u32,
    pub unjoined: Children,
    pub phase: Phase,
    pub stopped: bool,
}

// By hand, so that who drops an actor calls this function: a derived one would be proved again at each place.
impl Drop for Actor {
    fn drop(self) {
        let Self {
            alloc: _,
            name: _,
            compartment: _,
            run_of: _,
            sheet: _,
            made: _,
            gates: _,
            labels: _,
            drafts: _,
            hart: _,
            fuel: _,
            denials: _,
            starts: _,
            unjoined: _,
            phase: _,
            stopped: _,
        } = self;
    }
}

impl Model for Actor {
    ghost use Rattle.machine.specs.Actors.{ActorRecord};
    ghost use Rattle.std.specs.Arc.{arc_value};
    ghost use Rattle.std.specs.Prelude.{◌≡◌, ◌≤◌, true, map, option_map};
    ghost use Rattle.machine.specs.Children.{is_child};
    ghost use Rattle.image_form.specs.Rules.{most_fuel};
    ghost use Rattle.machine.specs.Between.{AreGatesPlaced, AsksPages, HoldsInSlots, IsEntering, IsReady, IsGranting, IsNextName, PhaseFitsWhere, funds};

    ghost Value = { ActorRecord };

    ghost view = { λ a. record {
      name = a.name;
      compartment = a.compartment;
      run_of = option_map arc_value a.run_of;
      sheet = a.sheet;
      made = a.made;
      gates = map arc_value a.gates.items;
      labels = a.labels;
      drafts = a.drafts.items;
      hart = a.hart;
      fuel = a.fuel;
      denials = a.denials;
      starts = a.starts;
      unjoined = a.unjoined;
      phase = a.phase;
      stopped = a.stopped;
    } };

    ghost invariant = { λ a. record {
      fits : PhaseFitsWhere (AsksPages a.hart) (IsReady a.name a.sheet a.made a.drafts.items a.hart
          a.fuel a.starts a.unjoined) (IsGranting a.sheet a.made a.drafts.items a.hart a.fuel
          a.starts a.unjoined)
          (IsEntering a.name a.made a.fuel a.starts a.unjoined) (IsNextName a.name a.starts)
          (λ k. is_child a.unjoined k ≡ true) a.phase;
      placed : HoldsInSlots a.sheet a.made;
      gates : AreGatesPlaced (map arc_value a.gates.items);
      funded : funds a.starts a.made.count a.fuel a.unjoined ≤ most_fuel;
    } };
}

impl Actor {
    /// The root of an image's run as it begins, and its private memory, with a copy of each declared tag on which it has
    /// the right to a copy.
    pub fn root(alloc: Global, program: &Program<'_>) -> Result<(Actor, PrivateView), NoMemory>
        ensures is { IfOk result (λ r. whole r.0 r.1 ≡ actors.root program.now) }
        ensures going { IfOk result (λ r. r.0.stopped ≡ false) }
    {
        let memory = root_memory(alloc, program)?;
        let actor = Actor::root_record(alloc, program.image())?;
        Ok((actor, memory))
    }

    /// The root but for its private memory.
    #[tactic(auto, unfolding(crate::specs::Actors::root))]
    fn root_record(alloc: Global, image: &Image) -> Result<Actor, NoMemory>
        ensures is { IfOk result (λ a. whole a (actors.root_memory image.now)
            ≡ actors.root image.now) }
        ensures going { IfOk result (λ a. a.stopped ≡ false) }
    {
        let mut hart = Hart::new(image.entry());
        hart.put(SP, PRIVATE_BASE + PRIVATE_SIZE);
        Ok(Actor {
            alloc,
            name: ActorName::root(alloc)?,
            compartment: image.entry(),
            run_of: None,
            sheet: root_sheet(alloc, image)?,
            made: Made::new(alloc),
            gates: Vec::new(alloc),
            labels: Items::new(Vec::new(alloc)),
            drafts: Vec::new(alloc),
            hart,
            fuel: image.fuel(),
            denials: Items::new(Vec::new(alloc)),
            starts: 0,
            unjoined: Children::new(alloc),
            phase: Phase::Running,
            stopped: false,
        })
    }

    /// Returns its name.
    pub fn name(&self) -> &ActorName
        ensures { result.now ≡ self.now.name }
    {
        &self.name
    }

    /// The address of the procedure at which it began.
    pub fn compartment(&self) -> u32
        ensures { result ≡ self.now.compartment }
    {
        self.compartment
    }

    /// The address of its next instruction, or of the one that ended it.
    pub fn pc(&self) -> u32
        ensures { result ≡ self.now.hart.pc }
    {
        self.hart.pc
    }

    /// The units of fuel that it has left.
    pub fn fuel(&self) -> u32
        ensures { result ≡ self.now.fuel }
    {
        self.fuel
    }

    /// Returns its denials, in order.
    pub fn denials(&self) -> &Items<DenialAt>
        ensures { result.now ≡ self.now.denials }
    {
        &self.denials
    }

    /// Returns the paths of the files that it opened, with the numbers of their descriptors, in order.
    pub fn labels(&self) -> &Items<StreamLabel>
        ensures { result.now ≡ self.now.labels }
    {
        &self.labels
    }

    /// Returns the gates that it knows, in the order in which it came to know them: those that its starter
    /// knew, and then its own.
    pub fn gates(&self) -> &[Arc<Gate>]
        ensures { map arc_value result.now ≡ self.now.gates }
    {
        self.gates.as_slice()
    }

    /// The fuel with which its k-th start began, unless that was joined.
    pub fn fuel_given(&self, k: u32) -> Option<u32>
        ensures { result ≡ fuel_given self.now.unjoined k }
    {
        self.unjoined.given(k)
    }

    /// Returns what it is at.
    pub fn phase(&self) -> &Phase
        ensures { result.now ≡ self.now.phase }
    {
        &self.phase
    }

    /// Whether it has ended.
    #[inline(always)]
    pub fn has_ended(&self) -> bool
        ensures { result ≡ has_ended self.now.phase }
    {
        matches!(self.phase, Phase::Ended(_))
    }

    /// Its end, if it has ended.
    pub fn end_reached(&self) -> Option<End>
        ensures { result ≡ end_reached self.now.phase }
    {
        match &self.phase {
            Phase::Ended(end) => Some(*end),
            _ => None,
        }
    }

    /// The number among its starts of the run for which it waits.
    pub fn run_awaited(&self) -> Option<u32>
        ensures { result ≡ run_awaited self.now.phase }
    {
        match &self.phase {
            Phase::Waiting { run } => Some(*run),
            _ => None,
        }
    }

    /// What it asks for what it wants, where this tag lives in the slot.
    #[inline(always)]
    pub fn ask(&self, want: Want, live: Option<TagNo>) -> Ask
        ensures { (m : PrivateMemory) → result ≡ asks (whole self.now m) live want }
    {
        want.with(self.pair(live))
    }

    /// The tag that lives in a slot, with its right on it.
    #[inline(always)]
    pub fn pair(&self, live: Option<TagNo>) -> Option<Live>
        ensures { (m : PrivateMemory) → result ≡ pair (whole self.now m) live }
    {
        let tag = live?;
        let right = right_on(&self.sheet, &self.made, tag);
        Some(Live { tag, right })
    }

    /// Answers a service call with a value and a code.
    pub fn answer(&mut self, value: u32, code: u32)
        ensures { self.new ≡ record self.old
            { hart = hart_after_call self.old.hart value code; phase = phase.Running } }
    {
        self.hart.answer(value, code, None);
        self.phase = Phase::Running;
    }

    /// Refuses a service call.
    pub fn refuse(&mut self, code: Code)
        ensures { self.new ≡ record self.old
            { hart = hart_after_call self.old.hart 0 (actors.code_number code); phase = phase.Running } }
    {
        self.answer(0, code_number(code));
    }

    /// Decides its end.
    pub fn end(&mut self, end: End)
        ensures { self.new ≡ record self.old { phase = phase.Ending end } }
    {
        self.phase = Phase::Ending(end);
    }

    /// Notes a denial of the instruction at hand.
    #[inline(never)]
    pub fn note(&mut self, denial: Denial) -> Result<(), NoMemory>
        ensures ok { OnOk result (self.new
            ≡ record self.old {
              denials = self.old.denials
                  ++ record { pc = self.old.hart.pc; denial = denial } ∷ [];
            }) }
        ensures err { OnErr result (self.new ≡ self.old) }
    {
        let pc = self.hart.pc;
        self.denials.push(DenialAt { pc, denial })
    }
}

/// The private memory with which the root of an image's run begins.
fn root_memory(alloc: Global, program: &Program<'_>) -> Result<PrivateView, NoMemory>
    ensures { IfOk result (λ m. m ≡ actors.root_memory program.now) }
{
    let mut memory = PrivateView::new(alloc, program.pristine())?;
    copy_declared(alloc, program.image().tags(), &mut memory)?;
    Ok(memory)
}

/// Makes a private copy of each declared tag on which the root has the right to a copy alone.
fn copy_declared(alloc: Global, tags: &[TagEntry], memory: &mut PrivateView) -> Result<(), NoMemory>
    requires few { length tags.now ≤ 256 }
    requires each { AllByRecursion IsTag tags.now }
    ensures { OnOk result (memory.new ≡ record memory.old
        { copies = with_declared memory.old.copies 0 tags.now }) }
{
    let mut number = 0u32;
    for tag in tags {
        if is_copy_alone(tag.right) {
            let pages = Pages::new(alloc, tag.content.as_slice(), tag.pages)?;
            memory.put_copy(Slot(number), pages)?;
        }
        number += 1;
    }
    Ok(())
}

/// The sheet with which the root of an image's run begins. The tags of its grants are in slots that are there.
fn root_sheet(alloc: Global, image: &Image) -> Result<Sheet, NoMemory>
    ensures is { IfOk result (λ s. s ≡ root_sheet image.now.tags image.now.fds image.now.user
        image.now.root) }
    ensures placed { IfOk result (λ s. HoldsInSlots s nothing_made) }
{
    let root = root_path(image)?;
    Ok(Sheet::root(alloc, image.tags(), image.fds(), image.user(), root)?)
}

/// The root directory of an image.
fn root_path(image: &Image) -> Result<PathText, NoMemory>
    ensures { IfOk result (λ p. p ≡ image.now.root) }
{
    Ok(PathText::new(image.root().copy()?))
}

/// The number of a code, as programs see it.
fn code_number(code: Code) -> u32
    ensures { result ≡ actors.code_number code }
{
    match code {
        Code::Ok => 0,
        Code::Denied => 1,
        Code::Full => 2,
        Code::FuelShort => 3,
        Code::Deep => 4,
        Code::NoSuch => 5,
        Code::Bad => 6,
    }
}

impl Actor {
    /// Consumes an actor that has ended, and returns what is left of it. It takes no memory.
    pub fn into_ended(self) -> EndedActor
        requires { has_ended self.phase ≡ true }
        ensures end { end_reached self.phase ≡ Some result.end }
        ensures rest { result ≡ record {
          name = self.name;
          compartment = self.compartment;
          end = result.end;
          pc = self.hart.pc;
          fuel = self.fuel;
          denials = self.denials;
          labels = self.labels;
        } }
    {
        let Self {
            alloc: _alloc,
            name,
            compartment,
            run_of: _run_of,
            sheet: _sheet,
            made: _made,
            gates: _gates,
            labels,
            drafts: _drafts,
            hart,
            fuel,
            denials,
            starts: _starts,
            unjoined: _unjoined,
            phase,
            stopped: _stopped,
        } = self;
        let Phase::Ended(end) = phase else {
            unreachable!()
        };
        EndedActor {
            name,
            compartment,
            end,
            pc: hart.pc,
            fuel,
            denials,
            labels,
        }
    }
}
