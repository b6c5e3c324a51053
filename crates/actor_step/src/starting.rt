//! Starting and joining children.

ghost use Rattle.std.specs.Prelude.{◌≡◌, ◌<◌, Some, None, length, IfOk, OnOk};
ghost use Rattle.wedge_base.specs.Sheets as sheets;
ghost use Rattle.machine.specs.declared.phase.Phase.TheVariants as phase;
ghost use Rattle.machine.specs.Calls as calls;
ghost use Rattle.machine.specs.Take as taking;
ghost use Rattle.cow_pages.specs.PrivateMemory.{PrivateMemory, no_memory};
ghost use Rattle.image_form.specs.Rules.{most_fuel};
ghost use Rattle.machine.specs.Actors.{pristine, whole};
ghost use Rattle.machine.specs.Between.{AreInSlots, funds};

use cow_pages::PrivateView;
use grant_sheet::first_excess;
use image_form::Image;
use machine::{A0, A1, A3, Actor, Phase, Preparation, copy_grants};
use ready_text::Program;
use wedge_base::{Code, Denial, MOST_PARTS, NoMemory};
use wedge_events::{LivesAsk, Want};

/// The call that starts a child, up to the claim of a life for it.
pub(crate) fn create(actor: &mut Actor, image: &Image) -> Result<(), NoMemory>
    requires { funds actor.old.starts actor.old.made.count actor.old.fuel actor.old.unjoined
        < most_fuel }
    ensures { OnOk result ((m : PrivateMemory) → whole actor.new m
        ≡ calls.create image.now (whole actor.old m)) }
{
    let number = actor.hart.reg(A0) as usize;
    if number >= actor.drafts.len() {
        actor.refuse(Code::NoSuch);
        return Ok(());
    }
    if image.proc_at(actor.hart.reg(A1)).is_none() {
        actor.refuse(Code::Bad);
        return Ok(());
    }
    let excess = first_excess(&actor.sheet, &actor.made, &actor.drafts[number]);
    create_checked(actor, excess)
}

/// The call that starts a child, with the first part of the draft that it may not give.
fn create_checked(actor: &mut Actor, excess: Option<Denial>) -> Result<(), NoMemory>
    requires paid { funds actor.old.starts actor.old.made.count actor.old.fuel actor.old.unjoined
        < most_fuel }
    requires drafted { calls.a0 (whole actor.old no_memory) < length actor.old.drafts }
    requires excess { excess ≡ sheets.first_excess actor.old.sheet actor.old.made
        (calls.draft_at actor.old.drafts (calls.a0 (whole actor.old no_memory))) }
    ensures { OnOk result ((m : PrivateMemory) → whole actor.new m
        ≡ calls.create_checked (whole actor.old m) excess) }
{
    match excess {
        Some(denial) => {
            actor.note(denial)?;
            actor.refuse(Code::Denied);
        }
        None => create_allowed(actor),
    }
    Ok(())
}

/// The call that starts a child, where it may give every grant of the draft.
fn create_allowed(actor: &mut Actor)
    requires room { funds actor.old.starts actor.old.made.count actor.old.fuel actor.old.unjoined
        < most_fuel }
    requires drafted { calls.a0 (whole actor.old no_memory) < length actor.old.drafts }
    requires allowed { sheets.first_excess actor.old.sheet actor.old.made
        (calls.draft_at actor.old.drafts (calls.a0 (whole actor.old no_memory))) ≡ None }
    ensures { (m : PrivateMemory) → whole actor.new m
        ≡ calls.create_allowed (whole actor.old m) }
{
    if actor.name.parts().len() >= MOST_PARTS {
        actor.refuse(Code::Deep);
    } else if actor.fuel < actor.hart.reg(A3) {
        actor.refuse(Code::FuelShort);
    } else {
        actor.phase = Phase::Within(Want::Lives(LivesAsk::Claim));
    }
}

/// The call that joins a child.
pub(crate) fn join(actor: &mut Actor)
    ensures { (m : PrivateMemory) → whole actor.new m ≡ calls.join (whole actor.old m) }
{
    let child = actor.hart.reg(A0);
    if actor.unjoined.contains(child) {
        actor.phase = Phase::Within(Want::Join { child });
    } else {
        actor.refuse(Code::NoSuch);
    }
}

/// The pristine memory for a child or for the runs of a gate, and the grants of copies that these are to have.
pub fn preparation(actor: &Actor, program: &Program<'_>) -> Result<Preparation, NoMemory>
    requires { calls.a0 (whole actor.now no_memory) < length actor.now.drafts }
    ensures is { IfOk result (λ p. p ≡ record {
      memory = pristine program.now;
      left = taking.copies_asked (whole actor.now no_memory);
    }) }
    ensures placed { IfOk result (λ p. AreInSlots p.left) }
{
    let alloc = actor.alloc;
    let draft = &actor.drafts[actor.hart.reg(A0) as usize];
    let grants = copy_grants(alloc, &actor.sheet, &actor.made, draft)?;
    let memory = PrivateView::new(alloc, program.pristine())?;
    Preparation::new(alloc, memory, grants)
}
