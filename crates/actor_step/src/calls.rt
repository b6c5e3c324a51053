//! Service calls: what the actor itself decides.

ghost use Rattle.std.specs.Prelude.{◌≡◌, ◌<◌, OnOk};
ghost use Rattle.machine.specs.declared.phase.Phase.TheVariants as phase;
ghost use Rattle.machine.specs.Calls as calls;
ghost use Rattle.machine.specs.Actors.{whole};
ghost use Rattle.image_form.specs.Rules.{most_fuel};
ghost use Rattle.machine.specs.Between.{funds};

use crate::drafting::draft_call;
use crate::entering::cgate;
use crate::files::file_open;
use crate::making::cgate_make;
use crate::starting::{create, join};
use crate::streams::{fd_append, fd_close, fd_read};
use crate::tags::{sfree, smalloc, tag_delete, tag_new};
use cow_pages::PrivateView;
use machine::{A0, A7, Actor};
use ready_text::Program;
use wedge_base::{End, NoMemory, Service};

/// The service call at hand, up to the event that it wants.
#[inline(never)]
#[tactic(auto, unfolding(machine::specs::Calls::serves))]
pub(crate) fn serve(
    actor: &mut Actor,
    program: &Program<'_>,
    memory: &PrivateView,
) -> Result<(), NoMemory>
    requires running { actor.old.phase ≡ phase.Running }
    requires paid { funds actor.old.starts actor.old.made.count actor.old.fuel actor.old.unjoined
        < most_fuel }
    ensures { OnOk result (whole actor.new memory.now
        ≡ calls.serves program.now (whole actor.old memory.now)
        (calls.a7 (whole actor.old memory.now))) }
{
    let image = program.image();
    let number = actor.hart.reg(A7);
    if number == Service::Exit.number() {
        let value = actor.hart.reg(A0);
        actor.end(End::Exited(value));
    } else if number == Service::SthreadCreate.number() {
        create(actor, image)?;
    } else if number == Service::SthreadJoin.number() {
        join(actor);
    } else if number == Service::TagNew.number() {
        tag_new(actor);
    } else if number == Service::TagDelete.number() {
        tag_delete(actor)?;
    } else if number == Service::Smalloc.number() {
        smalloc(actor)?;
    } else if number == Service::Sfree.number() {
        sfree(actor);
    } else if number == Service::CgateMake.number() {
        cgate_make(actor, program, memory)?;
    } else if number == Service::Cgate.number() {
        cgate(actor)?;
    } else if number == Service::FdRead.number() {
        fd_read(actor, memory);
    } else if number == Service::FdAppend.number() {
        fd_append(actor, image, memory)?;
    } else if number == Service::FdClose.number() {
        fd_close(actor);
    } else if number == Service::FileOpen.number() {
        file_open(actor, image, memory)?;
    } else {
        draft_call(actor, image, memory, number)?;
    }
    Ok(())
}
