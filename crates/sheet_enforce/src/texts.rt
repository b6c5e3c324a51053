//! Violations as text.

ghost use Rattle.std.specs.Prelude.{◌≡◌, ◌++◌, OnOk};
ghost use Rattle.std.specs.Fmt.{decimal};
ghost use Rattle.sheet_enforce.specs.Texts.{actor_access_text, violation_line, enforced_text};

use crate::violations::Violation;
use report_text::{write_address, write_name};
use std::string::ToString;
use wedge_base::NoMemory;

/// Appends the number of a turn in decimal, between two texts.
fn write_turn(out: &mut Vec<u8>, before: &[u8], turn: u64, after: &[u8]) -> Result<(), NoMemory>
    ensures { OnOk result
        (out.new.items ≡ out.old.items ++ before.now ++ decimal turn ++ after.now) }
{
    let text = turn.to_string(*out.allocator())?;
    out.extend_from_slice(before)?;
    out.extend_from_slice(text.as_bytes())?;
    out.extend_from_slice(after)?;
    Ok(())
}

/// Appends the actor, the address and the access of a violation.
#[tactic(auto, unfolding(crate::specs::Texts::actor_access_text))]
fn write_actor_access(out: &mut Vec<u8>, violation: &Violation) -> Result<(), NoMemory>
    ensures { OnOk result (out.new.items ≡ out.old.items ++ actor_access_text violation.now) }
{
    write_name(out, violation.actor.parts())?;
    out.push(b' ')?;
    write_address(out, violation.pc)?;
    out.push(b' ')?;
    out.extend_from_slice(violation.text.as_slice())?;
    Ok(())
}

/// Appends the line of a violation, `violation TURN ACTOR PC KIND MODE ITEM` and a line feed: the
/// turn in decimal, the actor's name with dots, the address in eight hexadecimal digits.
#[tactic(auto, unfolding(crate::specs::Texts::violation_line))]
pub fn write_violation(out: &mut Vec<u8>, violation: &Violation) -> Result<(), NoMemory>
    ensures { OnOk result (out.new.items ≡ out.old.items ++ violation_line violation.now) }
{
    write_turn(out, b"violation ", violation.turn, b" ")?;
    write_actor_access(out, violation)?;
    out.push(b'\n')?;
    Ok(())
}

/// Appends why a run is rejected by its first violation, `enforced at TURN: ACTOR PC KIND MODE ITEM`
/// with the same forms, and no line feed.
#[tactic(auto, unfolding(crate::specs::Texts::enforced_text))]
pub fn write_enforced(out: &mut Vec<u8>, violation: &Violation) -> Result<(), NoMemory>
    ensures { OnOk result (out.new.items ≡ out.old.items ++ enforced_text violation.now) }
{
    write_turn(out, b"enforced at ", violation.turn, b": ")?;
    write_actor_access(out, violation)?;
    Ok(())
}
