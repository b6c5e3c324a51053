//! The words of a statement.

ghost use Rattle.std.specs.Prelude.{◌≡◌, ◌<◌, ◌≤◌, [], ◌∷◌};
ghost use Rattle.rv_asm.specs.Assembly as assembly;
ghost use Rattle.rv_asm.specs.Assembly.{HasView};
ghost use Rattle.rv_asm.specs.Views.{number_view, template_view, statement_view, equates_view, labels_view, code_view};

use crate::encoding::{add_word, call_word, distance, encoded, load_two, word_of};
use crate::fault::Why;
use crate::labels::{Equates, Labels};
use crate::numbers::Number;
use crate::ranges::{immediate, is_small, is_word};
use crate::services::service_immediate;
use crate::statements::Statement;
use crate::templates::{Register, Template};
use rv_isa::{Form, Instr};

/// The words of a statement.
#[derive(Clone, Copy, Debug)]
pub(crate) enum Code {
    Empty,
    One(u32),
    Two(u32, u32),
}

/// An integer.
fn integer(equates: &Equates<'_>, number: Number<'_>) -> Result<i64, Why>
    ensures { result ≡ assembly.integer (equates_view equates.now) (number_view number.entry) }
{
    match number {
        Number::Literal(z) => Ok(z),
        Number::Named(name) => match equates.get(name) {
            Some(value) => Ok(i64::from(value)),
            None => Err(Why::Label),
        },
    }
}

/// The distance to a label, or an integer.
fn target(
    equates: &Equates<'_>,
    labels: &Labels<'_>,
    at: u32,
    number: Number<'_>,
) -> Result<i64, Why>
    ensures { result ≡ assembly.target (equates_view equates.now) (labels_view labels.now) at
        (number_view number.entry) }
{
    match number {
        Number::Literal(z) => Ok(z),
        Number::Named(name) => match labels.get(name) {
            Some(label) => Ok(i64::from(distance(at, label.address))),
            None => integer(equates, number),
        },
    }
}

/// The value of an instruction's last operand, by its form.
fn wanted(
    form: Form,
    equates: &Equates<'_>,
    labels: &Labels<'_>,
    at: u32,
    number: Number<'_>,
) -> Result<i64, Why>
    ensures { result
        ≡ assembly.operand_value form (equates_view equates.now) (labels_view labels.now) at
        (number_view number.entry) }
{
    match form {
        Form::Jump | Form::Branch => target(equates, labels, at, number),
        _ => integer(equates, number),
    }
}

/// The word of an instruction.
#[tactic(auto, unfolding(crate::specs::Assembly::instruction))]
fn instruction(
    equates: &Equates<'_>,
    labels: &Labels<'_>,
    at: u32,
    template: Template<'_>,
) -> Result<Code, Why>
    ensures { HasView code_view result
        (assembly.instruction (equates_view equates.now) (labels_view labels.now) at
        (template_view template.entry)) }
{
    let form = template.op.form();
    let z = wanted(form, equates, labels, at, template.imm)?;
    let imm = immediate(form, z)?;
    Ok(Code::One(encoded(Instr {
        op: template.op,
        rd: template.rd,
        rs1: template.rs1,
        rs2: template.rs2,
        imm,
    })))
}

/// A register gets a number.
#[tactic(auto, unfolding(crate::specs::Assembly::load_number))]
fn load_number(rd: Register, z: i64) -> Code
    ensures { code_view result ≡ assembly.load_number rd.number z }
{
    let word = word_of(z);
    if is_small(z) {
        return Code::One(add_word(rd.number, 0, word.cast_signed()));
    }
    let (first, second) = load_two(rd.number, word);
    Code::Two(first, second)
}

/// Whether a name is defined before a line, by an equate or by the label of an earlier line.
fn is_taken(equates: &Equates<'_>, labels: &Labels<'_>, line: usize, name: &[u8]) -> bool
    ensures { result
        ≡ assembly.is_taken (equates_view equates.now) (labels_view labels.now) line name.now }
{
    if equates.get(name).is_some() {
        return true;
    }
    match labels.get(name) {
        Some(label) => label.line < line,
        None => false,
    }
}

/// The line of a label, which has no words.
fn label_line(taken: bool, sound: bool) -> Result<Code, Why>
    ensures { HasView code_view result (assembly.label_line taken sound) }
{
    if taken {
        return Err(Why::Twice);
    }
    if sound {
        Ok(Code::Empty)
    } else {
        Err(Why::Operand)
    }
}

/// A word.
fn word(equates: &Equates<'_>, number: Number<'_>) -> Result<Code, Why>
    ensures { HasView code_view result
        (assembly.data_word (equates_view equates.now) (number_view number.entry)) }
{
    let z = integer(equates, number)?;
    if !is_word(z) {
        return Err(Why::Range);
    }
    Ok(Code::One(word_of(z)))
}

/// A register gets a number that is written.
fn number_loaded(equates: &Equates<'_>, rd: Register, number: Number<'_>) -> Result<Code, Why>
    ensures { HasView code_view result
        (assembly.number_loaded (equates_view equates.now) rd.number (number_view number.entry)) }
{
    let z = integer(equates, number)?;
    if !is_word(z) {
        return Err(Why::Range);
    }
    Ok(load_number(rd, z))
}

/// A register gets the address of a label.
fn address_loaded(labels: &Labels<'_>, rd: Register, name: &[u8]) -> Result<Code, Why>
    ensures { HasView code_view result
        (assembly.address_loaded (labels_view labels.now) rd.number name.now) }
{
    match labels.get(name) {
        Some(label) => {
            let (first, second) = load_two(rd.number, label.address);
            Ok(Code::Two(first, second))
        }
        None => Err(Why::Label),
    }
}

/// The words of a statement on a line, at an address.
#[tactic(auto, unfolding(crate::specs::Assembly::words))]
pub(crate) fn words(
    equates: &Equates<'_>,
    labels: &Labels<'_>,
    line: usize,
    at: u32,
    statement: &Statement<'_>,
) -> Result<Code, Why>
    ensures { HasView code_view result
        (assembly.words (equates_view equates.now) (labels_view labels.now) line at
        (statement_view statement.now)) }
{
    match *statement {
        Statement::Blank => Ok(Code::Empty),
        Statement::Label { name, sound } | Statement::Procedure { name, sound } => {
            label_line(is_taken(equates, labels, line, name), sound)
        }
        Statement::Word(number) => word(equates, number),
        Statement::Instruction(template) => instruction(equates, labels, at, template),
        Statement::LoadNumber { rd, number } => number_loaded(equates, rd, number),
        Statement::LoadAddress { rd, label } => address_loaded(labels, rd, label),
        Statement::Service(service) => {
            Ok(Code::Two(add_word(17, 0, service_immediate(service)), call_word()))
        }
        Statement::Faulty { why, .. } => Err(why),
        Statement::FaultyLoad { .. } => Err(Why::Operand),
    }
}

/// How many words a number takes to load; a name without a value counts one word.
fn number_size(equates: &Equates<'_>, number: Number<'_>) -> u32
    ensures is { result ≡ assembly.number_size
        (assembly.integer (equates_view equates.now) (number_view number.entry)) }
    ensures small { result ≤ 255 }
{
    match integer(equates, number) {
        Ok(z) => { if is_small(z) { 1 } else { 2 } }
        Err(_) => 1,
    }
}

/// How many words a statement counts, invalid or not.
fn size(equates: &Equates<'_>, statement: &Statement<'_>) -> u32
    ensures is { result
        ≡ assembly.size (equates_view equates.now) (statement_view statement.now) }
    ensures small { result ≤ 255 }
{
    match *statement {
        Statement::Blank | Statement::Label { .. } | Statement::Procedure { .. } => 0,
        Statement::Word(_) | Statement::Instruction(_) => 1,
        Statement::LoadNumber { number, .. } | Statement::FaultyLoad { number } => {
            number_size(equates, number)
        }
        Statement::LoadAddress { .. } | Statement::Service(_) => 2,
        Statement::Faulty { words, .. } => u32::from(words),
    }
}

/// The address after a statement.
#[tactic(auto, unfolding(crate::specs::Assembly::address_after))]
pub(crate) fn after(equates: &Equates<'_>, at: u32, statement: &Statement<'_>) -> u32
    ensures { result
        ≡ assembly.address_after (equates_view equates.now) at (statement_view statement.now) }
{
    at.wrapping_add(4 * size(equates, statement))
}
