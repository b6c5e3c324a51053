//! From a text to its words and procedures, or its first invalid line.

ghost use Rattle.std.specs.Prelude.{◌≡◌, ◌++◌, map, option_map, IfOk, OnOk};
ghost use Rattle.rv_asm.specs.Assembly as assembly;
ghost use Rattle.rv_asm.specs.Assembly.{IsAssemblyAnswer};
ghost use Rattle.rv_asm.specs.Lexing.{lines};
ghost use Rattle.rv_asm.specs.Parsing.{statement_of};
ghost use Rattle.rv_asm.specs.Views.{statement_view, equates_view, labels_view, code_view};

use crate::assembled::{Assembled, Equate};
use crate::emission::{Code, after, words};
use crate::fault::{AsmError, Fault};
use crate::labels::{Equates, Label, Labels};
use crate::parsing::statement_of;
use crate::statements::Statement;
use std::alloc::Global;
use wedge_base::{Bytes, Items, NoMemory, Procedure};

/// The lines of a text.
fn lines_of(alloc: Global, text: &[u8]) -> Result<Vec<&[u8]>, NoMemory>
    ensures { IfOk result (λ v. map (λ line. line.now) v.items ≡ lines text.now) }
{
    let lines = text.split(|c| *c == b'\n').collect(alloc)?;
    Ok(lines)
}

/// The statements of lines.
fn statements_of<'a>(alloc: Global, lines: &[&'a [u8]]) -> Result<Vec<Statement<'a>>, NoMemory>
    ensures { IfOk result (λ v. map statement_view v.items
        ≡ map (λ line. statement_of line.now) lines.now) }
{
    let statements = lines.iter().map(|line| statement_of(line)).collect(alloc)?;
    Ok(statements)
}

/// The name that a well-formed label's line defines.
fn name_given<'a>(statement: &Statement<'a>) -> Option<&'a [u8]>
    ensures { option_map (λ n. n.now) result
        ≡ assembly.name_given (statement_view statement.now) }
{
    match *statement {
        Statement::Label { name, sound } | Statement::Procedure { name, sound } if sound => {
            Some(name)
        }
        _ => None,
    }
}

/// Adds the label of a statement, where its name is not yet defined.
fn note<'a>(
    labels: &mut Labels<'a>,
    equates: &Equates<'_>,
    label: Label,
    statement: &Statement<'a>,
) -> Result<(), NoMemory>
    ensures { OnOk result (labels_view labels.new
        ≡ assembly.define_label (equates_view equates.now) label.line label.address
        (labels_view labels.old) (assembly.name_given (statement_view statement.now))) }
{
    let Some(name) = name_given(statement) else {
        return Ok(());
    };
    if equates.get(name).is_some() || labels.get(name).is_some() {
        return Ok(());
    }
    labels.define(name, label)
}

/// The labels of statements, of which the first has a base address.
fn labels_of<'a>(
    alloc: Global,
    equates: &Equates<'_>,
    base: u32,
    statements: &[Statement<'a>],
) -> Result<Labels<'a>, NoMemory>
    ensures { IfOk result (λ l. labels_view l
        ≡ assembly.labels_from (equates_view equates.now) assembly.no_labels 1 base
        (map statement_view statements.now)) }
{
    let mut labels = Labels::new(alloc);
    let mut line = 0;
    let mut at = base;
    for statement in statements {
        line += 1;
        note(&mut labels, equates, Label { line, address: at }, statement)?;
        at = after(equates, at, statement);
    }
    Ok(labels)
}

/// Adds words.
fn push_code(words: &mut Items<u32>, code: Code) -> Result<(), NoMemory>
    ensures { OnOk result (words.new ≡ words.old ++ code_view code) }
{
    match code {
        Code::Empty => Ok(()),
        Code::One(first) => words.push(first),
        Code::Two(first, second) => {
            words.push(first)?;
            words.push(second)
        }
    }
}

/// Adds the procedure that a statement begins.
fn push_procedure(
    alloc: Global,
    procedures: &mut Items<Procedure>,
    at: u32,
    statement: &Statement<'_>,
) -> Result<(), NoMemory>
    ensures { OnOk result (procedures.new
        ≡ procedures.old ++ assembly.procedures at (statement_view statement.now)) }
{
    match *statement {
        Statement::Procedure { name, .. } => {
            let name = Bytes::from_slice(alloc, name)?;
            procedures.push(Procedure { name, address: at })
        }
        _ => Ok(()),
    }
}

/// The words and procedures of statements, of which the first has a base address.
fn emitted(
    alloc: Global,
    equates: &Equates<'_>,
    labels: &Labels<'_>,
    base: u32,
    statements: &[Statement<'_>],
) -> Result<Assembled, AsmError>
    ensures { IsAssemblyAnswer result (assembly.assembled_from (equates_view equates.now)
        (labels_view labels.now) assembly.nothing 1 base (map statement_view statements.now)) }
{
    let mut front = Assembled {
        words: Items::new(Vec::new(alloc)),
        procedures: Items::new(Vec::new(alloc)),
    };
    let mut line = 0;
    let mut at = base;
    for statement in statements {
        line += 1;
        match words(equates, labels, line, at, statement) {
            Ok(code) => push_code(&mut front.words, code)?,
            Err(why) => return Err(AsmError::Fault(Fault { line, why })),
        }
        push_procedure(alloc, &mut front.procedures, at, statement)?;
        at = after(equates, at, statement);
    }
    Ok(front)
}

/// Assembles a text. Its first word has the address `base`; addresses are modulo 2^32. `names` are
/// the equates; of two with one name, the first counts. `Fault` is the first invalid line with its
/// reason, `NoMemory` is out of memory, and there is no other error.
#[tactic(auto, unfolding(crate::specs::Assembly::assembled))]
pub fn assemble(
    alloc: Global,
    text: &str,
    base: u32,
    names: &[Equate],
) -> Result<Assembled, AsmError>
    ensures exact { IsAssemblyAnswer result (assembly.assembled text.now base names.now) }
{
    let lines = lines_of(alloc, text.as_bytes())?;
    let statements = statements_of(alloc, &lines)?;
    let equates = Equates::new(alloc, names)?;
    let labels = labels_of(alloc, &equates, base, &statements)?;
    emitted(alloc, &equates, &labels, base, &statements)
}
