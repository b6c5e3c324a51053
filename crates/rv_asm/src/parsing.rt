//! From a line to its statement.

ghost use Rattle.std.specs.Prelude.{◌≡◌, ◌<◌, option_map};
ghost use Rattle.rv_isa.specs.Ranges.{ranges};
ghost use Rattle.rv_isa.specs.Table.{form_of};
ghost use Rattle.rv_asm.specs.Parsing as parsing;
ghost use Rattle.rv_asm.specs.Statements.{template};
ghost use Rattle.rv_asm.specs.Views.{number_view, template_view, statement_view};

use crate::fault::Why;
use crate::lexing::{content, first_word, one};
use crate::mnemonics::{Head, Shorthand, head_named};
use crate::numbers::Number;
use crate::operands::{
    one_number, register_base, register_label, register_number, second_number, three_registers,
    two_registers, two_registers_number,
};
use crate::services::service_named;
use crate::statements::Statement;
use crate::templates::{Register, Template};
use rv_isa::{Form, Op};
use wedge_base::is_name;

/// The immediate of an operation that has none in its text.
const ZERO: Number<'static> = Number::Literal(0);

impl<'a> Template<'a> {
    /// An operation with these operands.
    fn new(op: Op, rd: u8, rs1: u8, rs2: u8, imm: Number<'a>) -> Template<'a>
        requires rd { rd < (ranges (form_of op)).rd }
        requires rs1 { rs1 < (ranges (form_of op)).rs1 }
        requires rs2 { rs2 < (ranges (form_of op)).rs2 }
        ensures { template_view result ≡ template op rd rs1 rs2 (number_view imm.entry) }
    {
        Template {
            op,
            rd,
            rs1,
            rs2,
            imm,
        }
    }
}

/// The operands of an instruction, by its form.
#[tactic(auto, unfolding(crate::specs::Parsing::with_form))]
fn with_form(op: Op, text: &[u8]) -> Option<Template<'_>>
    ensures { option_map template_view result ≡ parsing.with_form (form_of op) op text.now }
{
    match op.form() {
        Form::Upper | Form::Jump => {
            let (rd, imm) = register_number(text)?;
            Some(Template::new(op, rd, 0, 0, imm))
        }
        Form::Branch => {
            let (rs1, rs2, imm) = two_registers_number(text)?;
            Some(Template::new(op, 0, rs1, rs2, imm))
        }
        Form::Offset => {
            let (rd, imm, rs1) = register_base(text)?;
            Some(Template::new(op, rd, rs1, 0, imm))
        }
        Form::Store => {
            let (rs2, imm, rs1) = register_base(text)?;
            Some(Template::new(op, 0, rs1, rs2, imm))
        }
        Form::Immediate | Form::Shift => {
            let (rd, rs1, imm) = two_registers_number(text)?;
            Some(Template::new(op, rd, rs1, 0, imm))
        }
        Form::Register => {
            let (rd, rs1, rs2) = three_registers(text)?;
            Some(Template::new(op, rd, rs1, rs2, ZERO))
        }
        Form::Whole if text.is_empty() => Some(Template::new(op, 0, 0, 0, ZERO)),
        Form::Whole => None,
    }
}

fn is_fence(op: Op) -> bool
    ensures { result ≡ parsing.is_fence op }
{
    match op {
        Op::Fence => true,
        _ => false,
    }
}

/// An instruction of the table; `fence` without operands orders every access.
#[tactic(auto, unfolding(crate::specs::Parsing::machine))]
fn machine(op: Op, text: &[u8]) -> Option<Template<'_>>
    ensures { option_map template_view result ≡ parsing.machine op text.now }
{
    if is_fence(op) && text.is_empty() {
        return Some(Template::new(op, 0, 0, 0, Number::Literal(255)));
    }
    with_form(op, text)
}

/// The instruction that a pseudoinstruction stands for. Chapter 25 of the manual; `call` is one
/// JAL.
#[tactic(auto, unfolding(crate::specs::Parsing::synonym))]
fn synonym(shorthand: Shorthand, text: &[u8]) -> Option<Template<'_>>
    ensures { option_map template_view result ≡ parsing.synonym shorthand text.now }
{
    match shorthand {
        Shorthand::Move => {
            let (rd, rs1) = two_registers(text)?;
            Some(Template::new(Op::Addi, rd, rs1, 0, ZERO))
        }
        Shorthand::Jump => Some(Template::new(Op::Jal, 0, 0, 0, one_number(text)?)),
        Shorthand::Call => Some(Template::new(Op::Jal, 1, 0, 0, one_number(text)?)),
        Shorthand::Return if text.is_empty() => Some(Template::new(Op::Jalr, 0, 1, 0, ZERO)),
        Shorthand::BranchZero => {
            let (rs1, imm) = register_number(text)?;
            Some(Template::new(Op::Beq, 0, rs1, 0, imm))
        }
        Shorthand::BranchNotZero => {
            let (rs1, imm) = register_number(text)?;
            Some(Template::new(Op::Bne, 0, rs1, 0, imm))
        }
        Shorthand::Nothing if text.is_empty() => Some(Template::new(Op::Addi, 0, 0, 0, ZERO)),
        _ => None,
    }
}

/// The statement of a directive or pseudoinstruction.
#[tactic(auto, unfolding(crate::specs::Parsing::shorthand))]
fn shorthand(shorthand: Shorthand, text: &[u8]) -> Option<Statement<'_>>
    ensures { option_map statement_view result ≡ parsing.shorthand shorthand text.now }
{
    match shorthand {
        Shorthand::Word => Some(Statement::Word(one_number(text)?)),
        Shorthand::Procedure => {
            let name = one(text)?;
            let sound = is_name(name);
            Some(Statement::Procedure { name, sound })
        }
        Shorthand::LoadNumber => {
            let (rd, number) = register_number(text)?;
            let rd = Register { number: rd };
            Some(Statement::LoadNumber { rd, number })
        }
        Shorthand::LoadAddress => {
            let (rd, label) = register_label(text)?;
            let rd = Register { number: rd };
            Some(Statement::LoadAddress { rd, label })
        }
        Shorthand::Service => {
            let name = one(text)?;
            Some(Statement::Service(service_named(name)?))
        }
        _ => Some(Statement::Instruction(synonym(shorthand, text)?)),
    }
}

/// How many words a line other than `li` counts whose operands are invalid.
fn words_at_fault(head: Head) -> u8
    ensures { result ≡ parsing.words_at_fault head }
{
    match head {
        Head::Short(Shorthand::Procedure) => 0,
        Head::Short(Shorthand::LoadAddress | Shorthand::Service) => 2,
        _ => 1,
    }
}

/// The statement of a line with this first word, whose operands are invalid.
fn faulty_statement(head: Head, text: &[u8]) -> Statement<'_>
    ensures { statement_view result ≡ parsing.faulty_statement head text.now }
{
    let why = Why::Operand;
    match head {
        Head::Short(Shorthand::LoadNumber) => match second_number(text) {
            Some(number) => Statement::FaultyLoad { number },
            None => Statement::Faulty { why, words: 1 },
        },
        _ => Statement::Faulty {
            why,
            words: words_at_fault(head),
        },
    }
}

/// The statement of a line with this first word, if its operands are valid.
fn with_head(head: Head, text: &[u8]) -> Option<Statement<'_>>
    ensures { option_map statement_view result ≡ parsing.with_head head text.now }
{
    match head {
        Head::Machine(op) => Some(Statement::Instruction(machine(op, text)?)),
        Head::Short(short) => shorthand(short, text),
    }
}

/// The statement of a line that is no label's.
fn headed<'a>(word: &[u8], text: &'a [u8]) -> Statement<'a>
    ensures { statement_view result ≡ parsing.headed (parsing.head_named word.now) text.now }
{
    match head_named(word) {
        None => Statement::Faulty {
            why: Why::Mnemonic,
            words: 1,
        },
        Some(head) => match with_head(head, text) {
            None => faulty_statement(head, text),
            Some(statement) => statement,
        },
    }
}

/// The statement of a line, by its first word and the text after it.
#[tactic(auto, unfolding(crate::specs::Parsing::of_words, crate::specs::Parsing::labelled))]
fn of_words<'a>(word: &'a [u8], text: &'a [u8]) -> Statement<'a>
    ensures { statement_view result ≡ parsing.of_words word.now text.now }
{
    match word {
        [name @ .., b':'] => Statement::Label {
            name,
            sound: is_name(name) && text.is_empty(),
        },
        _ => headed(word, text),
    }
}

/// The statement of a line.
#[tactic(auto, unfolding(crate::specs::Parsing::statement_of))]
pub(crate) fn statement_of(line: &[u8]) -> Statement<'_>
    ensures { statement_view result ≡ parsing.statement_of line.now }
{
    let content = content(line);
    if content.is_empty() {
        return Statement::Blank;
    }
    let (word, text) = first_word(content);
    of_words(word, text)
}
