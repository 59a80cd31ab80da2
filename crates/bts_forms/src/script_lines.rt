// The lines of a script that are no commands of one call: labels, jumps and PUT.
ghost use Rattle.std.specs.Prelude.{◌≡◌, IfOk};
ghost use Rattle.std.specs.Option.{option_map};
ghost use Rattle.bts_forms.specs.declared.statement.Statement.TheVariants.{Put, When};
ghost use Rattle.bts_forms.specs.Pieces.{made_of_2, made_of_3, ended};
ghost use Rattle.bts_forms.specs.Forms.{label_line, goto_line, when_line, early_condition, late_condition, condition, put_container};

use crate::arguments::{event_name, literal, resp, source, status};
use crate::fields::{bare_name, given_name, spot};
use crate::pieces::{argument_in, argument_to_last, behind_word};
use crate::{Cond, Given, Statement, Word};
use bts_command::Spot;
use bts_names::{Name16, NoMemory};
use std::alloc::Global;

/// LABEL name
#[tactic(auto, unfolding(crate::specs::Forms::label_line, crate::specs::Pieces::ended))]
pub fn label_line(line: &[u8]) -> Option<Result<Statement, Word>>
    ensures { result ≡ ended (label_line line.now) }
{
    let rest = behind_word(b"LABEL", line)?;
    let Some((label, rest)) = bare_name(rest) else {
        return None;
    };
    rest.is_empty()
        .then_some(label.map(|label| Statement::Label(label)))
}

/// GOTO name
#[tactic(auto, unfolding(crate::specs::Forms::goto_line, crate::specs::Pieces::ended))]
pub fn goto_line(line: &[u8]) -> Option<Result<Statement, Word>>
    ensures { result ≡ ended (goto_line line.now) }
{
    let rest = behind_word(b"GOTO", line)?;
    let Some((label, rest)) = bare_name(rest) else {
        return None;
    };
    rest.is_empty()
        .then_some(label.map(|label| Statement::Goto(label)))
}

/// DATA(literal) or FIRED
#[tactic(auto, unfolding(crate::specs::Forms::late_condition))]
fn late_condition(
    alloc: Global,
    line: &[u8],
) -> Result<Option<(Result<Cond, Word>, &[u8])>, NoMemory>
    ensures { IfOk result (λ r. option_map (λ x. (x.0, x.1.now)) r ≡ late_condition line.now) }
{
    if let Some((bytes, rest)) = argument_to_last(b"DATA", line) {
        return match literal(alloc, bytes)? {
            Ok(bytes) => Ok(Some((Ok(Cond::Gave(bytes)), rest))),
            Err(why) => Ok(Some((Err(why), rest))),
        };
    }
    match behind_word(b"FIRED", line) {
        Some(rest) => Ok(Some((Ok(Cond::Fired), rest))),
        None => Ok(None),
    }
}

/// RESP(word), EVENT(name) or STATUS(word)
#[tactic(auto, unfolding(crate::specs::Forms::early_condition))]
fn early_condition(line: &[u8]) -> Option<(Result<Cond, Word>, &[u8])>
    ensures { option_map (λ x. (x.0, x.1.now)) result ≡ early_condition line.now }
{
    if let Some((bytes, rest)) = argument_in(b"RESP", line) {
        return match resp(bytes) {
            Ok(resp) => Some((Ok(Cond::Resp(resp)), rest)),
            Err(why) => Some((Err(why), rest)),
        };
    }
    if let Some((bytes, rest)) = argument_in(b"EVENT", line) {
        return match event_name(bytes) {
            Ok(name) => Some((Ok(Cond::Event(name)), rest)),
            Err(why) => Some((Err(why), rest)),
        };
    }
    let (bytes, rest) = argument_in(b"STATUS", line)?;
    match status(bytes) {
        Ok(status) => Some((Ok(Cond::Status(status)), rest)),
        Err(why) => Some((Err(why), rest)),
    }
}

#[tactic(auto, unfolding(crate::specs::Forms::condition))]
fn condition(alloc: Global, line: &[u8]) -> Result<Option<(Result<Cond, Word>, &[u8])>, NoMemory>
    ensures { IfOk result (λ r. option_map (λ x. (x.0, x.1.now)) r ≡ condition line.now) }
{
    if let Some((cond, rest)) = early_condition(line) {
        return Ok(Some((cond, rest)));
    }
    late_condition(alloc, line)
}

fn when_of(cond: Result<Cond, Word>, label: Result<Name16, Word>) -> Result<Statement, Word>
    ensures { result ≡ made_of_2 When cond label }
{
    let cond = cond?;
    let label = label?;
    Ok(Statement::When { cond, label })
}

/// WHEN cond GOTO name
#[tactic(auto, unfolding(crate::specs::Forms::when_line, crate::specs::Pieces::ended))]
pub fn when_line(alloc: Global, line: &[u8]) -> Result<Option<Result<Statement, Word>>, NoMemory>
    ensures { IfOk result (λ r. r ≡ ended (when_line line.now)) }
{
    let Some(rest) = behind_word(b"WHEN", line) else {
        return Ok(None);
    };
    let Some((cond, rest)) = condition(alloc, rest)? else {
        return Ok(None);
    };
    let Some(rest) = behind_word(b"GOTO", rest) else {
        return Ok(None);
    };
    let Some((label, rest)) = bare_name(rest) else {
        return Ok(None);
    };
    if !rest.is_empty() {
        return Ok(None);
    }
    Ok(Some(when_of(cond, label)))
}

fn put_of(
    container: Result<Name16, Word>,
    spot: Result<Spot, Word>,
    given: Result<Given, Word>,
) -> Result<Statement, Word>
    ensures { result ≡ made_of_3 Put container spot given }
{
    let container = container?;
    let spot = spot?;
    let given = given?;
    Ok(Statement::Put {
        container,
        spot,
        given,
    })
}

/// PUT CONTAINER(c) [place] FROM(d)
#[tactic(auto, unfolding(crate::specs::Forms::put_container, crate::specs::Pieces::ended))]
pub fn put_container(
    alloc: Global,
    line: &[u8],
) -> Result<Option<Result<Statement, Word>>, NoMemory>
    ensures { IfOk result (λ r. r ≡ ended (put_container line.now)) }
{
    let Some(rest) = behind_word(b"PUT", line) else {
        return Ok(None);
    };
    let Some((container, rest)) = given_name(b"CONTAINER", rest) else {
        return Ok(None);
    };
    let (spot, rest) = spot(rest);
    let Some((bytes, rest)) = argument_to_last(b"FROM", rest) else {
        return Ok(None);
    };
    if !rest.is_empty() {
        return Ok(None);
    }
    let given = source(alloc, bytes)?;
    Ok(Some(put_of(container, spot, given)))
}
