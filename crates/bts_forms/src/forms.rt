// The table of the forms of lines.
ghost use Rattle.std.specs.Prelude.{◌≡◌, IfOk};
ghost use Rattle.bts_forms.specs.declared.line.Setting.TheVariants.{Outside, Closing, InBlocks};
ghost use Rattle.bts_forms.specs.Pieces.{result_of};
ghost use Rattle.bts_forms.specs.Forms.{form_of, forms, command_of, statement_of, process_forms, activity_forms, timer_forms, ending_forms, session_forms, container_forms, early_event_forms, late_event_forms, script_forms};

use crate::activity_lines::*;
use crate::container_lines::*;
use crate::ending_lines::*;
use crate::event_lines::*;
use crate::process_lines::*;
use crate::script_lines::*;
use crate::session_lines::*;
use crate::through::{check_through, container_through, run_through};
use crate::timer_lines::*;
use crate::{Line, Setting, Statement, Word};
use bts_command::Command;
use bts_names::NoMemory;
use std::alloc::Global;

/// Where a line belongs, whether it is let through, and what it says.
pub type Said = (Setting, bool, Result<Line, Word>);

fn line_of(said: Result<Command, Word>) -> Result<Line, Word>
    ensures { result ≡ result_of command_of said }
{
    match said {
        Ok(command) => Ok(Line::Statement(Statement::Command(command))),
        Err(why) => Err(why),
    }
}

fn statement_line(said: Result<Statement, Word>) -> Result<Line, Word>
    ensures { result ≡ result_of statement_of said }
{
    match said {
        Ok(statement) => Ok(Line::Statement(statement)),
        Err(why) => Err(why),
    }
}

fn call(is_through: bool, said: Result<Command, Word>) -> Said
    ensures { result ≡ (InBlocks, is_through, result_of command_of said) }
{
    (Setting::InBlocks, is_through, line_of(said))
}

fn other(is_through: bool, said: Result<Statement, Word>) -> Said
    ensures { result ≡ (InBlocks, is_through, result_of statement_of said) }
{
    (Setting::InBlocks, is_through, statement_line(said))
}

#[tactic(auto, unfolding(crate::specs::Forms::reads_by))]
fn process_form(line: &[u8]) -> Option<Said>
    ensures { result ≡ form_of process_forms line.now }
{
    if let Some(said) = define_process(line) {
        return Some(call(true, said));
    }
    if let Some(said) = acquire_process(line) {
        return Some(call(true, said));
    }
    if let Some(said) = acquire_activity(line) {
        return Some(call(true, said));
    }
    if let Some(said) = purge_process(line) {
        return Some(call(true, said));
    }
    None
}

#[tactic(auto, unfolding(crate::specs::Forms::reads_by))]
fn activity_form(line: &[u8]) -> Option<Said>
    ensures { result ≡ form_of activity_forms line.now }
{
    if let Some(said) = define_activity(line) {
        return Some(call(false, said));
    }
    if let Some(said) = delete_activity(line) {
        return Some(call(false, said));
    }
    if let Some(said) = run(line) {
        return Some(call(run_through(line), said));
    }
    if let Some(said) = link(line) {
        return Some(call(false, said));
    }
    if let Some(said) = check(line) {
        return Some(call(check_through(line), said));
    }
    if let Some(said) = cancel(line) {
        return Some(call(false, said));
    }
    if let Some(said) = reset(line) {
        return Some(call(false, said));
    }
    if let Some(said) = suspend(line) {
        return Some(call(false, said));
    }
    if let Some(said) = resume(line) {
        return Some(call(false, said));
    }
    None
}

#[tactic(auto, unfolding(crate::specs::Forms::reads_by))]
fn timer_form(line: &[u8]) -> Option<Said>
    ensures { result ≡ form_of timer_forms line.now }
{
    if let Some(said) = define_timer(line) {
        return Some(call(false, said));
    }
    if let Some(said) = force_timer(line) {
        return Some(call(false, said));
    }
    if let Some(said) = check_timer(line) {
        return Some(call(false, said));
    }
    if let Some(said) = delete_timer(line) {
        return Some(call(false, said));
    }
    None
}

#[tactic(auto, unfolding(crate::specs::Forms::reads_by))]
fn ending_form(line: &[u8]) -> Option<Said>
    ensures { result ≡ form_of ending_forms line.now }
{
    if let Some(said) = plain_return(line) {
        return Some(call(true, said));
    }
    if let Some(said) = return_ending(line) {
        return Some((Setting::InPrograms, true, line_of(said)));
    }
    if let Some(said) = abend(line) {
        return Some(call(true, said));
    }
    if let Some(said) = rollback(line) {
        return Some((Setting::InRequests, true, line_of(said)));
    }
    None
}

#[tactic(auto, unfolding(crate::specs::Forms::reads_by))]
fn container_form(alloc: Global, line: &[u8]) -> Result<Option<Said>, NoMemory>
    ensures { IfOk result (λ r. r ≡ form_of container_forms line.now) }
{
    if let Some(said) = put_container(alloc, line)? {
        return Ok(Some(other(container_through(b"PUT", line), said)));
    }
    if let Some(said) = get_container(line) {
        return Ok(Some(call(container_through(b"GET", line), said)));
    }
    if let Some(said) = delete_container(line) {
        return Ok(Some(call(container_through(b"DELETE", line), said)));
    }
    Ok(None)
}

#[tactic(auto, unfolding(crate::specs::Forms::reads_by))]
fn script_form(alloc: Global, line: &[u8]) -> Result<Option<Said>, NoMemory>
    ensures { IfOk result (λ r. r ≡ form_of script_forms line.now) }
{
    if let Some(said) = label_line(line) {
        return Ok(Some(other(true, said)));
    }
    if let Some(said) = goto_line(line) {
        return Ok(Some(other(true, said)));
    }
    if let Some(said) = when_line(alloc, line)? {
        return Ok(Some(other(true, said)));
    }
    Ok(None)
}

#[tactic(auto, unfolding(crate::specs::Forms::reads_by))]
fn late_event_form(line: &[u8]) -> Option<Said>
    ensures { result ≡ form_of late_event_forms line.now }
{
    if let Some(said) = add_subevent(line) {
        return Some(call(true, said));
    }
    if let Some(said) = remove_subevent(line) {
        return Some(call(true, said));
    }
    if let Some(said) = delete_event(line) {
        return Some(call(true, said));
    }
    if let Some(said) = test_event(line) {
        return Some(call(true, said));
    }
    if let Some(said) = retrieve_reattach(line) {
        return Some(call(true, said));
    }
    if let Some(said) = retrieve_subevent(line) {
        return Some(call(true, said));
    }
    None
}

#[tactic(auto, unfolding(crate::specs::Forms::reads_by))]
fn early_event_form(alloc: Global, line: &[u8]) -> Result<Option<Said>, NoMemory>
    ensures { IfOk result (λ r. r ≡ form_of early_event_forms line.now) }
{
    if let Some(said) = define_input(line) {
        return Ok(Some(call(true, said)));
    }
    if let Some(said) = define_composite(alloc, line)? {
        return Ok(Some(call(true, said)));
    }
    Ok(None)
}

fn item(is_through: bool, said: Result<Line, Word>) -> Said
    ensures { result ≡ (Outside, is_through, result_of (λ x. x) said) }
{
    match said {
        Ok(line) => (Setting::Outside, is_through, Ok(line)),
        Err(why) => (Setting::Outside, is_through, Err(why)),
    }
}

fn end_of_block(is_through: bool, said: Result<Line, Word>) -> Said
    ensures { result ≡ (Closing, is_through, result_of (λ x. x) said) }
{
    match said {
        Ok(line) => (Setting::Closing, is_through, Ok(line)),
        Err(why) => (Setting::Closing, is_through, Err(why)),
    }
}

#[tactic(auto, unfolding(crate::specs::Forms::reads_by))]
fn session_form(line: &[u8]) -> Option<Said>
    ensures { result ≡ form_of session_forms line.now }
{
    if let Some(said) = program_line(line) {
        return Some(item(true, said));
    }
    if let Some(said) = request_line(line) {
        return Some(item(true, said));
    }
    if let Some(said) = end_line(line) {
        return Some(end_of_block(true, said));
    }
    if let Some(said) = clock_line(line) {
        return Some(item(false, said));
    }
    if let Some(said) = settle_line(line) {
        return Some(item(true, said));
    }
    if let Some(said) = browse_line(line) {
        return Some(item(false, said));
    }
    None
}

/// What a line says by the table, and where its form belongs; None where it has no form.
#[tactic(auto, using(crate::proofs::Tables::forms_read))]
pub fn form_of(alloc: Global, line: &[u8]) -> Result<Option<Said>, NoMemory>
    ensures { IfOk result (λ r. r ≡ form_of forms line.now) }
{
    if let Some(said) = session_form(line) {
        return Ok(Some(said));
    }
    if let Some(said) = script_form(alloc, line)? {
        return Ok(Some(said));
    }
    if let Some(said) = process_form(line) {
        return Ok(Some(said));
    }
    if let Some(said) = activity_form(line) {
        return Ok(Some(said));
    }
    if let Some(said) = container_form(alloc, line)? {
        return Ok(Some(said));
    }
    if let Some(said) = early_event_form(alloc, line)? {
        return Ok(Some(said));
    }
    if let Some(said) = late_event_form(line) {
        return Ok(Some(said));
    }
    if let Some(said) = timer_form(line) {
        return Ok(Some(said));
    }
    Ok(ending_form(line))
}
