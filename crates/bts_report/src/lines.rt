// The lines of reports and lists.
ghost use Rattle.std.specs.Prelude.{◌≡◌, ◌++◌, IfOk, OnOk};
ghost use Rattle.std.specs.List.{flat_map};
ghost use Rattle.bts_report.specs.Reports.{call_line, row_line, list_line, unit_line, unit_text, report, list_text};

use crate::command_words::add_command;
use crate::number::add_number;
use crate::reply_words::add_reply;
use crate::row_words::add_row;
use crate::unit_words::{add_end, add_unit_kind};
use crate::words::add_word;
use bts_command::{Call, Ended};
use bts_names::{Blob, NoMemory, Row};
use bts_timer::print_moment;
use std::alloc::Global;

#[tactic(auto, using(crate::proofs::Divided::call_written), unfolding(crate::specs::Reports::call_line))]
pub fn add_call(out: &mut Blob, call: &Call) -> Result<(), NoMemory>
    ensures { OnOk result (out.new ≡ out.old ++ call_line call.now) }
{
    // Every word brings one space.
    out.extend(b" ")?;
    add_command(out, &call.command)?;
    add_reply(out, &call.reply)?;
    out.extend(b"\n")
}

fn add_calls(out: &mut Blob, calls: &[Call]) -> Result<(), NoMemory>
    ensures { OnOk result (out.new ≡ out.old ++ flat_map call_line calls.now) }
{
    for call in calls {
        add_call(out, call)?;
    }
    Ok(())
}

#[tactic(auto, unfolding(crate::specs::Reports::list_line))]
fn add_list_line(out: &mut Blob, row: &Row) -> Result<(), NoMemory>
    ensures { OnOk result (out.new ≡ out.old ++ list_line row.now) }
{
    add_row(out, row)?;
    out.extend(b"\n")
}

#[tactic(auto, unfolding(crate::specs::Reports::row_line))]
pub fn add_row_line(out: &mut Blob, row: &Row) -> Result<(), NoMemory>
    ensures { OnOk result (out.new ≡ out.old ++ row_line row.now) }
{
    out.extend(b"  ")?;
    add_row(out, row)?;
    out.extend(b"\n")
}

fn add_rows(out: &mut Blob, rows: &[Row]) -> Result<(), NoMemory>
    ensures { OnOk result (out.new ≡ out.old ++ flat_map row_line rows.now) }
{
    for row in rows {
        add_row_line(out, row)?;
    }
    Ok(())
}

#[tactic(auto, using(crate::proofs::Divided::unit_written), unfolding(crate::specs::Reports::unit_line))]
pub fn add_unit_line(alloc: Global, out: &mut Blob, n: u64, ended: &Ended) -> Result<(), NoMemory>
    ensures { OnOk result (out.new ≡ out.old ++ unit_line n ended.now) }
{
    let moment = print_moment(alloc, ended.moment)?;
    add_number(out, n)?;
    add_unit_kind(out, &ended.unit)?;
    add_word(out, moment.as_slice())?;
    add_end(out, &ended.end)?;
    out.extend(b"\n")
}

#[tactic(auto, unfolding(crate::specs::Reports::unit_text))]
fn add_unit(alloc: Global, out: &mut Blob, n: u64, ended: &Ended) -> Result<(), NoMemory>
    ensures { OnOk result (out.new ≡ out.old ++ unit_text (n, ended.now)) }
{
    add_unit_line(alloc, out, n, ended)?;
    add_calls(out, ended.calls.as_slice())?;
    add_rows(out, ended.rows.as_slice())
}

/// The report of units of work that have ended: a line for each unit at its place from 1, and behind it
/// one for each of its calls and rows.
pub fn report(alloc: Global, history: &[Ended]) -> Result<Blob, NoMemory>
    ensures { IfOk result (λ text. text ≡ report history.now) }
{
    let mut out = Blob::new(alloc);
    let mut n = 1;
    for ended in history {
        add_unit(alloc, &mut out, n, ended)?;
        n += 1;
    }
    Ok(out)
}

/// The list of activities: a line for each row.
pub fn list_text(alloc: Global, rows: &[Row]) -> Result<Blob, NoMemory>
    ensures { IfOk result (λ text. text ≡ list_text rows.now) }
{
    let mut out = Blob::new(alloc);
    for row in rows {
        add_list_line(&mut out, row)?;
    }
    Ok(out)
}
