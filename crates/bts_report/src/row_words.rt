// The words of rows.
ghost use Rattle.std.specs.Prelude.{◌≡◌, ◌++◌, OnOk};
ghost use Rattle.bts_report.specs.Reports.{divided, spaced};
ghost use Rattle.bts_report.specs.Words.{row_place, row_state, row_words};

use crate::words::{add_number_word, add_path, add_suspended, add_word};
use bts_names::{Blob, NoMemory, Row};

fn add_row_place(out: &mut Blob, row: &Row) -> Result<(), NoMemory>
    ensures { OnOk result (out.new ≡ out.old ++ divided (row_place row.now)) }
{
    out.extend(row.key.ptype.as_bytes())?;
    add_word(out, row.key.pname.as_bytes())?;
    add_number_word(out, row.generation)?;
    add_path(out, &row.path)?;
    add_word(out, row.name.as_bytes())
}

fn add_row_state(out: &mut Blob, row: &Row) -> Result<(), NoMemory>
    ensures { OnOk result (out.new ≡ out.old ++ spaced (row_state row.now)) }
{
    add_word(out, row.mode.word().as_bytes())?;
    add_word(out, row.status.word().as_bytes())?;
    add_suspended(out, row.suspended)?;
    add_number_word(out, row.queued)?;
    add_word(out, row.transid.as_bytes())?;
    add_word(out, row.program.as_bytes())
}

/// Adds the words of a row, with no space before the first.
pub fn add_row(out: &mut Blob, row: &Row) -> Result<(), NoMemory>
    ensures { OnOk result (out.new ≡ out.old ++ divided (row_words row.now)) }
{
    add_row_place(out, row)?;
    add_row_state(out, row)
}
