// The last line of a run.
ghost use Rattle.std.specs.Prelude.{◌≡◌, ◌++◌, OnOk};
ghost use Rattle.bts_tool.specs.Tail.{counted_line};

use bts_names::{Blob, NoMemory};
use bts_report::add_number;

/// Adds a line of a word and a count.
pub fn add_counted_line(out: &mut Blob, word: &[u8], n: u64) -> Result<(), NoMemory>
    ensures { OnOk result (out.new ≡ out.old ++ counted_line word.now n) }
{
    out.extend(word)?;
    out.push(b' ')?;
    add_number(out, n)?;
    out.push(b'\n')
}
