// Numbers in decimal.
ghost use Rattle.std.specs.Prelude.{◌≡◌, ◌++◌, OnOk};
ghost use Rattle.std.specs.Fmt.{decimal};

use bts_names::{Blob, NoMemory};

/// Adds the digits of a number in decimal, without a leading zero. Where memory is wanting, the first of
/// them may have been added.
#[tactic(auto, using(crate::proofs::Digits::last_digit, crate::proofs::Digits::only_digit))]
pub fn add_number(out: &mut Blob, n: u64) -> Result<(), NoMemory>
    ensures { OnOk result (out.new ≡ out.old ++ decimal n) }
{
    let last = b'0' + (n % 10) as u8;
    if n < 10 {
        return out.push(last);
    }
    add_number(out, n / 10)?;
    out.push(last)
}
