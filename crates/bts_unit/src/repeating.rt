// Calls that a unit makes again.
ghost use Rattle.std.specs.Prelude.{◌≡◌, ◌↔◌, ◌∷◌, [], IfOk, OnOk, IsTrue, MatchOption};
ghost use Rattle.bts_unit.specs.Calls.{commands_of, made, unit_behind};
ghost use Rattle.bts_unit.specs.Refusals.{IsOtherCall};
ghost use Rattle.bts_unit.specs.Replays.{CanRepeat};

use crate::unit::Unit;
use bts_command::Call;
use bts_names::{NoMemory, Reply};
use std::alloc::Global;

fn is_same(a: &Reply, b: &Reply) -> bool
    ensures { IsTrue result ↔ (a.now ≡ b.now) }
{
    *a == *b
}

/// Makes a call again; whether the unit answers it as it did. One that has ended stays as it is, and answers nothing.
fn repeats(alloc: Global, unit: &mut Unit, call: &Call) -> Result<bool, NoMemory>
    requires { CanRepeat unit.old (call.now ∷ []) }
    ensures behind { OnOk result (unit.new ≡ unit_behind unit.old (call.now ∷ [])) }
    ensures same { IfOk result (λ same. IsTrue same ↔ (made unit.old (call.now.command ∷ []) ≡ call.now ∷ [])) }
{
    if unit.frame().is_none() {
        return Ok(false);
    }
    let command = call.command.copy(alloc)?;
    unit.call(command)?;
    Ok(is_same(unit.last_reply(), &call.reply))
}

/// Makes calls again, as far as the unit answers them as it did. It tells the number, from 1, of the first one that stands
/// behind the unit's end or is answered otherwise; None where there is none, and the unit stands behind them all.
pub(crate) fn first_other(
    alloc: Global,
    unit: &mut Unit,
    calls: &[Call],
) -> Result<Option<u32>, NoMemory>
    requires { CanRepeat unit.old calls.now }
    ensures { IfOk result (λ other. MatchOption other
        ((unit.new ≡ unit_behind unit.old calls.now) × (made unit.old (commands_of calls.now) ≡ calls.now))
        (IsOtherCall (made unit.old (commands_of calls.now)) calls.now)) }
{
    let mut rest = calls;
    let mut number = 0;
    while let Some((call, others)) = rest.split_first() {
        number += 1;
        if !repeats(alloc, unit, call)? {
            return Ok(Some(number));
        }
        rest = others;
    }
    Ok(None)
}
