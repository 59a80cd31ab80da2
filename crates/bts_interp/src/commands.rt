// The command that is called where a statement is reached.
ghost use Rattle.std.specs.Prelude.{◌≡◌, IfOk};
ghost use Rattle.std.specs.Option.{option_copied};
ghost use Rattle.bts_interp.specs.Commands.{command_said};

use crate::facts::bytes_of;
use bts_command::{Call, Command};
use bts_forms::Statement;
use bts_names::NoMemory;
use std::alloc::Global;

/// The command of a statement; behind the last one stands RETURN. Where a statement only leads on, there is none, and
/// RETURN is answered.
pub(crate) fn command_of(
    alloc: Global,
    statement: Option<&Statement>,
    own: &[Call],
) -> Result<Command, NoMemory>
    ensures { IfOk result (λ c. c ≡ command_said own.now (option_copied statement.entry)) }
{
    match statement {
        Some(Statement::Command(command)) => command.copy(alloc),
        Some(
            Statement::Put {
                container,
                spot,
                given,
            },
        ) => {
            let from = bytes_of(alloc, own, given)?;
            Ok(Command::PutContainer {
                container: *container,
                spot: *spot,
                from,
            })
        }
        _ => Ok(Command::Return {
            end_activity: false,
        }),
    }
}
