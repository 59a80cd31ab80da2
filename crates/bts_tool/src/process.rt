// What the process is given, and what it ends with.
ghost use Rattle.std.specs.Prelude.{◌≡◌, IfOk};
ghost use Rattle.std.specs.Process.{exit_status};
ghost use Rattle.bts_tool.specs.Words.{behind_first};

use crate::top_call::Outcome;
use bts_names::NoMemory;
use std::alloc::Global;
use std::env::Args;
use std::process::ExitCode;

/// The arguments behind the first one, which is the program's own name.
pub fn behind_first(alloc: Global, arguments: Args) -> Result<Vec<String>, NoMemory>
    ensures { IfOk result (λ words. words.items ≡ behind_first arguments) }
{
    let mut words = Vec::new(alloc);
    let mut rest = arguments;
    let _name = rest.next();
    while let Some(word) = rest.next() {
        words.push(word)?;
    }
    Ok(words)
}

/// The exit status that tells an outcome.
pub fn exit_code(outcome: &Outcome) -> ExitCode
    ensures { exit_status result ≡ outcome.now.status }
{
    ExitCode::from(outcome.status)
}
