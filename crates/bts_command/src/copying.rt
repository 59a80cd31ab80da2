// Copies of commands, for which there may be no memory.
ghost use Rattle.std.specs.Prelude.{◌≡◌, IfOk};

use crate::{Command, Names};
use bts_names::{Blob, NoMemory};
use std::alloc::Global;

fn copy_of_names(alloc: Global, names: &Names) -> Result<Names, NoMemory>
    ensures { IfOk result (λ copy. copy ≡ names.now) }
{
    Ok(Names::from_vec(Vec::from_slice(alloc, names.as_slice())?))
}

impl Command {
    /// The same command again, with bytes and names of its own.
    pub fn copy(&self, alloc: Global) -> Result<Command, NoMemory>
        ensures { IfOk result (λ copy. copy ≡ self.now) }
    {
        Ok(match *self {
            Command::DefineProcess { transid, program } => Command::DefineProcess {
                transid,
                program,
            },
            Command::AcquireProcess => Command::AcquireProcess,
            Command::AcquireActivity { path } => Command::AcquireActivity { path },
            Command::PurgeProcess => Command::PurgeProcess,
            Command::DefineActivity {
                activity,
                event,
                transid,
                program,
            } => Command::DefineActivity {
                activity,
                event,
                transid,
                program,
            },
            Command::DeleteActivity { activity } => Command::DeleteActivity { activity },
            Command::Run {
                target,
                synchronous,
                input,
            } => Command::Run {
                target,
                synchronous,
                input,
            },
            Command::Link { target, input } => Command::Link { target, input },
            Command::Check { target } => Command::Check { target },
            Command::Cancel { target } => Command::Cancel { target },
            Command::Reset { target } => Command::Reset { target },
            Command::Suspend { target } => Command::Suspend { target },
            Command::Resume { target } => Command::Resume { target },
            Command::PutContainer {
                container,
                spot,
                ref from,
            } => {
                let from = Blob::copy_of(alloc, from.as_slice())?;
                Command::PutContainer {
                    container,
                    spot,
                    from,
                }
            }
            Command::GetContainer { container, spot } => Command::GetContainer { container, spot },
            Command::DeleteContainer { container, spot } => Command::DeleteContainer {
                container,
                spot,
            },
            Command::DefineInput { event } => Command::DefineInput { event },
            Command::DefineComposite {
                event,
                all,
                ref subs,
            } => {
                let subs = copy_of_names(alloc, subs)?;
                Command::DefineComposite { event, all, subs }
            }
            Command::AddSubevent { sub, event } => Command::AddSubevent { sub, event },
            Command::RemoveSubevent { sub, event } => Command::RemoveSubevent { sub, event },
            Command::DeleteEvent { event } => Command::DeleteEvent { event },
            Command::TestEvent { event } => Command::TestEvent { event },
            Command::RetrieveReattach => Command::RetrieveReattach,
            Command::RetrieveSubevent { event } => Command::RetrieveSubevent { event },
            Command::DefineTimer { timer, event, due } => Command::DefineTimer {
                timer,
                event,
                due,
            },
            Command::ForceTimer { timer, target } => Command::ForceTimer { timer, target },
            Command::CheckTimer { timer } => Command::CheckTimer { timer },
            Command::DeleteTimer { timer } => Command::DeleteTimer { timer },
            Command::Return { end_activity } => Command::Return { end_activity },
            Command::Abend { code } => Command::Abend { code },
            Command::Rollback => Command::Rollback,
        })
    }
}
