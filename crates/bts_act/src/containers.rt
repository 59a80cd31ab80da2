// The commands on containers, as they are done where the containers are.
ghost use Rattle.std.specs.Prelude.{◌≡◌, true, false, Ok};
ghost use Rattle.bts_names.specs.Answer.{mapped};
ghost use Rattle.bts_tree.specs.Processes.{with_containers};
ghost use Rattle.bts_tree.specs.Scopes.{LeavesMarks};
ghost use Rattle.bts_rows.specs.OnContainers as on;
ghost use Rattle.bts_act.specs.Does.{Does, Reads, is_done};

use crate::replies::{normal_reply, refused};
use bts_command::Command;
use bts_container::{ContainerPool, PutError};
use bts_names::{Blob, Name16, NoMemory, Path, Reason, Reply, Resp, Value};
use bts_tree::Scope;
use std::alloc::Global;

/// A command on the containers of the process.
pub(crate) fn change_process(
    scope: &mut Scope,
    alloc: Global,
    command: &Command,
) -> Result<Reply, NoMemory>
    ensures row { Does result scope.old.process scope.new.process
        (mapped (λ x. with_containers x scope.old.process) (on.on_containers command.now scope.old.process.containers)) }
    ensures rest { LeavesMarks scope.old scope.new }
{
    if let Some(reply) = refuses_change(scope.containers(), command) {
        return Ok(reply);
    }
    scope.save(&Path::root(), false)?;
    change_containers(scope.edit_containers(), alloc, command)
}

/// A command on containers that are only read.
#[tactic(auto, unfolding(bts_rows::specs::OnContainers::on_shown))]
pub(crate) fn show_containers(
    pool: &ContainerPool,
    alloc: Global,
    command: &Command,
) -> Result<Reply, NoMemory>
    ensures { Does result pool.now pool.now (on.on_shown command.now pool.now) }
{
    match command {
        Command::GetContainer { container, spot: _ } => get_container(pool, alloc, *container),
        _ => Ok(refused(Resp::Invreq, Reason::Place)),
    }
}

#[tactic(auto, unfolding(bts_rows::specs::OnContainers::on_containers))]
fn refuses_change(pool: &ContainerPool, command: &Command) -> Option<Reply>
    ensures { Reads false (Ok result) pool.now (on.on_containers command.now pool.now) }
{
    match command {
        Command::PutContainer {
            container,
            spot: _,
            from,
        } => refuses_put(pool, *container, from.as_slice()),
        Command::DeleteContainer { container, spot: _ } => refuses_delete(pool, *container),
        _ => Some(refused(Resp::Invreq, Reason::Place)),
    }
}

#[tactic(auto, unfolding(bts_rows::specs::OnContainers::on_containers))]
fn change_containers(
    pool: &mut ContainerPool,
    alloc: Global,
    command: &Command,
) -> Result<Reply, NoMemory>
    requires { is_done (on.on_containers command.now pool.old) ≡ true }
    ensures { Does result pool.old pool.new (on.on_containers command.now pool.old) }
{
    match command {
        Command::PutContainer {
            container,
            spot: _,
            from,
        } => put_container(pool, alloc, *container, from.as_slice()),
        Command::DeleteContainer { container, spot: _ } => {
            Ok(delete_container(pool, *container))
        }
        _ => unreachable!(),
    }
}

pub(crate) fn refuses_put(pool: &ContainerPool, container: Name16, from: &[u8]) -> Option<Reply>
    ensures { Reads false (Ok result) pool.now (on.put container from.now pool.now) }
{
    match pool.refuses_put(container, from) {
        Some(PutError::Long) => Some(refused(Resp::Lengerr, Reason::Long)),
        Some(PutError::Limit) => Some(refused(Resp::Containererr, Reason::Limit)),
        Some(PutError::NoMemory) | None => None,
    }
}

pub(crate) fn put_container(
    pool: &mut ContainerPool,
    alloc: Global,
    container: Name16,
    from: &[u8],
) -> Result<Reply, NoMemory>
    requires { is_done (on.put container from.now pool.old) ≡ true }
    ensures { Does result pool.old pool.new (on.put container from.now pool.old) }
{
    match pool.put(alloc, container, from) {
        Ok(()) => Ok(normal_reply(Value::Nothing)),
        Err(PutError::NoMemory) => Err(NoMemory),
        Err(PutError::Long | PutError::Limit) => unreachable!(),
    }
}

pub(crate) fn get_container(
    pool: &ContainerPool,
    alloc: Global,
    container: Name16,
) -> Result<Reply, NoMemory>
    ensures { Does result pool.now pool.now (on.get container pool.now) }
{
    match pool.get(container) {
        Some(bytes) => Ok(normal_reply(Value::Bytes(Blob::copy_of(alloc, bytes)?))),
        None => Ok(refused(Resp::Containererr, Reason::Missing)),
    }
}

pub(crate) fn refuses_delete(pool: &ContainerPool, container: Name16) -> Option<Reply>
    ensures { Reads false (Ok result) pool.now (on.delete container pool.now) }
{
    if pool.get(container).is_none() {
        return Some(refused(Resp::Containererr, Reason::Missing));
    }
    None
}

pub(crate) fn delete_container(pool: &mut ContainerPool, container: Name16) -> Reply
    requires { is_done (on.delete container pool.old) ≡ true }
    ensures { Does (Ok result) pool.old pool.new (on.delete container pool.old) }
{
    pool.delete(container);
    normal_reply(Value::Nothing)
}
