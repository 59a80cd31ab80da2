// Replies.
ghost use Rattle.std.specs.Prelude.{◌≡◌, None};
ghost use Rattle.std.specs.Option.{option_map};
ghost use Rattle.bts_names.specs.declared.reply.Resp.TheVariants.{Eventerr};
ghost use Rattle.bts_event.specs.Refusals.{Answers};
ghost use Rattle.bts_act.specs.Replies.{normal, refusal, reply_to};

use bts_event::PoolError;
use bts_names::{NoMemory, Reason, Reply, Resp, Value};

/// The reply of a command that was done.
pub fn normal_reply(value: Value) -> Reply
    ensures { result ≡ normal value }
{
    Reply {
        resp: Resp::Normal,
        reason: Reason::None,
        value,
    }
}

/// The reply of a command that was refused.
pub fn refused(resp: Resp, reason: Reason) -> Reply
    ensures { result ≡ refusal resp reason }
{
    Reply {
        resp,
        reason,
        value: Value::Nothing,
    }
}

/// The reply of a command on events, where there is a reason against it.
pub(crate) fn refused_event(reason: Option<Reason>) -> Option<Reply>
    ensures { result ≡ option_map (refusal Eventerr) reason }
{
    match reason {
        Some(reason) => Some(refused(Resp::Eventerr, reason)),
        None => None,
    }
}

/// What a command on events answers to a call of the pool that isn't refused.
pub(crate) fn reply_to_pool(called: Result<(), PoolError>) -> Result<Reply, NoMemory>
    requires { Answers called None }
    ensures { result ≡ reply_to called }
{
    match called {
        Ok(()) => Ok(normal_reply(Value::Nothing)),
        Err(PoolError::NoMemory) => Err(NoMemory),
        Err(PoolError::Refused(_)) => unreachable!(),
    }
}
