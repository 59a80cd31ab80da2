// The lines of commands on events.
ghost use Rattle.std.specs.Prelude.{◌≡◌, ◌∷◌, [], Some, IfOk, codes};
ghost use Rattle.bts_command.specs.declared.command.Command.TheVariants.{AddSubevent, DefineComposite, RemoveSubevent};
ghost use Rattle.bts_forms.specs.Arguments.{name};
ghost use Rattle.bts_forms.specs.Pieces.{made_of_2, made_of_3, ended, given, alone, joined, read_behind, up_to};
ghost use Rattle.bts_forms.specs.Forms.{define_composite, define_input, add_subevent, remove_subevent, delete_event, test_event, retrieve_reattach, retrieve_subevent};

use crate::Word;
use crate::fields::{connective, given_name};
use crate::pieces::behind_word;
use bts_command::{Command, Names};
use bts_names::{Name16, NoMemory};
use std::alloc::Global;

/// The most sub-events of a new composite.
const MOST_SUBS: usize = 8;

/// DEFINE INPUT EVENT(e)
#[tactic(auto, unfolding(crate::specs::Forms::define_input, crate::specs::Pieces::ended))]
pub fn define_input(line: &[u8]) -> Option<Result<Command, Word>>
    ensures { result ≡ ended (define_input line.now) }
{
    let rest = behind_word(b"DEFINE", line)?;
    let rest = behind_word(b"INPUT", rest)?;
    let Some((event, rest)) = given_name(b"EVENT", rest) else {
        return None;
    };
    rest.is_empty()
        .then_some(event.map(|event| Command::DefineInput { event }))
}

fn add_subevent_of(sub: Result<Name16, Word>, event: Result<Name16, Word>) -> Result<Command, Word>
    ensures { result ≡ made_of_2 AddSubevent sub event }
{
    let sub = sub?;
    let event = event?;
    Ok(Command::AddSubevent { sub, event })
}

/// ADD SUBEVENT(s) EVENT(e)
#[tactic(auto, unfolding(crate::specs::Forms::add_subevent, crate::specs::Pieces::ended))]
pub fn add_subevent(line: &[u8]) -> Option<Result<Command, Word>>
    ensures { result ≡ ended (add_subevent line.now) }
{
    let rest = behind_word(b"ADD", line)?;
    let Some((sub, rest)) = given_name(b"SUBEVENT", rest) else {
        return None;
    };
    let Some((event, rest)) = given_name(b"EVENT", rest) else {
        return None;
    };
    rest.is_empty().then_some(add_subevent_of(sub, event))
}

fn remove_subevent_of(
    sub: Result<Name16, Word>,
    event: Result<Name16, Word>,
) -> Result<Command, Word>
    ensures { result ≡ made_of_2 RemoveSubevent sub event }
{
    let sub = sub?;
    let event = event?;
    Ok(Command::RemoveSubevent { sub, event })
}

/// REMOVE SUBEVENT(s) EVENT(e)
#[tactic(auto, unfolding(crate::specs::Forms::remove_subevent, crate::specs::Pieces::ended))]
pub fn remove_subevent(line: &[u8]) -> Option<Result<Command, Word>>
    ensures { result ≡ ended (remove_subevent line.now) }
{
    let rest = behind_word(b"REMOVE", line)?;
    let Some((sub, rest)) = given_name(b"SUBEVENT", rest) else {
        return None;
    };
    let Some((event, rest)) = given_name(b"EVENT", rest) else {
        return None;
    };
    rest.is_empty().then_some(remove_subevent_of(sub, event))
}

/// DELETE EVENT(e)
#[tactic(auto, unfolding(crate::specs::Forms::delete_event, crate::specs::Pieces::ended))]
pub fn delete_event(line: &[u8]) -> Option<Result<Command, Word>>
    ensures { result ≡ ended (delete_event line.now) }
{
    let rest = behind_word(b"DELETE", line)?;
    let Some((event, rest)) = given_name(b"EVENT", rest) else {
        return None;
    };
    rest.is_empty()
        .then_some(event.map(|event| Command::DeleteEvent { event }))
}

/// TEST EVENT(e)
#[tactic(auto, unfolding(crate::specs::Forms::test_event, crate::specs::Pieces::ended))]
pub fn test_event(line: &[u8]) -> Option<Result<Command, Word>>
    ensures { result ≡ ended (test_event line.now) }
{
    let rest = behind_word(b"TEST", line)?;
    let Some((event, rest)) = given_name(b"EVENT", rest) else {
        return None;
    };
    rest.is_empty()
        .then_some(event.map(|event| Command::TestEvent { event }))
}

/// RETRIEVE REATTACH EVENT
#[tactic(auto, unfolding(crate::specs::Forms::retrieve_reattach, crate::specs::Pieces::ended))]
pub fn retrieve_reattach(line: &[u8]) -> Option<Result<Command, Word>>
    ensures { result ≡ ended (retrieve_reattach line.now) }
{
    let rest = behind_word(b"RETRIEVE", line)?;
    let rest = behind_word(b"REATTACH", rest)?;
    let rest = behind_word(b"EVENT", rest)?;
    rest.is_empty().then_some(Ok(Command::RetrieveReattach))
}

/// RETRIEVE SUBEVENT EVENT(e)
#[tactic(auto, unfolding(crate::specs::Forms::retrieve_subevent, crate::specs::Pieces::ended))]
pub fn retrieve_subevent(line: &[u8]) -> Option<Result<Command, Word>>
    ensures { result ≡ ended (retrieve_subevent line.now) }
{
    let rest = behind_word(b"RETRIEVE", line)?;
    let rest = behind_word(b"SUBEVENT", rest)?;
    let Some((event, rest)) = given_name(b"EVENT", rest) else {
        return None;
    };
    rest.is_empty()
        .then_some(event.map(|event| Command::RetrieveSubevent { event }))
}

/// The names so far and one more; the first refusal stays.
fn with_name(
    said: Result<Names, Word>,
    name: Result<Name16, Word>,
) -> Result<Result<Names, Word>, NoMemory>
    ensures { IfOk result (λ r. r ≡ joined said (alone name)) }
{
    let mut names = match said {
        Ok(names) => names,
        Err(why) => return Ok(Err(why)),
    };
    match name {
        Ok(name) => {
            names.push(name)?;
            Ok(Ok(names))
        }
        Err(why) => Ok(Err(why)),
    }
}

/// The names of so many sub-events or fewer, behind those so far.
#[tactic(auto, using(crate::proofs::Lists::one_more, crate::proofs::Lists::no_more, crate::proofs::Lists::none_left))]
fn sub_names(
    most: usize,
    said: Result<Names, Word>,
    line: &[u8],
) -> Result<(Result<Names, Word>, &[u8]), NoMemory>
    ensures { IfOk result (λ r. read_behind said (up_to most (given (codes "SUBEVENT") name) line.now) ≡ Some (r.0, r.1.now)) }
{
    if most == 0 {
        return Ok((said, line));
    }
    let Some((name, rest)) = given_name(b"SUBEVENT", line) else {
        return Ok((said, line));
    };
    let said = with_name(said, name)?;
    sub_names(most - 1, said, rest)
}

#[tactic(auto, using(crate::proofs::Lists::all_of_them))]
fn subs(alloc: Global, most: usize, line: &[u8]) -> Result<(Result<Names, Word>, &[u8]), NoMemory>
    ensures { IfOk result (λ r. up_to most (given (codes "SUBEVENT") name) line.now ≡ Some (r.0, r.1.now)) }
{
    sub_names(most, Ok(Names::new(alloc)), line)
}

fn define_composite_of(
    event: Result<Name16, Word>,
    all: Result<bool, Word>,
    subs: Result<Names, Word>,
) -> Result<Command, Word>
    ensures { result ≡ made_of_3 DefineComposite event all subs }
{
    let event = event?;
    let all = all?;
    let subs = subs?;
    Ok(Command::DefineComposite { event, all, subs })
}

/// DEFINE COMPOSITE EVENT(e) AND [SUBEVENT(s)], or OR; SUBEVENT none to eight times
#[tactic(auto, unfolding(crate::specs::Forms::define_composite, crate::specs::Pieces::ended))]
pub fn define_composite(
    alloc: Global,
    line: &[u8],
) -> Result<Option<Result<Command, Word>>, NoMemory>
    ensures { IfOk result (λ r. r ≡ ended (define_composite line.now)) }
{
    let Some(rest) = behind_word(b"DEFINE", line) else {
        return Ok(None);
    };
    let Some(rest) = behind_word(b"COMPOSITE", rest) else {
        return Ok(None);
    };
    let Some((event, rest)) = given_name(b"EVENT", rest) else {
        return Ok(None);
    };
    let Some((all, rest)) = connective(rest) else {
        return Ok(None);
    };
    let (subs, rest) = subs(alloc, MOST_SUBS, rest)?;
    if !rest.is_empty() {
        return Ok(None);
    }
    Ok(Some(define_composite_of(event, all, subs)))
}
