// The next command of a script.
ghost use Rattle.std.specs.Prelude.{◌≡◌, ◌+◌, Option};
ghost use Rattle.bts_interp.specs.Reaching.{is_label, labels, next_by, passed, reached_by};
ghost use Rattle.bts_interp.specs.Steps.{Reached, Script, behind_label, behind_labels, next, step};

use crate::Steps;
use crate::facts::is_so;
use bts_command::Call;
use bts_forms::Statement;
use bts_names::Name16;
use std::sync::ledger::Ledger;

/// What the statement at a place does.
#[derive(Clone, Copy)]
pub(crate) enum Step<'a> {
    /// It is a command, or there is none and a command stands behind the last one; the place behind it.
    Command(Option<&'a Statement>, &'a [Statement]),
    /// It leads on to this place.
    Jump(&'a [Statement]),
}

/// A command that is reached: its statement, or none at the end of the script; how many statements there are up to it and
/// with it; and the place behind it.
#[derive(Clone, Copy)]
pub(crate) struct Reach<'a> {
    pub(crate) statement: Option<&'a Statement>,
    pub(crate) count: u32,
    pub(crate) place: &'a [Statement],
}

fn is_label(statement: &Statement) -> bool
    ensures { result ≡ is_label statement.now }
{
    matches!(statement, Statement::Label(_))
}

fn labels(label: &Name16, statement: &Statement) -> bool
    ensures { result ≡ labels label.now statement.now }
{
    match statement {
        Statement::Label(found) => label == found,
        _ => false,
    }
}

fn behind_label<'a>(script: &'a [Statement], label: &Name16) -> &'a [Statement]
    ensures { result.now ≡ behind_label label.now script.now }
{
    let mut rest = script;
    while let Some((statement, behind)) = rest.split_first() {
        if labels(label, statement) {
            return behind;
        }
        rest = behind;
    }
    rest
}

fn behind_labels(place: &[Statement]) -> &[Statement]
    ensures { result.now ≡ behind_labels place.now }
{
    let mut rest = place;
    while let Some((statement, behind)) = rest.split_first() {
        if !is_label(statement) {
            return rest;
        }
        rest = behind;
    }
    rest
}

fn step_at<'a>(script: &'a [Statement], own: &[Call], place: &'a [Statement]) -> Step<'a>
    ensures { (on : Script → Option Reached) → step on script.now own.now (behind_labels place.now) ≡ next_by own.now on result }
{
    let place = behind_labels(place);
    let Some((statement, rest)) = place.split_first() else {
        return Step::Command(None, place);
    };
    match statement {
        Statement::Goto(label) => Step::Jump(behind_label(script, label)),
        Statement::When { cond, label } => {
            if is_so(own, cond) {
                Step::Jump(behind_label(script, label))
            } else {
                Step::Jump(rest)
            }
        }
        _ => Step::Command(Some(statement), rest),
    }
}

/// Runs a script from a place on until a command is reached, at most so many statements with the command's. None where
/// none of these is a command's.
pub(crate) fn run_to_command<'a, L: Ledger>(
    script: &'a [Statement],
    from: &'a [Statement],
    own: &[Call],
    most: u32,
    steps: &mut Steps<L>,
) -> Option<Reach<'a>>
    ensures reached { reached_by own.now result ≡ next most script.now own.now from.now }
    ensures steps { steps.new ≡ steps.old + passed most result }
{
    let mut place = from;
    for passed in 0..most {
        match step_at(script, own, place) {
            Step::Command(statement, place) => {
                return Some(Reach {
                    statement,
                    count: passed + 1,
                    place,
                });
            }
            Step::Jump(to) => place = to,
        }
        steps.tick();
    }
    None
}
