// The script of a block.
ghost use Rattle.std.specs.Prelude.{◌≡◌, ◌+◌, ◌≤◌, ◌++◌, ◌∷◌, [], List, length, IfOk, IfErr, OnOk};
ghost use Rattle.std.specs.List.{cons_option, AllByRecursion};
ghost use Rattle.std.specs.Option.{option_copied};
ghost use Rattle.bts_forms.specs.Today.{IsOfToday};
ghost use Rattle.bts_script.specs.Lines.{lines_of};
ghost use Rattle.bts_script.specs.Blocks.{Numbered, is_in, is_outside, label_of, goal_of, label_said, labels_by, labels_of, with_labels, statement_in, numbered, block_of, IsRefusedFor, GivesWhatIsSaid, by_table};
ghost use Rattle.bts_script.specs.Begun.{HaveSame, IsAdded, label_at, line_first, said_with};

use crate::{is_skipped, next_line, read_line};
use bts_forms::{Line, Place, Script, ScriptError, Statement, Word};
use bts_names::{Name16, NoMemory};
use std::alloc::Global;
use std::collections::BTreeSet;

/// What was read of a block, with the labels of the lines that were read, and those of all its lines.
#[derive(Drop)]
struct Block {
    place: Place,
    labels: BTreeSet<Name16>,
    before: BTreeSet<Name16>,
    script: Script,
}

/// The label that a statement is.
fn label_of(statement: &Statement) -> Option<&Name16>
    ensures { option_copied result ≡ label_of statement.now }
{
    match statement {
        Statement::Label(label) => Some(label),
        _ => None,
    }
}

/// The label to which a statement leads.
fn goal_of(statement: &Statement) -> Option<&Name16>
    ensures { option_copied result ≡ goal_of statement.now }
{
    match statement {
        Statement::Goto(label) => Some(label),
        Statement::When { label, .. } => Some(label),
        _ => None,
    }
}

fn is_in(labels: &BTreeSet<Name16>, label: Option<&Name16>) -> bool
    ensures { result ≡ is_in labels.now.keys (option_copied label.entry) }
{
    match label {
        Some(label) => labels.contains(label),
        None => false,
    }
}

fn is_outside(labels: &BTreeSet<Name16>, label: Option<&Name16>) -> bool
    ensures { result ≡ is_outside labels.now.keys (option_copied label.entry) }
{
    match label {
        Some(label) => !labels.contains(label),
        None => false,
    }
}

/// A statement, unless it is a label that was there before, or leads to one that isn't there.
fn with_labels(
    before: &BTreeSet<Name16>,
    all: &BTreeSet<Name16>,
    said: Result<Statement, Word>,
) -> Result<Statement, Word>
    ensures { result ≡ with_labels before.now.keys all.now.keys said }
{
    let statement = said?;
    if is_in(before, label_of(&statement)) {
        return Err(Word::Twice);
    }
    if is_outside(all, goal_of(&statement)) {
        return Err(Word::Label);
    }
    Ok(statement)
}

/// The statement that a line of a block says.
fn statement_in(
    alloc: Global,
    place: Place,
    text: &[u8],
) -> Result<Result<Statement, Word>, NoMemory>
    ensures { IfOk result (λ said. said ≡ statement_in by_table place text.now) }
{
    match read_line(alloc, Some(place), text)? {
        Ok(Line::Statement(statement)) => Ok(Ok(statement)),
        Ok(_) => Ok(Err(Word::Place)),
        Err(why) => Ok(Err(why)),
    }
}

fn label_said(said: Result<Statement, Word>) -> Option<Name16>
    ensures { result ≡ label_said said }
{
    match said {
        Ok(statement) => label_of(&statement).copied(),
        Err(_) => None,
    }
}

/// The label that a line of a block is.
fn label_at(alloc: Global, place: Place, text: &[u8]) -> Result<Option<Name16>, NoMemory>
    ensures { IfOk result (λ label. label ≡ label_at place text.now) }
{
    if is_skipped(text) {
        return Ok(None);
    }
    let said = statement_in(alloc, place, text)?;
    Ok(label_said(said))
}

#[tactic(auto, using(crate::proofs::Labels::with_new))]
fn add(labels: &mut BTreeSet<Name16>, label: Option<Name16>) -> Result<(), NoMemory>
    ensures { OnOk result (HaveSame labels.new.keys (labels.old.keys ++ cons_option label [])) }
{
    if let Some(label) = label {
        labels.insert(label)?;
    }
    Ok(())
}

/// The labels of all lines of a block.
fn labels_of(alloc: Global, place: Place, text: &[u8]) -> Result<BTreeSet<Name16>, NoMemory>
    ensures { IfOk result (λ labels. HaveSame labels.keys (labels_of by_table place (numbered 0 (lines_of text.now)))) }
{
    let mut labels = BTreeSet::new(alloc);
    let mut rest = text;
    while let Some(next) = next_line(rest) {
        add(&mut labels, label_at(alloc, place, next.0)?)?;
        rest = next.1;
    }
    Ok(labels)
}

impl Block {
    fn add(&mut self, statement: Statement) -> Result<(), NoMemory>
        ensures { OnOk result (IsAdded self.old self.new statement) }
    {
        add(&mut self.before, label_of(&statement).copied())?;
        self.script.push(statement)?;
        Ok(())
    }

    /// Reads the next line.
    fn read(&mut self, alloc: Global, number: u32, text: &[u8]) -> Result<(), ScriptError>
        ensures ok { OnOk result ((others : List Numbered) → said_with self.new others ≡ said_with self.old (line_first number text.now others)) }
        ensures err { IfErr result (λ e. (others : List Numbered) → IsRefusedFor e (said_with self.old (line_first number text.now others))) }
    {
        if is_skipped(text) {
            return Ok(());
        }
        let said = statement_in(alloc, self.place, text)?;
        match with_labels(&self.before, &self.labels, said) {
            Ok(statement) => {
                self.add(statement)?;
                Ok(())
            }
            Err(reason) => Err(ScriptError::Syntax {
                line: number,
                reason,
            }),
        }
    }
}

/// The script of a block, whose lines are numbered from `first` on: each line is a statement, remarks are
/// skipped, and each label to which one leads is in the block, once. The first bad line is told. It takes time
/// in the length of the text and the logarithm of the number of labels.
///
/// The lines' numbers must stay below 2 ^ 32.
pub fn read_block(
    alloc: Global,
    text: &[u8],
    first: u32,
    place: Place,
) -> Result<Script, ScriptError>
    requires { first + length (lines_of text.now) ≤ 4294967295 }
    ensures said { GivesWhatIsSaid result (block_of place first (lines_of text.now)) }
    ensures today { IfOk result (λ script. AllByRecursion IsOfToday script) }
{
    let mut block = Block {
        place,
        labels: labels_of(alloc, place, text)?,
        before: BTreeSet::new(alloc),
        script: Script::new(alloc),
    };
    let mut number = first;
    let mut rest = text;
    while let Some(next) = next_line(rest) {
        block.read(alloc, number, next.0)?;
        number += 1;
        rest = next.1;
    }
    Ok(block.script)
}
