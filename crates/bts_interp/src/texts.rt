// The texts that a unit follows.
ghost use Rattle.std.specs.Prelude.{◌≡◌, Option};
ghost use Rattle.std.specs.List.{slice_get};
ghost use Rattle.std.specs.Option.{option_and_then, option_copied};
ghost use Rattle.bts_unit.specs.Frames.{path_of, top_frame};
ghost use Rattle.bts_interp.specs.Items as items;
ghost use Rattle.bts_interp.specs.Texts as texts;

use bts_command::UnitKind;
use bts_forms::Statement;
use bts_names::ProgName;
use bts_session::{Item, Session};
use bts_unit::{Frame, Unit};

/// The number of the session's item that a unit does; None where it does none.
pub fn item_of(unit: &UnitKind) -> Option<u32>
    ensures { result ≡ items.item_of unit.now }
{
    match unit {
        UnitKind::Request { item, .. } => Some(*item),
        UnitKind::Clock { item } => Some(*item),
        UnitKind::Settle { item } => Some(*item),
        UnitKind::Browse { item } => Some(*item),
        _ => None,
    }
}

fn nth(items: &[Item], place: usize) -> Option<&Item>
    ensures { option_copied result ≡ slice_get items.now place }
{
    items.get(place)
}

/// The item of that number, from 1.
fn item_at(session: &Session, number: u32) -> Option<&Item>
    ensures { option_copied result ≡ items.item_at session.now number }
{
    if number == 0 {
        return None;
    }
    nth(session.items.as_slice(), number as usize - 1)
}

/// The block of the request that a unit is; no line where it is none.
fn block_of<'a>(session: &'a Session, unit: &UnitKind) -> &'a [Statement]
    ensures { result.now ≡ items.block_in (items.item_done session.now unit.now) }
{
    let Some(number) = item_of(unit) else {
        return &[];
    };
    let Some(item) = item_at(session, number) else {
        return &[];
    };
    match item {
        Item::Request { script, .. } => script.as_slice(),
        _ => &[],
    }
}

/// The script of a program; where the session lacks it, `missing`.
fn program_of<'a>(
    session: &'a Session,
    program: Option<ProgName>,
    missing: &'a [Statement],
) -> &'a [Statement]
    requires { missing.now ≡ texts.no_program }
    ensures { result.now ≡ texts.program_of session.now.programs program }
{
    let Some(name) = program else {
        return missing;
    };
    let Some(script) = session.programs.get(name) else {
        return missing;
    };
    script.as_slice()
}

/// What a unit's first frame follows, with that program in it; `missing` is what stands for a missing program.
pub(crate) fn script_of<'a>(
    session: &'a Session,
    unit: &UnitKind,
    program: Option<ProgName>,
    missing: &'a [Statement],
) -> &'a [Statement]
    requires { missing.now ≡ texts.no_program }
    ensures { result.now ≡ texts.script_in (items.texts_of session.now unit.now) (path_of unit.now) program }
{
    match unit {
        UnitKind::Activation { .. } => program_of(session, program, missing),
        _ => block_of(session, unit),
    }
}

/// The program that runs in the open frame.
pub(crate) fn program_in(unit: &Unit) -> Option<ProgName>
    ensures { result ≡ option_and_then (λ f. f.program) (top_frame unit.now.frames) }
{
    match unit.frame() {
        Some(
            Frame {
                at: _,
                program,
                depth: _,
            },
        ) => program,
        None => None,
    }
}
