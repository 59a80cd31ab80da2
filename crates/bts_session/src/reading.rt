// Sessions read from their text, in place, from the front to the back.
ghost use Rattle.std.specs.Prelude.{◌≡◌, ◌+◌, ◌≤◌, ◌∷◌, Ok, length, IfOk, IsErrOf, MatchResult};
ghost use Rattle.bts_forms.specs.declared.line.ScriptError.TheVariants as error;
ghost use Rattle.bts_script.specs.Blocks.{GivesWhatIsSaid, IsRefusedFor, at_line, by_table};
ghost use Rattle.bts_script.specs.Lines.{lines_of};
ghost use Rattle.bts_session.specs.Sessions.{outside, session_from, session_of, text_limit, with_item};
ghost use Rattle.bts_session.specs.Today.{IsSessionOfToday};
ghost use Rattle.bts_session.specs.Reading.{GoesOn, block_first, by_first, line_count, sections_from, with_new_program, with_request};

use crate::block::find_end;
use crate::{Item, Items, Session};
use bts_browse::Criteria;
use bts_names::{Key, ProgName};
use bts_script::{
    Line, Place, Programs, Script, ScriptError, Word, ends_block, is_skipped, next_line,
    read_block, read_line,
};
use std::alloc::Global;

/// The bytes that a session has at most.
const TEXT_LIMIT: usize = 16_777_216;

/// What is left of a text, and the number of its first line.
#[derive(Clone, Copy, Debug)]
struct Left<'a> {
    number: u32,
    text: &'a [u8],
}

fn refused(line: u32, reason: Word) -> ScriptError
    ensures { result ≡ error.Syntax line reason }
{
    ScriptError::Syntax { line, reason }
}

/// What is said, or the refusal of the line with this number.
fn at_line(number: u32, said: Result<Line, Word>) -> Result<Line, ScriptError>
    ensures { MatchResult result
        (λ line. said ≡ Ok line)
        (λ e. IsRefusedFor e (at_line number said)) }
{
    match said {
        Ok(line) => Ok(line),
        Err(reason) => Err(refused(number, reason)),
    }
}

/// What a line outside of blocks says.
#[tactic(auto, unfolding(crate::specs::Sessions::outside))]
fn read_outside(alloc: Global, number: u32, line: &[u8]) -> Result<Line, ScriptError>
    ensures { MatchResult result
        (λ said. outside by_table line.now ≡ Ok said)
        (λ e. IsRefusedFor e (at_line number (outside by_table line.now))) }
{
    match read_line(alloc, None, line) {
        Ok(said) => at_line(number, said),
        Err(_) => Err(ScriptError::NoMemory),
    }
}

/// Puts an item behind the others, and goes on.
fn add_item<'a>(session: &mut Session, item: Item, left: Left<'a>) -> Result<Left<'a>, ScriptError>
    ensures read { GoesOn result
        (λ x. session_from by_table session.new x.number (lines_of x.text.now))
        (session_from by_table (with_item session.old item) left.entry.number (lines_of left.entry.text.now)) }
    ensures same { IfOk result (λ x. x ≡ left.entry) }
{
    match session.items.push(item) {
        Ok(()) => Ok(left),
        Err(_) => Err(ScriptError::NoMemory),
    }
}

/// Reads the block behind an opening line, and gives its script and what is left behind its END.
fn read_script<'a>(
    alloc: Global,
    place: Place,
    opening: u32,
    text: &'a [u8],
) -> Result<(Script, Left<'a>), ScriptError>
    requires { opening + 1 + line_count text.now ≤ 4294967295 }
    ensures read { GoesOn result
        (λ x. Ok (x.0, sections_from by_table x.1.number x.1.text.now))
        (block_first by_table place opening (sections_from by_table (opening + 1) text.now)) }
    ensures number { IfOk result (λ x. x.1.number + line_count x.1.text.now ≡ opening + 1 + line_count text.now) }
    ensures lines { IfOk result (λ x. line_count x.1.text.now ≤ line_count text.now) }
{
    let Some(block) = find_end(text, opening + 1) else {
        return Err(refused(opening, Word::Open));
    };
    let left = Left {
        number: block.end + 1,
        text: block.behind,
    };
    match read_block(alloc, block.body, opening + 1, place) {
        Ok(script) => Ok((script, left)),
        Err(error) => Err(error),
    }
}

/// Reads a request's block, and puts the request behind the items.
fn read_request<'a>(
    alloc: Global,
    session: &mut Session,
    key: Key,
    opening: u32,
    text: &'a [u8],
) -> Result<Left<'a>, ScriptError>
    requires { opening + 1 + line_count text.now ≤ 4294967295 }
    ensures read { GoesOn result
        (λ left. session_from by_table session.new left.number (lines_of left.text.now))
        (with_request by_table session.old key opening (sections_from by_table (opening + 1) text.now)) }
    ensures number { IfOk result (λ left. left.number + line_count left.text.now ≡ opening + 1 + line_count text.now) }
    ensures lines { IfOk result (λ left. line_count left.text.now ≤ line_count text.now) }
{
    let (script, left) = read_script(alloc, Place::Request, opening, text)?;
    add_item(session, Item::Request { key, script }, left)
}

/// Reads a program's block, and puts the program behind the others.
fn read_program<'a>(
    alloc: Global,
    session: &mut Session,
    name: ProgName,
    opening: u32,
    text: &'a [u8],
) -> Result<Left<'a>, ScriptError>
    requires { opening + 1 + line_count text.now ≤ 4294967295 }
    ensures read { GoesOn result
        (λ left. session_from by_table session.new left.number (lines_of left.text.now))
        (with_new_program by_table session.old name opening (sections_from by_table (opening + 1) text.now)) }
    ensures number { IfOk result (λ left. left.number + line_count left.text.now ≡ opening + 1 + line_count text.now) }
    ensures lines { IfOk result (λ left. line_count left.text.now ≤ line_count text.now) }
{
    if session.programs.holds(name) {
        return Err(refused(opening, Word::Twice));
    }
    let (script, left) = read_script(alloc, Place::Program, opening, text)?;
    match session.programs.push(name, script) {
        Ok(()) => Ok(left),
        Err(_) => Err(ScriptError::NoMemory),
    }
}

/// What a line says that stands outside of blocks goes into the session, with the block that it opens.
#[tactic(auto, using(crate::proofs::Steps::first_program, crate::proofs::Steps::first_request, crate::proofs::Steps::first_clock, crate::proofs::Steps::first_settle, crate::proofs::Steps::first_browse, crate::proofs::Steps::first_statement, crate::proofs::Steps::first_end))]
fn read_said<'a>(
    alloc: Global,
    session: &mut Session,
    said: &Line,
    number: u32,
    behind: &'a [u8],
) -> Result<Left<'a>, ScriptError>
    requires { number + 1 + line_count behind.now ≤ 4294967295 }
    ensures read { GoesOn result
        (λ left. session_from by_table session.new left.number (lines_of left.text.now))
        (by_first by_table session.old number (Ok said.now) (sections_from by_table (number + 1) behind.now)) }
    ensures number { IfOk result (λ left. left.number + line_count left.text.now ≡ number + 1 + line_count behind.now) }
    ensures lines { IfOk result (λ left. line_count left.text.now ≤ line_count behind.now) }
{
    let left = Left {
        number: number + 1,
        text: behind,
    };
    match said {
        Line::Program(name) => read_program(alloc, session, *name, number, behind),
        Line::Request(key) => read_request(alloc, session, *key, number, behind),
        Line::Clock(moment) => add_item(session, Item::Clock(*moment), left),
        Line::Settle => add_item(session, Item::Settle, left),
        Line::Browse {
            ptype,
            pname,
            mode,
            status,
            suspended,
        } => {
            let criteria = Criteria {
                ptype: *ptype,
                pname: *pname,
                mode: *mode,
                status: *status,
                suspended: *suspended,
            };
            add_item(session, Item::Browse(criteria), left)
        }
        Line::Statement(_) | Line::End => Err(refused(number, Word::Place)),
    }
}

/// Reads one line that stands outside of blocks, and the block where the line opens one.
#[tactic(auto, using(crate::proofs::Steps::from_skipped, crate::proofs::Steps::from_end))]
fn read_next<'a>(
    alloc: Global,
    session: &mut Session,
    number: u32,
    line: &[u8],
    behind: &'a [u8],
) -> Result<Left<'a>, ScriptError>
    requires { number + 1 + line_count behind.now ≤ 4294967295 }
    ensures read { GoesOn result
        (λ left. session_from by_table session.new left.number (lines_of left.text.now))
        (session_from by_table session.old number (line.now ∷ lines_of behind.now)) }
    ensures number { IfOk result (λ left. left.number + line_count left.text.now ≡ number + 1 + line_count behind.now) }
    ensures lines { IfOk result (λ left. line_count left.text.now ≤ line_count behind.now) }
{
    if is_skipped(line) {
        return Ok(Left {
            number: number + 1,
            text: behind,
        });
    }
    if ends_block(line) {
        return Err(refused(number, Word::Place));
    }
    match read_outside(alloc, number, line) {
        Ok(said) => read_said(alloc, session, &said, number, behind),
        Err(error) => Err(error),
    }
}

/// The session that bytes say. Syntax comes exactly where they are none, with the first bad line, or with
/// line 0 where they are more than 16,777,216; that is told before any memory is taken. It reads the bytes
/// where they lie, in time that grows with their number but for the look-ups of labels and programs. A
/// session holds items and statements of today alone.
pub fn read_session(alloc: Global, bytes: &[u8]) -> Result<Session, ScriptError>
    ensures said { GivesWhatIsSaid result (session_of bytes.now) }
    ensures memory { IsErrOf result error.NoMemory → length bytes.now ≤ text_limit }
    ensures today { IfOk result (λ session. IsSessionOfToday session) }
{
    if bytes.len() > TEXT_LIMIT {
        return Err(refused(0, Word::Long));
    }
    let mut session = Session {
        items: Items::new(alloc),
        programs: Programs::new(alloc),
    };
    let mut left = Left {
        number: 1,
        text: bytes,
    };
    while let Some((line, behind)) = next_line(left.text) {
        left = read_next(alloc, &mut session, left.number, line, behind)?;
    }
    Ok(session)
}
