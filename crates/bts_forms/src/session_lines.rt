// The lines of a session that are no statements.
ghost use Rattle.std.specs.Prelude.{◌≡◌};
ghost use Rattle.bts_forms.specs.declared.line.Line.TheVariants.{Browse, Request};
ghost use Rattle.bts_forms.specs.Pieces.{made_of_2, made_of_5, ended};
ghost use Rattle.bts_forms.specs.Forms.{program_line, request_line, end_line, clock_line, settle_line, browse_line};

use crate::fields::{bare_moment, bare_name, maybe_mode, maybe_name, maybe_status, whether};
use crate::pieces::behind_word;
use crate::{Line, Word};
use bts_names::{Key, Mode, ProcName, ProcType, Status};

/// PROGRAM name
#[tactic(auto, unfolding(crate::specs::Forms::program_line, crate::specs::Pieces::ended))]
pub fn program_line(line: &[u8]) -> Option<Result<Line, Word>>
    ensures { result ≡ ended (program_line line.now) }
{
    let rest = behind_word(b"PROGRAM", line)?;
    let Some((program, rest)) = bare_name(rest) else {
        return None;
    };
    rest.is_empty()
        .then_some(program.map(|program| Line::Program(program)))
}

fn request_of(ptype: Result<ProcType, Word>, pname: Result<ProcName, Word>) -> Result<Line, Word>
    ensures { result ≡ made_of_2 (λ t n. Request (record { ptype = t; pname = n })) ptype pname }
{
    let ptype = ptype?;
    let pname = pname?;
    Ok(Line::Request(Key { ptype, pname }))
}

/// REQUEST type name
#[tactic(auto, unfolding(crate::specs::Forms::request_line, crate::specs::Pieces::ended))]
pub fn request_line(line: &[u8]) -> Option<Result<Line, Word>>
    ensures { result ≡ ended (request_line line.now) }
{
    let rest = behind_word(b"REQUEST", line)?;
    let Some((ptype, rest)) = bare_name(rest) else {
        return None;
    };
    let Some((pname, rest)) = bare_name(rest) else {
        return None;
    };
    rest.is_empty().then_some(request_of(ptype, pname))
}

/// END
#[tactic(auto, unfolding(crate::specs::Forms::end_line, crate::specs::Pieces::ended))]
pub fn end_line(line: &[u8]) -> Option<Result<Line, Word>>
    ensures { result ≡ ended (end_line line.now) }
{
    let rest = behind_word(b"END", line)?;
    rest.is_empty().then_some(Ok(Line::End))
}

/// CLOCK moment
#[tactic(auto, unfolding(crate::specs::Forms::clock_line, crate::specs::Pieces::ended))]
pub fn clock_line(line: &[u8]) -> Option<Result<Line, Word>>
    ensures { result ≡ ended (clock_line line.now) }
{
    let rest = behind_word(b"CLOCK", line)?;
    let Some((moment, rest)) = bare_moment(rest) else {
        return None;
    };
    rest.is_empty()
        .then_some(moment.map(|moment| Line::Clock(moment)))
}

/// SETTLE
#[tactic(auto, unfolding(crate::specs::Forms::settle_line, crate::specs::Pieces::ended))]
pub fn settle_line(line: &[u8]) -> Option<Result<Line, Word>>
    ensures { result ≡ ended (settle_line line.now) }
{
    let rest = behind_word(b"SETTLE", line)?;
    rest.is_empty().then_some(Ok(Line::Settle))
}

fn browse_of(
    ptype: Result<Option<ProcType>, Word>,
    pname: Result<Option<ProcName>, Word>,
    mode: Result<Option<Mode>, Word>,
    status: Result<Option<Status>, Word>,
    suspended: Result<bool, Word>,
) -> Result<Line, Word>
    ensures { result ≡ made_of_5 Browse ptype pname mode status suspended }
{
    let ptype = ptype?;
    let pname = pname?;
    let mode = mode?;
    let status = status?;
    let suspended = suspended?;
    Ok(Line::Browse {
        ptype,
        pname,
        mode,
        status,
        suspended,
    })
}

/// BROWSE [TYPE(t)] [PROCESS(n)] [MODE(m)] [STATUS(s)] [SUSPENDED]
#[tactic(auto, unfolding(crate::specs::Forms::browse_line, crate::specs::Pieces::ended))]
pub fn browse_line(line: &[u8]) -> Option<Result<Line, Word>>
    ensures { result ≡ ended (browse_line line.now) }
{
    let rest = behind_word(b"BROWSE", line)?;
    let (ptype, rest) = maybe_name(b"TYPE", rest);
    let (pname, rest) = maybe_name(b"PROCESS", rest);
    let (mode, rest) = maybe_mode(rest);
    let (status, rest) = maybe_status(rest);
    let (suspended, rest) = whether(b"SUSPENDED", rest);
    if !rest.is_empty() {
        return None;
    }
    Some(browse_of(ptype, pname, mode, status, suspended))
}
