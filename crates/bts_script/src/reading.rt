// What a line says where it stands.
ghost use Rattle.std.specs.Prelude.{◌≡◌, IfOk};
ghost use Rattle.std.specs.List.{list_all};
ghost use Rattle.bts_forms.specs.Today.{IsLineOfToday};
ghost use Rattle.bts_script.specs.Blocks.{line_in, belongs_at, is_printable, is_skipped, ends_block, by_table};

use bts_forms::{Line, Place, Setting, Word, end_line, form_of, without_spaces};
use bts_names::NoMemory;
use std::alloc::Global;

fn is_printable(byte: u8) -> bool
    ensures { result ≡ is_printable byte }
{
    matches!(byte, b' '..=b'~')
}

fn are_printable(text: &[u8]) -> bool
    ensures { result ≡ list_all is_printable text.now }
{
    text.iter().all(|b| is_printable(*b))
}

fn belongs_at(setting: Setting, at: Option<Place>) -> bool
    ensures { result ≡ belongs_at setting at }
{
    match at {
        None => setting == Setting::Outside,
        Some(Place::Program) => matches!(
            setting,
            Setting::Closing | Setting::InBlocks | Setting::InPrograms
        ),
        Some(Place::Request) => matches!(
            setting,
            Setting::Closing | Setting::InBlocks | Setting::InRequests
        ),
    }
}

/// What a line says in such a block, or outside of one, or why it is refused.
pub fn read_line(
    alloc: Global,
    at: Option<Place>,
    text: &[u8],
) -> Result<Result<Line, Word>, NoMemory>
    ensures said { IfOk result (λ r. r ≡ line_in by_table at text.now) }
    ensures today { IfOk result (λ r. IfOk r IsLineOfToday) }
{
    if !are_printable(text) {
        return Ok(Err(Word::Character));
    }
    let line = without_spaces(text);
    let Some((setting, is_through, said)) = form_of(alloc, line)? else {
        return Ok(Err(Word::Word));
    };
    if !is_through {
        return Ok(Err(Word::NotYet));
    }
    if !belongs_at(setting, at) {
        return Ok(Err(Word::Place));
    }
    Ok(said)
}

/// Whether a line says nothing and is never refused: it is empty, has spaces alone, or is a remark.
pub fn is_skipped(text: &[u8]) -> bool
    ensures { result ≡ is_skipped text.now }
{
    matches!(without_spaces(text), [] | [b'*', ..])
}

/// Whether a line ends a block.
#[tactic(auto, using(crate::proofs::Ends::ends_where))]
pub fn ends_block(text: &[u8]) -> bool
    ensures { result ≡ ends_block by_table text.now }
{
    are_printable(text) && end_line(without_spaces(text)).is_some()
}
