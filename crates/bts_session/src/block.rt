// Where a block ends.
ghost use Rattle.std.specs.Prelude.{◌≡◌, ◌+◌, ◌≤◌, IfSome};
ghost use Rattle.std.specs.Option.{option_map};
ghost use Rattle.bts_script.specs.Blocks.{by_table};
ghost use Rattle.bts_session.specs.Reading.{FindsEnd, closes_block, line_count};

use bts_script::{ends_block, is_skipped, next_line};

/// The text between a block's opening line and its END, the number of its END, and the text behind.
#[derive(Clone, Copy, Debug)]
pub struct Block<'a> {
    pub body: &'a [u8],
    pub end: u32,
    pub behind: &'a [u8],
}

fn closes_block(line: &[u8]) -> bool
    ensures { result ≡ closes_block by_table line.now }
{
    !is_skipped(line) && ends_block(line)
}

/// Looks for the END of a block, of which this is the text behind the opening line; None where no line
/// ends it. It looks at each line once.
#[tactic(auto, using(crate::proofs::Among::end_found, crate::proofs::Among::no_end, crate::proofs::Among::number_at_end))]
pub fn find_end(text: &[u8], first: u32) -> Option<Block<'_>>
    requires { first + line_count text.now ≤ 4294967295 }
    ensures found { FindsEnd by_table first text.now
        (option_map (λ b. (b.body.now, b.end, b.behind.now)) result) }
    ensures number { IfSome result (λ b. b.end ≡ first + line_count b.body.now) }
    ensures lines { IfSome result
        (λ b. line_count text.now ≡ line_count b.body.now + 1 + line_count b.behind.now) }
{
    let mut rest = text;
    let mut number = first;
    while let Some((line, behind)) = next_line(rest) {
        if closes_block(line) {
            let (body, _) = text.split_at(text.len() - rest.len());
            return Some(Block {
                body,
                end: number,
                behind,
            });
        }
        rest = behind;
        number += 1;
    }
    None
}
