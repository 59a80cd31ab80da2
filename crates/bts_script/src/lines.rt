// The lines of a text, one after the other.
ghost use Rattle.std.specs.Prelude.{◌≡◌, ◌<◌, length, IfSome};
ghost use Rattle.std.specs.Option.{option_map};
ghost use Rattle.bts_script.specs.Lines.{lines_of, lines_from, behind_feed, without_return};

use bts_forms::cut_at;

/// The line without one carriage return at its end.
#[tactic(auto, using(crate::proofs::FirstLines::kept_line, crate::proofs::FirstLines::cut_line))]
fn without_return(line: &[u8]) -> &[u8]
    ensures { result.now ≡ without_return line.now }
{
    line.strip_suffix(b"\r").unwrap_or(line)
}

/// The first line of a text, without its end, and the text behind it; None where no line is left. It takes
/// time in the length of the line.
#[tactic(auto, using(crate::proofs::FirstLines::first_of_many, crate::proofs::FirstLines::last_of_all, crate::proofs::FirstLines::rest_of_many, crate::proofs::FirstLines::rest_of_last, crate::proofs::FirstLines::rest_is_shorter))]
pub fn next_line(text: &[u8]) -> Option<(&[u8], &[u8])>
    ensures lines { lines_of text.now ≡ lines_from (option_map (λ x. (x.0.now, x.1.now)) result) }
    ensures rest { IfSome result (λ x. x.1.now ≡ behind_feed text.now) }
    ensures shorter { IfSome result (λ x. length x.1.now < length text.now) }
{
    if text.is_empty() {
        return None;
    }
    match cut_at(b'\n', text) {
        Some((line, rest)) => Some((without_return(line), rest)),
        None => Some((text, &[])),
    }
}
