// The words of the command line.
ghost use Rattle.std.specs.Prelude.{◌≡◌, ◌≤◌, map, string_bytes, IfSome};
ghost use Rattle.bts_tool.specs.Words.{greatest_limit, is_file, limit_in, limit_of};

use bts_forms::number_within;

/// How many activations may end where nothing is said.
const USUAL_LIMIT: u32 = 100_000;
/// The most activations that may be allowed.
const GREATEST_LIMIT: u32 = 1_000_000;

/// A file has at least one byte, and doesn't begin with `-`.
fn names_file(word: &[u8]) -> bool
    ensures { result ≡ is_file word.now }
{
    match word {
        [] => false,
        [first, ..] => *first != b'-',
    }
}

/// How many activations the options allow to end.
fn limit_in(options: &[String]) -> Option<u32>
    ensures limit { result ≡ limit_in (map string_bytes options.now) }
    ensures bound { IfSome result (λ n. n ≤ greatest_limit) }
{
    match options {
        [] => Some(USUAL_LIMIT),
        [option, number] => {
            if option.as_bytes() != b"--limit".as_slice() {
                return None;
            }
            number_within(GREATEST_LIMIT, number.as_bytes())
        }
        _ => None,
    }
}

/// How many activations may end, where the words are `run FILE` and options.
#[tactic(auto, unfolding(crate::specs::Words::limit_of))]
pub fn limit_of(words: &[String]) -> Option<u32>
    ensures limit { result ≡ limit_of (map string_bytes words.now) }
    ensures bound { IfSome result (λ n. n ≤ greatest_limit) }
{
    let [verb, file, options @ ..] = words else {
        return None;
    };
    if verb.as_bytes() != b"run".as_slice() || !names_file(file.as_bytes()) {
        return None;
    }
    limit_in(options)
}
