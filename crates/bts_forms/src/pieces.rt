// Pieces of a line.
ghost use Rattle.std.specs.Prelude.{◌≡◌, ◌==◌, ◌<◌, ◌∷◌, ◌++◌, ℕ, length, position, reverse, IfSome, codes};
ghost use Rattle.std.specs.Option.{option_copied, option_map};
ghost use Rattle.bts_forms.specs.Texts.{behind_front, cut_at, cut_at_last, closed_by, without_spaces, first_word};
ghost use Rattle.bts_forms.specs.Pieces.{behind_word, argument, argument_in, argument_to_last, at_next_word};

fn place_of(byte: u8, text: &[u8]) -> Option<usize>
    ensures place { result ≡ position (λ b. b == byte) text.now }
    ensures bound { IfSome result (λ n. n < length text.now) }
{
    text.iter().position(|b| *b == byte)
}

/// What stands before and behind the first such byte.
#[tactic(auto, unfolding(crate::specs::Texts::cut_at))]
pub fn cut_at(byte: u8, text: &[u8]) -> Option<(&[u8], &[u8])>
    ensures { option_map (λ x. (x.0.now, x.1.now)) result ≡ cut_at byte text.now }
{
    let n = place_of(byte, text)?;
    let (front, _) = text.split_at(n);
    let (_, back) = text.split_at(n + 1);
    Some((front, back))
}

fn place_from_end(byte: u8, text: &[u8]) -> Option<usize>
    ensures place { result ≡ position (λ b. b == byte) (reverse text.now) }
    ensures bound { IfSome result (λ n. n < length text.now) }
{
    text.iter().rev().position(|b| *b == byte)
}

/// What stands before and behind the last such byte.
#[tactic(auto, unfolding(crate::specs::Texts::cut_at_last))]
pub fn cut_at_last(byte: u8, text: &[u8]) -> Option<(&[u8], &[u8])>
    ensures { option_map (λ x. (x.0.now, x.1.now)) result ≡ cut_at_last byte text.now }
{
    let n = place_from_end(byte, text)?;
    let (front, _) = text.split_at(text.len() - (n + 1));
    let (_, back) = text.split_at(text.len() - n);
    Some((front, back))
}

#[tactic(auto, unfolding(crate::specs::Texts::behind_front))]
pub fn behind_front<'a>(front: &[u8], text: &'a [u8]) -> Option<&'a [u8]>
    ensures { option_copied result ≡ behind_front front.now text.now }
{
    text.strip_prefix(front)
}

/// What stands before that byte, which is the last one and the only one of its value.
#[tactic(auto, unfolding(crate::specs::Texts::closed_by))]
pub fn closed_by(byte: u8, text: &[u8]) -> Option<&[u8]>
    ensures { option_copied result ≡ closed_by byte text.now }
{
    let (front, back) = cut_at(byte, text)?;
    back.is_empty().then_some(front)
}

/// The line from its first word on.
pub fn without_spaces(line: &[u8]) -> &[u8]
    ensures { result.now ≡ without_spaces line.now }
{
    let mut rest = line;
    while let [b' ', more @ ..] = rest {
        rest = more;
    }
    rest
}

/// The first word of a line, and the line from the next one on.
#[tactic(auto, unfolding(crate::specs::Texts::first_word))]
pub fn first_word(line: &[u8]) -> (&[u8], &[u8])
    ensures { (result.0.now, result.1.now) ≡ first_word line.now }
{
    match cut_at(b' ', line) {
        Some((word, rest)) => (word, without_spaces(rest)),
        None => (line, &[]),
    }
}

/// The line behind this word, where it stands first.
#[tactic(auto, unfolding(crate::specs::Pieces::behind_word))]
pub fn behind_word<'a>(word: &[u8], line: &'a [u8]) -> Option<&'a [u8]>
    ensures { option_copied result ≡ behind_word word.now line.now }
{
    let (first, rest) = first_word(line);
    (first == word).then_some(rest)
}

/// The argument of a word in parentheses, which has no `)`.
#[tactic(auto, unfolding(crate::specs::Pieces::argument))]
pub fn argument<'a>(word: &[u8], text: &'a [u8]) -> Option<&'a [u8]>
    ensures { option_copied result ≡ argument word.now text.now }
{
    let opened = behind_front(word, text)?;
    let bytes = behind_front(b"(", opened)?;
    closed_by(b')', bytes)
}

/// The argument of this word, where it stands first, and the line from the next word on.
#[tactic(auto, unfolding(crate::specs::Pieces::argument_in))]
pub fn argument_in<'a>(word: &[u8], line: &'a [u8]) -> Option<(&'a [u8], &'a [u8])>
    ensures { option_map (λ x. (x.0.now, x.1.now)) result ≡ argument_in word.now line.now }
{
    let (first, rest) = first_word(line);
    let bytes = argument(word, first)?;
    Some((bytes, rest))
}

/// The argument, and the line from the next word on, before which a space stands.
#[tactic(auto, unfolding(crate::specs::Pieces::at_next_word))]
fn at_next_word<'a>(bytes: &'a [u8], rest: &'a [u8]) -> Option<(&'a [u8], &'a [u8])>
    ensures { option_map (λ x. (x.0.now, x.1.now)) result ≡ at_next_word bytes.now rest.now }
{
    match rest {
        [] => Some((bytes, rest)),
        [b' ', more @ ..] => Some((bytes, without_spaces(more))),
        _ => None,
    }
}

/// The argument of this word up to the last `)` of the line, and the line from the next word on.
#[tactic(auto, unfolding(crate::specs::Pieces::argument_to_last))]
pub fn argument_to_last<'a>(word: &[u8], line: &'a [u8]) -> Option<(&'a [u8], &'a [u8])>
    ensures { option_map (λ x. (x.0.now, x.1.now)) result ≡ argument_to_last word.now line.now }
{
    let opened = behind_front(word, line)?;
    let bytes = behind_front(b"(", opened)?;
    let (argument, rest) = cut_at_last(b')', bytes)?;
    at_next_word(argument, rest)
}
