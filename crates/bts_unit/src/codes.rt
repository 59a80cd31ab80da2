// The codes of the abends that a RETURN can be, and of those by which the limits of a unit end it.
ghost use Rattle.std.specs.Prelude.{◌≡◌, true};
ghost use Rattle.bts_names.specs.Grammar.{is_name_within};
ghost use Rattle.bts_names.specs.Names.{same};
ghost use Rattle.bts_unit.specs.Ends.{children_left, no_retrieval};
ghost use Rattle.bts_unit.specs.Playing.{is_budget};

use bts_names::Abcode;

fn code(word: &[u8]) -> Abcode
    requires { is_name_within 4 word.now ≡ true }
    ensures { result ≡ word.now }
{
    Abcode::read(word).unwrap()
}

#[tactic(auto, unfolding(bts_names::specs::Grammar::is_name_byte))]
pub(crate) fn no_retrieval() -> Abcode
    ensures { result ≡ no_retrieval }
{
    code(b"NORT")
}

#[tactic(auto, unfolding(bts_names::specs::Grammar::is_name_byte))]
pub(crate) fn children_left() -> Abcode
    ensures { result ≡ children_left }
{
    code(b"CHLD")
}

#[tactic(auto, using(crate::proofs::Alike::same_bytes))]
fn is_word(code: &Abcode, word: &[u8]) -> bool
    ensures { result ≡ same code.now word.now }
{
    code.as_bytes() == word
}

/// Whether it is the code of a unit that has run too many statements, made too many calls or moved too much data.
pub(crate) fn is_of_a_limit(code: &Abcode) -> bool
    ensures { result ≡ is_budget code.now }
{
    is_word(code, b"STEP") || is_word(code, b"CMDS") || is_word(code, b"SIZE")
}
