// The codes of the abends that end a unit by what it may use, and that of a program that is missing.
ghost use Rattle.std.specs.Prelude.{◌≡◌, true, codes};
ghost use Rattle.bts_names.specs.Grammar.{is_name_within};

use bts_names::Abcode;

fn code(word: &[u8]) -> Abcode
    requires { is_name_within 4 word.now ≡ true }
    ensures { result ≡ word.now }
{
    Abcode::read(word).unwrap()
}

#[tactic(auto, unfolding(bts_names::specs::Grammar::is_name_byte))]
pub(crate) fn too_many_statements() -> Abcode
    ensures { result ≡ codes "STEP" }
{
    code(b"STEP")
}

#[tactic(auto, unfolding(bts_names::specs::Grammar::is_name_byte))]
pub(crate) fn too_many_calls() -> Abcode
    ensures { result ≡ codes "CMDS" }
{
    code(b"CMDS")
}

#[tactic(auto, unfolding(bts_names::specs::Grammar::is_name_byte))]
pub(crate) fn too_much_data() -> Abcode
    ensures { result ≡ codes "SIZE" }
{
    code(b"SIZE")
}

#[tactic(auto, unfolding(bts_names::specs::Grammar::is_name_byte))]
pub(crate) fn no_program() -> Abcode
    ensures { result ≡ codes "NOPG" }
{
    code(b"NOPG")
}
