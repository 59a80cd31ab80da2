// The lines of commands on containers.
ghost use Rattle.std.specs.Prelude.{◌≡◌};
ghost use Rattle.bts_command.specs.declared.command.Command.TheVariants.{DeleteContainer, GetContainer};
ghost use Rattle.bts_forms.specs.Pieces.{made_of_2, ended};
ghost use Rattle.bts_forms.specs.Forms.{get_container, delete_container};

use crate::Word;
use crate::fields::{given_name, spot};
use crate::pieces::behind_word;
use bts_command::{Command, Spot};
use bts_names::Name16;

fn get_container_of(
    container: Result<Name16, Word>,
    spot: Result<Spot, Word>,
) -> Result<Command, Word>
    ensures { result ≡ made_of_2 GetContainer container spot }
{
    let container = container?;
    let spot = spot?;
    Ok(Command::GetContainer { container, spot })
}

/// GET CONTAINER(c) [place]
#[tactic(auto, unfolding(crate::specs::Forms::get_container, crate::specs::Pieces::ended))]
pub fn get_container(line: &[u8]) -> Option<Result<Command, Word>>
    ensures { result ≡ ended (get_container line.now) }
{
    let rest = behind_word(b"GET", line)?;
    let Some((container, rest)) = given_name(b"CONTAINER", rest) else {
        return None;
    };
    let (spot, rest) = spot(rest);
    rest.is_empty().then_some(get_container_of(container, spot))
}

fn delete_container_of(
    container: Result<Name16, Word>,
    spot: Result<Spot, Word>,
) -> Result<Command, Word>
    ensures { result ≡ made_of_2 DeleteContainer container spot }
{
    let container = container?;
    let spot = spot?;
    Ok(Command::DeleteContainer { container, spot })
}

/// DELETE CONTAINER(c) [place]
#[tactic(auto, unfolding(crate::specs::Forms::delete_container, crate::specs::Pieces::ended))]
pub fn delete_container(line: &[u8]) -> Option<Result<Command, Word>>
    ensures { result ≡ ended (delete_container line.now) }
{
    let rest = behind_word(b"DELETE", line)?;
    let Some((container, rest)) = given_name(b"CONTAINER", rest) else {
        return None;
    };
    let (spot, rest) = spot(rest);
    rest.is_empty()
        .then_some(delete_container_of(container, spot))
}
