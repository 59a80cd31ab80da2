// A session that is done.
ghost use Rattle.std.specs.Prelude.{◌≡◌, ◌<◌, IfOk};
ghost use Rattle.bts_region.specs.Positions.{opened_at, origin};
ghost use Rattle.bts_region.specs.Today.{IsSmall, MayOpen};
ghost use Rattle.bts_session.specs.Today.{IsSessionOfToday};
ghost use Rattle.bts_tool.specs.Runs.{IsRunOf};

use bts_command::History;
use bts_driver::{Stop, drain};
use bts_interp::{Naming, Steps};
use bts_names::{Moment, NoMemory};
use bts_region::Region;
use bts_session::Session;
use bts_tree::{Opening, Repository};
use std::alloc::Global;
use std::marker::Brand;
use std::sync::ledger::{Blank, Ledger};

/// The units of a session that ended, and why no more of them did.
#[derive(Drop)]
pub struct Ran {
    pub history: History,
    pub stop: Stop,
}

/// Does a session in a region of its own, whose type names it, from an opening that has nothing.
fn do_named<N: Naming, L: Ledger>(
    alloc: Global,
    opening: Opening,
    session: Session,
    limit: u64,
    blank: Blank,
) -> Result<Ran, NoMemory>
    requires name { N.name ≡ record { session = session; opening = opening; limit = limit } }
    requires empty { opened_at opening ≡ origin }
    requires opens { MayOpen opening }
    requires ledger { blank.name ≡ L.name }
    requires parts { blank.parts ≡ L.parts }
    requires some_part { 0 < blank.parts }
    requires today { IsSessionOfToday session }
    requires small { IsSmall session limit }
    ensures { IfOk result (λ ran. IsRunOf N.name.session N.name.limit ran) }
{
    let (book, share) = blank.open::<L>();
    let mut steps = Steps::of(book, share);
    let mut region = Region::<N>::begin(alloc, opening, session, limit)?;
    let stop = drain(alloc, &mut region, &mut steps);
    region.facts();
    Ok(Ran {
        history: region.close().history,
        stop,
    })
}

/// Does a session from the empty repository on, one unit after the other, with at most so many activations.
pub fn do_session(alloc: Global, session: Session, limit: u64) -> Result<Ran, NoMemory>
    requires today { IsSessionOfToday session }
    requires small { IsSmall session limit }
    ensures { IfOk result (λ ran. IsRunOf session limit ran) }
{
    let opening = Opening {
        repo: Repository::empty(alloc),
        units: 0,
        moment: Moment::first(),
    };
    do_named::<Brand, Brand>(alloc, opening, session, limit, Blank::new(1))
}
