// The work that comes next where nothing is out.
ghost use Rattle.std.specs.Prelude.{◌≡◌, ◌<◌, ◌^◌, [], length};
ghost use Rattle.bts_region.specs.Offered.{activation_or, offer_of, unit_behind};
ghost use Rattle.bts_region.specs.Regions.{offer};
ghost use Rattle.bts_tree.specs.Repositories.{ready_in};

use crate::region::Region;
use bts_command::UnitKind;
use bts_interp::Naming;
use bts_session::Item;
use bts_tree::Repository;

/// What is on offer: work, that so many activations have ended as may, or nothing any more.
#[derive(Clone, Copy, Debug)]
pub(crate) enum Found {
    Work(UnitKind),
    Limit { count: u64 },
    Done,
}

impl<N: Naming> Region<N> {
    /// The first work, where nothing is out. An item is found in constant time, and the first activation by the
    /// repository's index of the processes that have one, in the time of a look-up and of a walk over the activities of
    /// its process.
    pub(crate) fn find_work(&self) -> Found
        requires alone { self.now.out ≡ [] }
        ensures { offer_of result ≡ offer self.now }
    {
        let Some(unit) = next_unit(self.session.items.as_slice(), self.items_ended) else {
            return find_activation(&self.repository, self.activations, self.limit, Found::Done);
        };
        match unit {
            UnitKind::Request { .. } => Found::Work(unit),
            _ => find_activation(
                &self.repository,
                self.activations,
                self.limit,
                Found::Work(unit),
            ),
        }
    }
}

/// The unit that does the item behind so many.
fn next_unit(items: &[Item], ended: usize) -> Option<UnitKind>
    requires few { length items.now < 2 ^ 32 }
    ensures { result ≡ unit_behind items.now ended }
{
    let item = items.get(ended)?;
    let number = ended as u32 + 1;
    Some(match item {
        Item::Request { key, .. } => UnitKind::Request {
            item: number,
            key: *key,
        },
        Item::Clock(_) => UnitKind::Clock { item: number },
        Item::Settle => UnitKind::Settle { item: number },
        Item::Browse(_) => UnitKind::Browse { item: number },
    })
}

/// The first activation that is enabled, or that the limit is met, or what comes behind activations.
fn find_activation(repository: &Repository, made: u64, limit: u64, behind: Found) -> Found
    ensures { offer_of result
        ≡ activation_or made limit (ready_in repository.now.processes) (offer_of behind) }
{
    let Some((key, path)) = repository.next_ready(None) else {
        return behind;
    };
    if made < limit {
        Found::Work(UnitKind::Activation { key, path })
    } else {
        Found::Limit { count: made }
    }
}
