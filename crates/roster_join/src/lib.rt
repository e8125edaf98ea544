// A surveyor joins in the field: requests W-202 and W-204 of document 02. The bytes of the roster with one surveyor more, made from the bytes
// of an accepted roster, a quota and a list file; or the refusal.
#![tactic(auto)]

ghost use Rattle.std.specs.Prelude.{◌≤◌};
ghost use Rattle.model.specs.Limits.{node_limit, list_limit};
ghost use Rattle.model.specs.Reading.{whole};
ghost use Rattle.model.specs.RosterFile.{shifted, read_list};
ghost use Rattle.model_changes.specs.Changes.{join_on};
ghost use Rattle.instance.specs.Accepted.{RosterAccepted};
ghost use Rattle.roster_parts.specs.Gives.{ChangedBy};
ghost use Rattle.roster_join.specs.Listing.{MadeBy};

use answers::Refusal;
use limits::{LIST_LIMIT, NODE_LIMIT, QUOTA_LIMIT, QUOTA_SUM_LIMIT};
use roster_lists::ROW;
use roster_parts::RosterBytes;

// "a bad list meets 1, 2, 4, 5 and 9 in document 01's order", and 18 "straight after 4"
pub(crate) fn listed(
    file: &[u8],
    ns: usize,
    nt: u8,
    quota: u8,
    list: &[u8],
) -> Result<RosterBytes, Refusal>
    requires { (ns ≤ node_limit) × (nt ≤ node_limit) }
    ensures { MadeBy file.now ns nt quota list.now (whole (read_list shifted list_limit nt list.now)) result }
{
    let mut row = [false; ROW];
    let read = roster_lists::list_at(list, 0, LIST_LIMIT, nt, true, &mut row)?;
    roster_with::entered(file, ns, nt as usize, quota, list, read, &row)
}

// "A joiner's quota above 8 meets 3"; 17 "when 32 numbers are taken, leavers' included, or the quotas would pass 64", before the list is read
pub fn join(file: &[u8], quota: u8, list: &[u8]) -> Result<RosterBytes, Refusal>
    requires { RosterAccepted file.now }
    ensures { ChangedBy (λ R. join_on R quota list.now) file.now result }
{
    if QUOTA_LIMIT < quota {
        return Err(Refusal::QuotaTooHigh);
    }
    let ns = roster_positions::byte_at(file, 0);
    if NODE_LIMIT <= ns {
        return Err(Refusal::RosterFull);
    }
    let m = ns as usize;
    let quotas = roster_positions::part(file, 1, m);
    let sum = roster_with::quota_sum(quotas);
    if sum + quota as usize <= QUOTA_SUM_LIMIT as usize {
        let nt = roster_positions::byte_at(file, m + 1);
        return listed(file, m, nt, quota, list);
    }
    Err(Refusal::RosterFull)
}
