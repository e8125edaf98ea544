// The one-to-one profile: request W-212 of document 02. "The call hands back this plan's bytes and whether it is strong"; "The roster comes as a file."
// It takes any bytes and any buffer, and uses no desk: "A call that takes a roster as a file (..) needs none loaded" (W-205).
#![tactic(auto)]

ghost use Rattle.std.specs.Prelude.{◌≡◌, ◌≤◌, length};
ghost use Rattle.model.specs.Limits.{node_limit, entry_limit, plan_size};
ghost use Rattle.theory_offers.specs.ProfileInstance.{each_one, plain_edges, unitary};
ghost use Rattle.arrays.specs.ArrayInstance.{at, flag};
ghost use Rattle.instance.specs.Accepted.{RosterAccepted};
ghost use Rattle.instance.specs.Decoded.{shown_by};
ghost use Rattle.offers.specs.Running.{Ready};
ghost use Rattle.profile.specs.Weighed.{Gives};
ghost use Rattle.profile.specs.Profiles.{Settles, Profiles};

use answers::{Offers, Refusal};
use instance::Instance;
use limits::{ENTRY_LIMIT, PAIR_WIDTH, PLAN_SIZE};

// "a quota other than one": of n nodes none has one.
pub(crate) fn each_one(n: usize, quota: &[u8; 32]) -> bool
    requires { n ≤ node_limit }
    ensures { result ≡ each_one (at quota.now) n }
{
    let mut all = true;
    for i in 0..n {
        let one = quota[i] == 1;
        all = one & all;
    }
    all
}

// "a tie length byte above 0 or a shift above 1": no edge is tied or in another shift.
pub(crate) fn plain_edges(m: usize, tied: &[bool; ENTRY_LIMIT], sh: &[u8; ENTRY_LIMIT]) -> bool
    requires { m ≤ entry_limit }
    ensures { result ≡ plain_edges (flag tied.now) (at sh.now) m }
{
    let mut all = true;
    for e in 0..m {
        let first = sh[e] == 1;
        all = (!tied[e] & first) & all;
    }
    all
}

// Whether a roster is of the profile, from its arrays: "all quotas one, one shift and no ties".
pub(crate) fn one_to_one(g: Instance) -> bool
    requires { (g.m ≤ entry_limit) × (g.ns ≤ node_limit) × (g.nt ≤ node_limit) }
    ensures { result ≡ unitary (shown_by g) }
{
    let tied = g.tied;
    let sh = g.sh;
    let qs = g.quota_s;
    let qt = g.quota_t;
    let s = each_one(g.ns, &qs);
    let t = each_one(g.nt, &qt);
    let plain = plain_edges(g.m, &tied, &sh);
    (s & t) & plain
}

// The plan of the offers: its bytes, and whether it is strong. A rival is not asked for.
pub(crate) fn offered(g: Instance, out: &mut [u8]) -> Offers
    requires { Ready g × (plan_size ≤ length out.old) }
    ensures { Gives g out.old result out.new }
{
    let plan = offers::offers(g);
    let sv = g.sv;
    let st = g.st;
    let sh = g.sh;
    let l = plan_lookup::list_edges(g.m, &plan);
    let es = l.edges;
    plan_writer::write_plan(l.n, &es, &sv, &st, &sh, out);
    let strong = verdict::is_strong(g, &plan, l.n, &es);
    Offers {
        strong: strong,
        length: PAIR_WIDTH * l.n + 1,
    }
}

// An accepted roster: 22, or the plan of the offers.
pub(crate) fn settled(file: &[u8], out: &mut [u8]) -> Result<Offers, Refusal>
    requires { RosterAccepted file.now × (plan_size ≤ length out.old) }
    ensures { Settles file.now out.old result out.new }
{
    let g = instance::instance_of(file);
    if !one_to_one(g) {
        return Err(Refusal::NotOneToOne);
    }
    Ok(offered(g, out))
}

// 15 first, then the roster's refusals, then 22.
pub fn profile(file: &[u8], out: &mut [u8]) -> Result<Offers, Refusal>
    ensures { Profiles file.now out.old result out.new }
{
    if out.len() < PLAN_SIZE {
        return Err(Refusal::BufferTooSmall);
    }
    roster::read_roster(file)?;
    settled(file, out)
}
