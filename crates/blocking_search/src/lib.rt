// The first blocking pair of a plan, over the arrays of an instance: an edge outside the plan that is better than the worst place of both its ends, the
// lowest surveyor's, and there the best in its list.
#![tactic(auto)]

ghost use Rattle.std.specs.Prelude.{◌≡◌, ◌≤◌, ◌<◌, length};
ghost use Rattle.std.specs.Option.{SomeIff};
ghost use Rattle.model.specs.Limits.{plan_limit};
ghost use Rattle.model.specs.PlanFile.{edges_in};
ghost use Rattle.blocking_thresholds.specs.PlanList.{Listed};
ghost use Rattle.instance.specs.Decoded.{shown_by};
ghost use Rattle.instance.specs.Loaded.{Loaded};
ghost use Rattle.arrays.specs.ArrayInstance.{flag};
ghost use Rattle.blocking_search.specs.Blocking.{blocked_by};
ghost use Rattle.blocking_thresholds.specs.Threshold.{Edges};
ghost use Rattle.blocking_search.specs.Wanted.{Placed, top_among};

use answers::Blocking;
use instance::Instance;
use limits::{EMPTY_RANK, ENTRY_LIMIT, NODE_LIMIT};

// Of the edges outside the plan that are better than the worst place of both their ends, the one of the lowest surveyor, and there of the best
// rank. Surveyor and rank make one number; it begins above all of them.
pub fn top_wanted(
    g: &Instance,
    ls: &[u8; 32],
    lt: &[u8; 32],
    p: &[bool; ENTRY_LIMIT],
) -> Option<usize>
    requires { Edges g.now.m g.now.sv × Edges g.now.m g.now.st × Placed g.now.m g.now.rank_s }
    ensures { SomeIff result (top_among g.now ls.now lt.now p.now < g.now.m) (top_among g.now ls.now lt.now p.now) }
{
    let mut top = None;
    let mut key = NODE_LIMIT as usize * EMPTY_RANK;
    for i in 0..g.m {
        let s = g.sv[i] as usize;
        let t = g.st[i] as usize;
        let r = g.rank_s[i] as usize;
        let k = s * EMPTY_RANK + r;
        if (!p[i] & ((g.rank_s[i] < ls[s]) & (g.rank_t[i] < lt[t]))) & (k < key) {
            top = Some(i);
            key = k;
        }
    }
    top
}

// A plan within the quotas of an accepted roster, by its flags and by the list of its n edges: the first blocking pair, by the numbers of its surveyor,
// its stand and its shift, or that there is none.
pub fn blocking(g: Instance, p: &[bool; ENTRY_LIMIT], n: usize, es: &[u16; 64]) -> Option<Blocking>
    requires { Loaded g × (length (edges_in g.m (flag p.now)) ≤ plan_limit) × Listed g.m p.now n es.now }
    ensures { result ≡ blocked_by (shown_by g) p.now }
{
    let ls = blocking_thresholds::side_thresholds(n, es, &g.sv, &g.rank_s, &g.quota_s);
    let lt = blocking_thresholds::side_thresholds(n, es, &g.st, &g.rank_t, &g.quota_t);
    if let Some(e) = top_wanted(&g, &ls, &lt, p) {
        return Some(Blocking {
            surveyor: g.sv[e] + 1,
            stand: g.st[e] + 1,
            shift: g.sh[e],
        });
    }
    None
}
