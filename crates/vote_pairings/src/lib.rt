// Who faced whom: the pairings of the vote of one plan against another, into a lent buffer; two bytes a place, the surveyors' nodes before the stands'.
#![tactic(auto)]

ghost use Rattle.std.specs.Prelude.{◌≡◌, ℕ, ◌+◌, ◌*◌, ◌≤◌, ◌<◌, length, take};
ghost use Rattle.lists.specs.Sum.{sum, up_to};
ghost use Rattle.model.specs.Limits.{quota_limit, node_limit};
ghost use Rattle.arrays.specs.ArrayInstance.{at};
ghost use Rattle.theory_votes.specs.Keys.{empty_key, key_bytes};
ghost use Rattle.vote_pairings.specs.SideBytes.{written, side_out, NodeReady};
ghost use Rattle.vote_pairings.specs.SidePairings.{Asked, BothAsked, SideFaced, PlanFaced};

use arrays::ListedPlan;
use instance::Instance;
use limits::ENTRY_LIMIT;
use vote_own_ranks::Ranked;

// ---- the nodes of one side
// The first n pairs, from a place of the buffer on.
pub fn put_pairs(out: &mut [u8], from: usize, keys: [u16; 8], n: usize)
    requires { (n ≤ quota_limit) × (from + 2 * n ≤ length out.old) × ((i : ℕ) → at keys i ≤ empty_key) }
    ensures { out.new ≡ written from (key_bytes (take n keys)) out.old }
{
    for i in 0..n {
        let key = keys[i];
        let place = from + 2 * i;
        out[place] = (key / 64) as u8;
        out[place + 1] = (key % 64) as u8;
    }
}

// The pairs of the first n nodes of a side, as many each as its quota says, from a place of the buffer on; the place behind them.
pub fn side_pairs(
    n: usize,
    a: [Ranked; 32],
    b: [Ranked; 32],
    shared: [Ranked; 32],
    quota: [u8; 32],
    out: &mut [u8],
    from: usize,
) -> usize
    requires n_le_node_limit { (n ≤ node_limit) × ((v : ℕ) → v < n → NodeReady a b shared quota v) }
    requires n_in_bounds { from + 2 * sum (at quota) (up_to n) ≤ length out.old }
    ensures value { result ≡ from + 2 * sum (at quota) (up_to n) }
    ensures out_after { out.new ≡ written from (side_out a b shared quota n) out.old }
{
    let mut place = from;
    for v in 0..n {
        let x = a[v];
        let y = b[v];
        let s = shared[v];
        let pairs = vote_pairings_node::node_pairs(x, y, s);
        let places = quota[v] as usize;
        let keys = pairs.keys;
        put_pairs(&mut *out, place, keys, places);
        place += 2 * places;
    }
    place
}

// ---- two plans, over the arrays of an instance
// The pairings of one side, from a place of the buffer on; the place behind them.
pub fn side_pairings(
    n: usize,
    end: &[u8; ENTRY_LIMIT],
    rank: &[u8; ENTRY_LIMIT],
    quota: [u8; 32],
    p: &ListedPlan,
    q: &ListedPlan,
    out: &mut [u8],
    from: usize,
) -> usize
    requires asked { Asked n end.now rank.now quota p.now.has.now p.now.n p.now.edges.now q.now.has.now q.now.n q.now.edges.now }
    requires n_in_bounds { from + 2 * sum (at quota) (up_to n) ≤ length out.old }
    ensures value { result ≡ from + 2 * sum (at quota) (up_to n) }
    ensures side_faced { SideFaced n end.now rank.now quota p.now.has.now p.now.n p.now.edges.now q.now.has.now q.now.n q.now.edges.now from
        out.old out.new }
{
    let a = vote_own_ranks::own_ranks(p.n, p.edges, end, rank, q.has);
    let b = vote_own_ranks::own_ranks(q.n, q.edges, end, rank, p.has);
    let s = vote_own_ranks::shared_ranks(p.n, p.edges, end, rank, q.has);
    side_pairs(n, a, b, s, quota, out, from)
}

// The pairings of the vote of plan p, whose edges are the first pn of pe, against plan q, at the buffer's front.
pub fn plan_pairings(g: &Instance, p: &ListedPlan, q: &ListedPlan, out: &mut [u8])
    requires both_asked { BothAsked g.now.ns g.now.nt g.now.sv g.now.st g.now.rank_s g.now.rank_t g.now.quota_s g.now.quota_t p.now.has.now p.now.n
        p.now.edges.now q.now.has.now q.now.n q.now.edges.now }
    requires nt_in_bounds { 2 * (sum (at g.now.quota_s) (up_to g.now.ns) + sum (at g.now.quota_t) (up_to g.now.nt)) ≤ length out.old }
    ensures { PlanFaced g.now.ns g.now.nt g.now.sv g.now.st g.now.rank_s g.now.rank_t g.now.quota_s g.now.quota_t
        p.now.has.now p.now.n p.now.edges.now q.now.has.now q.now.n q.now.edges.now out.old out.new }
{
    let middle = side_pairings(g.ns, &g.sv, &g.rank_s, g.quota_s, p, q, &mut *out, 0);
    side_pairings(g.nt, &g.st, &g.rank_t, g.quota_t, p, q, out, middle);
}

// The pairings of one side for both votes, that of p against q and that of q against p, each from a place of its buffer on; the place behind them.
// The ranks that each plan has alone, and those that both have, are listed once for both.
pub fn both_sides_pairings(
    n: usize,
    end: &[u8; ENTRY_LIMIT],
    rank: &[u8; ENTRY_LIMIT],
    quota: [u8; 32],
    p: &ListedPlan,
    q: &ListedPlan,
    forward: &mut [u8],
    back: &mut [u8],
    from: usize,
) -> usize
    requires asked { Asked n end.now rank.now quota p.now.has.now p.now.n p.now.edges.now q.now.has.now q.now.n q.now.edges.now }
    requires n_in_bounds { (from + 2 * sum (at quota) (up_to n) ≤ length forward.old) × (from + 2 * sum (at quota) (up_to n) ≤ length back.old) }
    ensures value { result ≡ from + 2 * sum (at quota) (up_to n) }
    ensures side_faced { SideFaced n end.now rank.now quota p.now.has.now p.now.n p.now.edges.now q.now.has.now q.now.n q.now.edges.now from
        forward.old forward.new }
    ensures side_faced_2 { SideFaced n end.now rank.now quota q.now.has.now q.now.n q.now.edges.now p.now.has.now p.now.n p.now.edges.now from
        back.old back.new }
{
    let a = vote_own_ranks::own_ranks(p.n, p.edges, end, rank, q.has);
    let b = vote_own_ranks::own_ranks(q.n, q.edges, end, rank, p.has);
    let shared = vote_own_ranks::shared_ranks(p.n, p.edges, end, rank, q.has);
    side_pairs(n, a, b, shared, quota, forward, from);
    side_pairs(n, b, a, shared, quota, back, from)
}

// The pairings of both votes of two plans, p with pn edges that pe lists, q likewise, at the fronts of two buffers.
pub fn both_pairings(
    g: &Instance,
    p: &ListedPlan,
    q: &ListedPlan,
    forward: &mut [u8],
    back: &mut [u8],
)
    requires both_asked { BothAsked g.now.ns g.now.nt g.now.sv g.now.st g.now.rank_s g.now.rank_t g.now.quota_s g.now.quota_t p.now.has.now p.now.n
        p.now.edges.now q.now.has.now q.now.n q.now.edges.now }
    requires nt_in_bounds { (2 * (sum (at g.now.quota_s) (up_to g.now.ns) + sum (at g.now.quota_t) (up_to g.now.nt)) ≤ length forward.old)
        × (2 * (sum (at g.now.quota_s) (up_to g.now.ns) + sum (at g.now.quota_t) (up_to g.now.nt)) ≤ length back.old) }
    ensures plan_faced { PlanFaced g.now.ns g.now.nt g.now.sv g.now.st g.now.rank_s g.now.rank_t g.now.quota_s g.now.quota_t
        p.now.has.now p.now.n p.now.edges.now q.now.has.now q.now.n q.now.edges.now forward.old forward.new }
    ensures plan_faced_2 { PlanFaced g.now.ns g.now.nt g.now.sv g.now.st g.now.rank_s g.now.rank_t g.now.quota_s g.now.quota_t
        q.now.has.now q.now.n q.now.edges.now p.now.has.now p.now.n p.now.edges.now back.old back.new }
{
    let middle = both_sides_pairings(
        g.ns,
        &g.sv,
        &g.rank_s,
        g.quota_s,
        p,
        q,
        &mut *forward,
        &mut *back,
        0,
    );
    both_sides_pairings(
        g.nt, &g.st, &g.rank_t, g.quota_t, p, q, forward, back, middle,
    );
}
