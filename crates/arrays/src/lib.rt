// The instance that plain arrays show, and arrays that loops fill: the tie between code and model. And the links through the edges of each node: its first
// edge, and from each edge the next one at the same node. Where a loop goes by them it meets a node's edges alone, in the order of all edges, however many
// there are and whether or not two of them share both ends.
#![tactic(auto)]

ghost use Rattle.std.specs.Prelude.{◌≡◌, ◌≤◌, length};
ghost use Rattle.model.specs.Limits.{entry_limit, node_limit};
ghost use Rattle.arrays.specs.Passes.{Low};
ghost use Rattle.arrays.specs.Linked.{Linked};

use limits::ENTRY_LIMIT;

// A plan: whether it has each edge, and the list of those that it has, n of them. The list is an array of the highest size and not a slice: what is proved of
// plans (Listed, Lists) speaks of array and count.
#[derive(Clone, Copy)]
pub struct ListedPlan<'a> {
    pub has: &'a [bool; ENTRY_LIMIT],
    pub n: usize,
    pub edges: &'a [u16; 64],
}

// From the last edge to the first: what was the first edge of its node is the next one after it. The first edges are returned, m where a node has
// none.
pub fn links(m: usize, end: &[u8], next: &mut [u16]) -> [u16; 32]
    requires { (m ≤ entry_limit) × (m ≤ length end.now) × (m ≤ length next.old) × Low m end.now node_limit }
    ensures { (length next.new ≡ length next.old) × Linked m end.now result next.new }
{
    let mut head = [m as u16; 32];
    for i in (0..m).rev() {
        let v = end[i] as usize;
        next[i] = head[v];
        head[v] = i as u16;
    }
    head
}
