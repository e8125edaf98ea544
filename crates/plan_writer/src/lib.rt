// The bytes of a plan, written from an instance's arrays and the list of its edges into a lent buffer of a plan's size; and the pairs alone of edges that
// flags tell.
#![tactic(auto)]

ghost use Rattle.std.specs.Prelude.{◌≡◌, Bool, List, ℕ, ◌*◌, ◌≤◌, length};
ghost use Rattle.model.specs.Limits.{node_limit, entry_limit, pair_width, plan_size};
ghost use Rattle.model.specs.PlanFile.{edges_in};
ghost use Rattle.model_desk.specs.Desk.{onto};
ghost use Rattle.arrays.specs.ArrayInstance.{flag};
ghost use Rattle.arrays.specs.Passes.{Low};
ghost use Rattle.plan_lookup.specs.PlanEdges.{Listed};
ghost use Rattle.plan_writer.specs.Written.{pairs_of, WrittenFor, Writable};

use limits::{ENTRY_LIMIT, PAIR_WIDTH, PLAN_LIMIT};

// the pairs of the edges chosen, from the buffer's front on; gives their number
pub fn write_pairs(
    m: usize,
    sv: &[u8; ENTRY_LIMIT],
    st: &[u8; ENTRY_LIMIT],
    sh: &[u8; ENTRY_LIMIT],
    chosen: &[bool; ENTRY_LIMIT],
    out: &mut [u8],
) -> usize
    requires { (m ≤ entry_limit) × Low m sv.now node_limit × Low m st.now node_limit
        × (pair_width * length (edges_in m (flag chosen.now)) ≤ length out.old) }
    ensures value { result ≡ length (edges_in m (flag chosen.now)) }
    ensures out_after { out.new
        ≡ onto (pairs_of sv.now st.now sh.now (edges_in m (flag chosen.now))) out.old }
{
    let mut k: usize = 0;
    for e in 0..m {
        if !chosen[e] {
            continue;
        }
        pair_bytes::put(&mut *out, PAIR_WIDTH * k, sv[e], st[e], sh[e]);
        k += 1;
    }
    k
}

// the plan's bytes in the buffer's front: its count, and the pairs of its edges, the first n of a list
pub fn write_plan(
    n: usize,
    es: &[u16; PLAN_LIMIT],
    sv: &[u8; ENTRY_LIMIT],
    st: &[u8; ENTRY_LIMIT],
    sh: &[u8; ENTRY_LIMIT],
    out: &mut [u8],
)
    requires { ((m : ℕ) × (chosen : List Bool) × Writable m sv.now st.now chosen n es.now) × (plan_size ≤ length out.old) }
    ensures { (m : ℕ) (chosen : List Bool) → Listed m chosen n es.now
        → WrittenFor m sv.now st.now sh.now chosen out.old out.new }
{
    for k in 0..n {
        let e = es[k] as usize;
        pair_bytes::put(&mut *out, PAIR_WIDTH * k + 1, sv[e], st[e], sh[e]);
    }
    out[0] = n as u8;
}
