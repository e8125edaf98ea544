// Plan files judged against an instance's arrays: "a count byte 0 to 64, then" three bytes a pair (surveyor, stand, shift), ascending by
// these, or two in a file without shifts, where every pair is in shift 1. Refusals in document 01's order: 1, 2, then pair by pair 1, 10,
// 11, 12, then 9.
#![tactic(auto)]

ghost use Rattle.std.specs.Prelude.{◌≡◌, ◌≤◌, ◌<◌, length, get_or};
ghost use Rattle.arrays.specs.ArrayInstance.{at};
ghost use Rattle.arrays.specs.Passes.{Low};
ghost use Rattle.model.specs.Limits.{node_limit, entry_limit, plan_limit};
ghost use Rattle.plan_lookup.specs.PairEdge.{Differ};
ghost use Rattle.instance.specs.Decoded.{shown_by};
ghost use Rattle.instance.specs.Loaded.{Loaded};
ghost use Rattle.plan_reader.specs.Answers.{ReadAs, ReadFor};

use answers::Refusal;
use instance::Instance;
use limits::{ENTRY_LIMIT, PLAN_LIMIT};

// An accepted plan: the number of its edges, and these as flags, and ascending as the first numbers of a list.
#[derive(Clone, Copy)]
pub struct PlanRead {
    pub n: usize,
    pub chosen: [bool; ENTRY_LIMIT],
    pub edges: [u16; PLAN_LIMIT],
}

// the n pairs behind the count byte
pub(crate) fn read_pairs(
    m: usize,
    sv: &[u8; ENTRY_LIMIT],
    st: &[u8; ENTRY_LIMIT],
    sh: &[u8; ENTRY_LIMIT],
    qs: &[u8; 32],
    qt: &[u8; 32],
    n: usize,
    file: &[u8],
    shifts: bool,
) -> Result<PlanRead, Refusal>
    requires m_le_entry_limit { (m ≤ entry_limit) × Low m sv.now node_limit × Low m st.now node_limit × Differ m sv.now st.now sh.now }
    requires n_le_plan_limit { (n ≤ plan_limit) × (0 < length file.now) × (get_or file.now 0 0 ≡ n) }
    ensures { ReadFor shifts m sv.now st.now sh.now qs.now qt.now file.now result }
{
    let mut chosen = [false; ENTRY_LIMIT];
    let mut edges = [0u16; PLAN_LIMIT];
    let mut us = [0u8; 32];
    let mut ut = [0u8; 32];
    let width = pair_bytes::width(shifts);
    let mut at: usize = 1;
    let mut from: usize = 0;
    for k in 0..n {
        if file.len() < at + width {
            return Err(Refusal::CutShort);
        }
        let p = pair_bytes::get(file, at, shifts);
        let e = plan_lookup::edge_of(m, sv, st, sh, from, p.surveyor, p.stand, p.shift);
        plan_lookup::check_pair(m, sv, st, qs, qt, &us, &ut, from, e)?;
        let i = sv[e] as usize;
        let j = st[e] as usize;
        us[i] += 1;
        ut[j] += 1;
        chosen[e] = true;
        edges[k] = e as u16;
        from = e + 1;
        at += width;
    }
    if at < file.len() {
        return Err(Refusal::BytesLeft);
    }
    Ok(PlanRead {
        n: n,
        chosen: chosen,
        edges: edges,
    })
}

// a plan file, with shifts or without
pub fn read_plan(
    m: usize,
    sv: &[u8; ENTRY_LIMIT],
    st: &[u8; ENTRY_LIMIT],
    sh: &[u8; ENTRY_LIMIT],
    qs: &[u8; 32],
    qt: &[u8; 32],
    file: &[u8],
    shifts: bool,
) -> Result<PlanRead, Refusal>
    requires { (m ≤ entry_limit) × Low m sv.now node_limit × Low m st.now node_limit × Differ m sv.now st.now sh.now }
    ensures { ReadFor shifts m sv.now st.now sh.now qs.now qt.now file.now result }
{
    if file.len() == 0 {
        return Err(Refusal::CutShort);
    }
    let n = file[0];
    if (PLAN_LIMIT as u8) < n {
        return Err(Refusal::TooMany);
    }
    read_pairs(m, sv, st, sh, qs, qt, n as usize, file, shifts)
}

// A plan file, with shifts or without, against the arrays of an accepted roster.
pub fn read_against(g: Instance, file: &[u8], shifts: bool) -> Result<PlanRead, Refusal>
    requires { Loaded g }
    ensures { ReadAs shifts (shown_by g) file.now result }
{
    let sv = g.sv;
    let st = g.st;
    let sh = g.sh;
    let qs = g.quota_s;
    let qt = g.quota_t;
    read_plan(g.m, &sv, &st, &sh, &qs, &qt, file, shifts)
}
