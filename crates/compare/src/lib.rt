// The comparison of two plan files against the arrays of an accepted roster: both votes and the winner, and the pairings of both votes (W-208) at
// the fronts of two buffers. The first file is judged in full before the second.
#![tactic(auto)]

ghost use Rattle.std.specs.Prelude.{◌≡◌, ◌≤◌, length};
ghost use Rattle.model.specs.Limits.{pairing_size};
ghost use Rattle.model.specs.Plans.{vote_of};
ghost use Rattle.model.specs.PlanFile.{read_plan};
ghost use Rattle.model_desk.specs.Compare.{compared, second_judged, comparison_of, both_pairings, second_paired, pairings_of};
ghost use Rattle.std.specs.declared.result.Result.TheVariants.{Ok};
ghost use Rattle.answers.specs.ComparisonCases.{compared_shown};
ghost use Rattle.instance.specs.Decoded.{shown_by};
ghost use Rattle.instance.specs.Loaded.{Loaded};
ghost use Rattle.plan_reader.specs.Planned.{Planned};
ghost use Rattle.compare.specs.TwoPlans.{Paired};

use answers::{Comparison, Refusal};
use arrays::ListedPlan;
use instance::Instance;
use limits::ENTRY_LIMIT;
use vote_plans::Votes;

// Both votes of two plans of an accepted roster, p with pn edges that pe lists, q likewise, and their pairings.
pub fn both_votes(
    g: Instance,
    p: &[bool; ENTRY_LIMIT],
    pn: usize,
    pe: &[u16; 64],
    q: &[bool; ENTRY_LIMIT],
    qn: usize,
    qe: &[u16; 64],
    forward: &mut [u8],
    back: &mut [u8],
) -> Votes
    requires loaded { Loaded g × Planned g p.now pn pe.now × Planned g q.now qn qe.now }
    requires pairing_size_in_bounds { (pairing_size ≤ length forward.old) × (pairing_size ≤ length back.old) }
    ensures first_value { (result.first ≡ vote_of (shown_by g) p.now q.now) × (result.second ≡ vote_of (shown_by g) q.now p.now) }
    ensures paired { Paired (both_pairings (shown_by g) p.now q.now) forward.old back.old
        forward.new back.new }
{
    let first = ListedPlan {
        has: p,
        n: pn,
        edges: pe,
    };
    let second = ListedPlan {
        has: q,
        n: qn,
        edges: qe,
    };
    let both = vote_plans::plan_votes(&g, &first, &second);
    vote_pairings::both_pairings(&g, &first, &second, forward, back);
    both
}

// The same with the winner.
pub(crate) fn voted(
    g: Instance,
    p: &[bool; ENTRY_LIMIT],
    pn: usize,
    pe: &[u16; 64],
    q: &[bool; ENTRY_LIMIT],
    qn: usize,
    qe: &[u16; 64],
    forward: &mut [u8],
    back: &mut [u8],
) -> Comparison
    requires loaded { Loaded g × Planned g p.now pn pe.now × Planned g q.now qn qe.now }
    requires pairing_size_in_bounds { (pairing_size ≤ length forward.old) × (pairing_size ≤ length back.old) }
    ensures value { compared_shown (Ok result) ≡ compared (shown_by g) p.now q.now }
    ensures paired { Paired (both_pairings (shown_by g) p.now q.now) forward.old back.old
        forward.new back.new }
{
    let both = both_votes(g, p, pn, pe, q, qn, qe, forward, back);
    let v = both.first;
    let w = both.second;
    let x = compare_winner::winner_of(v, w);
    Comparison {
        first: v,
        second: w,
        winner: x,
    }
}

// The second file, after the first one gave plan p.
pub(crate) fn second_judged(
    g: Instance,
    p: &[bool; ENTRY_LIMIT],
    pn: usize,
    pe: &[u16; 64],
    second: &[u8],
    forward: &mut [u8],
    back: &mut [u8],
) -> Result<Comparison, Refusal>
    requires loaded { Loaded g × Planned g p.now pn pe.now }
    requires pairing_size_in_bounds { (pairing_size ≤ length forward.old) × (pairing_size ≤ length back.old) }
    ensures value { compared_shown result ≡ second_judged (shown_by g) p.now (read_plan (shown_by g) second.now) }
    ensures paired { Paired (second_paired (shown_by g) p.now (read_plan (shown_by g) second.now)) forward.old
        back.old forward.new back.new }
{
    let read = plan_reader::read_against(g, second, true)?;
    Ok(voted(
        g,
        p,
        pn,
        pe,
        &read.chosen,
        read.n,
        &read.edges,
        forward,
        back,
    ))
}

// Two plan files against the arrays of an accepted roster. "The first file is checked in full before the second."
pub fn compare(
    g: Instance,
    first: &[u8],
    second: &[u8],
    forward: &mut [u8],
    back: &mut [u8],
) -> Result<Comparison, Refusal>
    requires loaded { Loaded g }
    requires pairing_size_in_bounds { (pairing_size ≤ length forward.old) × (pairing_size ≤ length back.old) }
    ensures value { compared_shown result ≡ comparison_of (shown_by g) first.now second.now }
    ensures paired { Paired (pairings_of (shown_by g) first.now second.now) forward.old back.old
        forward.new back.new }
{
    let read = plan_reader::read_against(g, first, true)?;
    second_judged(g, &read.chosen, read.n, &read.edges, second, forward, back)
}
