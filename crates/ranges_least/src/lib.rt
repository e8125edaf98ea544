// The least vote of one plan file against another over rankings not yet settled (W-211), against the arrays of an accepted roster: "The plans are
// checked first, then the ranges left to right." The choice that reaches it goes to the front of a buffer. Votes never ask for strict ranks.
#![tactic(auto)]

ghost use Rattle.std.specs.Prelude.{ℕ, ◌*◌, ◌≤◌, ◌<◌, ◌≡◌, length, take};
ghost use Rattle.model.specs.Limits.{empty_rank, choice_size};
ghost use Rattle.model.specs.Vote.{vote};
ghost use Rattle.model.specs.PlanFile.{read_plan};
ghost use Rattle.model.specs.Ranges.{ranges_judged};
ghost use Rattle.theory_ranges.specs.Worst.{ranked_by};
ghost use Rattle.theory_ranges.specs.RangesFile.{ranges_refusal};
ghost use Rattle.theory_ranges.specs.InOrder.{InOrder};
ghost use Rattle.arrays.specs.ArrayInstance.{at, flag};
ghost use Rattle.instance.specs.Decoded.{shown_by};
ghost use Rattle.instance.specs.Loaded.{Loaded};
ghost use Rattle.plan_lookup.specs.PlanEdges.{Listed};
ghost use Rattle.vote_plans.specs.Plan.{Arrays, Light};
ghost use Rattle.plan_reader.specs.Planned.{Planned};
ghost use Rattle.ranges_choice.specs.Choosing.{Lows};
ghost use Rattle.ranges_choice.specs.Chosen.{Ranked};
ghost use Rattle.std.specs.declared.result.Result.TheVariants.{Ok};
ghost use Rattle.ranges_least.specs.ChoiceVote.{SideSum};
ghost use Rattle.ranges_least.specs.Asked.{Asked, ranges_read, second_on, question_on};

use answers::{LeastVote, Refusal};
use instance::Instance;
use limits::{CHOICE_SIZE, ENTRY_LIMIT};
use ranges_choice::Choice;

// The sum of the votes of plan p against plan q at the n nodes of one side.
pub fn side_sum(
    m: usize,
    n: usize,
    end: &[u8; ENTRY_LIMIT],
    rank: &[u8; ENTRY_LIMIT],
    p: &[bool; ENTRY_LIMIT],
    pn: usize,
    pe: &[u16; 64],
    q: &[bool; ENTRY_LIMIT],
    qn: usize,
    qe: &[u16; 64],
) -> i16
    requires arrays { Arrays m n end.now rank.now × Light m end.now p.now × Light m end.now q.now }
    requires listed { Listed m p.now pn pe.now × Listed m q.now qn qe.now }
    ensures { SideSum m n end.now rank.now p.now q.now result }
{
    let a = vote_own_ranks::own_ranks(pn, pe, end, rank, q);
    let b = vote_own_ranks::own_ranks(qn, qe, end, rank, p);
    vote_plans::side_vote(n, a, b)
}

// The vote of plan p, whose edges are the first pn of pe, against plan q under the choice.
pub fn choice_vote(
    g: Instance,
    c: Choice,
    p: &[bool; ENTRY_LIMIT],
    pn: usize,
    pe: &[u16; 64],
    q: &[bool; ENTRY_LIMIT],
    qn: usize,
    qe: &[u16; 64],
) -> i16
    requires loaded { Loaded g × Planned g p.now pn pe.now × Planned g q.now qn qe.now }
    requires ranked { Ranked (shown_by g) (take pn pe.now) (take qn qe.now) c × ((k : ℕ) → at c.ranks k < empty_rank) }
    ensures { result ≡ vote (ranked_by (shown_by g) c.ranks) (flag p.now) (flag q.now) }
{
    let sv = g.sv;
    let st = g.st;
    let rs = c.rank_s;
    let rt = c.rank_t;
    let v = side_sum(g.m, g.ns, &sv, &rs, p, pn, pe, q, qn, qe);
    let w = side_sum(g.m, g.nt, &st, &rt, p, pn, pe, q, qn, qe);
    v + w
}

// Two plans and ranges that meet no refusal, with their low ranks: the vote under the choice, which is written.
pub fn answered(
    g: Instance,
    p: &[bool; ENTRY_LIMIT],
    pn: usize,
    pe: &[u16; 64],
    q: &[bool; ENTRY_LIMIT],
    qn: usize,
    qe: &[u16; 64],
    ranges: &[u8],
    lows: [u8; CHOICE_SIZE],
    out: &mut [u8],
) -> LeastVote
    requires loaded { Loaded g × Planned g p.now pn pe.now × Planned g q.now qn qe.now × (choice_size ≤ length out.old) }
    requires in_order_law { InOrder (shown_by g) × (ranges_refusal (2 * g.m) ranges.now ≤ 0) × Lows (2 * g.m) ranges.now lows }
    ensures { Asked (shown_by g) (ranges_judged p.now q.now (ranges_read g.m ranges.now)) out.old (Ok result)
        out.new }
{
    let c = ranges_choice::choose(g, pn, pe, q, qn, qe, ranges, lows);
    let v = choice_vote(g, c, p, pn, pe, q, qn, qe);
    let ranks = c.ranks;
    let n = 2 * g.m;
    let k = byte_slices::copy(&ranks[..n], out);
    LeastVote { vote: v, length: k }
}

// The ranges, after both plans were accepted.
pub fn ranges_judged(
    g: Instance,
    p: &[bool; ENTRY_LIMIT],
    pn: usize,
    pe: &[u16; 64],
    q: &[bool; ENTRY_LIMIT],
    qn: usize,
    qe: &[u16; 64],
    ranges: &[u8],
    out: &mut [u8],
) -> Result<LeastVote, Refusal>
    requires loaded { Loaded g × Planned g p.now pn pe.now × Planned g q.now qn qe.now × (choice_size ≤ length out.old) }
    requires in_order_law { InOrder (shown_by g) }
    ensures { Asked (shown_by g) (ranges_judged p.now q.now (ranges_read g.m ranges.now)) out.old result
        out.new }
{
    let lows = ranges_choice::read_ranges(ranges, 2 * g.m)?;
    Ok(answered(g, p, pn, pe, q, qn, qe, ranges, lows, out))
}

// The second plan, after the first one gave p.
pub fn second_judged(
    g: Instance,
    p: &[bool; ENTRY_LIMIT],
    pn: usize,
    pe: &[u16; 64],
    second: &[u8],
    ranges: &[u8],
    out: &mut [u8],
) -> Result<LeastVote, Refusal>
    requires loaded { Loaded g × Planned g p.now pn pe.now × (choice_size ≤ length out.old) }
    requires in_order_law { InOrder (shown_by g) }
    ensures { Asked (shown_by g) (second_on (shown_by g) p.now (read_plan (shown_by g) second.now) ranges.now)
        out.old result out.new }
{
    let read = plan_reader::read_against(g, second, true)?;
    ranges_judged(g, p, pn, pe, &read.chosen, read.n, &read.edges, ranges, out)
}

// Two plan files and the ranges against the arrays of an accepted roster, with a buffer of 2,048 bytes.
pub fn least(
    g: Instance,
    first: &[u8],
    second: &[u8],
    ranges: &[u8],
    out: &mut [u8],
) -> Result<LeastVote, Refusal>
    requires { Loaded g × InOrder (shown_by g) × (choice_size ≤ length out.old) }
    ensures { Asked (shown_by g) (question_on (shown_by g) first.now second.now ranges.now) out.old result
        out.new }
{
    let read = plan_reader::read_against(g, first, true)?;
    second_judged(g, &read.chosen, read.n, &read.edges, second, ranges, out)
}
