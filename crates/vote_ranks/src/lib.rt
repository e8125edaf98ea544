// Ranks set against each other: the rate of one rank against another, found by comparing, so that any two numbers have one; and the least sum over all
// ways to set one list of ranks against another: over the turns of the first, both lists in order. Sums count each vote from one up, 2, 1 or 0 for 1, 0
// or -1, so that they are numbers.
#![tactic(auto)]

ghost use Rattle.std.specs.Prelude.{◌≡◌, ◌≤◌, length, take};
ghost use Rattle.theory_votes.specs.Score.{rate};
ghost use Rattle.model.specs.Limits.{quota_limit};
ghost use Rattle.theory_votes.specs.Least.{least_sum};
ghost use Rattle.theory_votes.specs.Sorted.{Sorted};
ghost use Rattle.vote_ranks.specs.Turn.{wrap, turn_sum};

// One more than the vote of rank a against rank b. Without a branch, as it stands in the innermost loops.
pub fn rated(a: u8, b: u8) -> u8
    ensures { (result ≡ rate a b) × (result ≤ 2) }
{
    (a < b) as u8 + (a <= b) as u8
}

// Place p of k places in a ring.
fn wrapped(p: usize, k: usize) -> usize
    ensures { result ≡ wrap k p }
{
    if p < k {
        return p;
    }
    p - k
}

// The sum with the first list turned by j places.
fn turn_sum(a: &[u8; 8], b: &[u8; 8], k: usize, j: usize) -> usize
    requires { (k ≤ quota_limit) × (j ≤ k) × (k ≤ length a.now) × (k ≤ length b.now) }
    ensures { result ≡ turn_sum j (take k a.now) (take k b.now) }
{
    let mut sum = 0;
    for i in 0..k {
        let p = wrapped(i + j, k);
        let rate = rated(a[p], b[i]);
        sum += rate as usize;
    }
    sum
}

// The least sum of all; no sum is above twice the number of couples.
pub fn least_sum(a: &[u8; 8], b: &[u8; 8], k: usize) -> usize
    requires k_le_quota_limit { (k ≤ quota_limit) × (k ≤ length a.now) × (k ≤ length b.now) }
    requires sorted { Sorted (λ x. x) (take k a.now) × Sorted (λ x. x) (take k b.now) }
    ensures { result ≡ least_sum (take k a.now) (take k b.now) }
{
    let mut least = 2 * k;
    for j in 0..k {
        let s = turn_sum(a, b, k, j);
        if s < least {
            least = s;
        }
    }
    least
}
