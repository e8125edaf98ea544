#![tactic(auto)]

// Lemma X, Lemma W, and that the search for a rival gives the verdict by the votes. No code.
