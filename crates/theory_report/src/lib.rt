#![tactic(auto)]

// Lemmas of the report that are false, each by an instance that the checker computes; no code.
