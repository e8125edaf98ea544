#![tactic(auto)]

// Base lemmas: tests, sums, counting, search, lists without repeats. No code.
