#![tactic(auto)]

// The laws of votes by pairings. No code.
