#![tactic(auto)]

// The laws of roster and plan files. No code.
