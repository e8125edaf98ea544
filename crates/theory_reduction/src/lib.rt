#![tactic(auto)]

// The laws of the steps. No code.
