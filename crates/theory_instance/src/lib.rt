#![tactic(auto)]

// The laws of an instance. No code.
