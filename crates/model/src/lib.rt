#![tactic(auto)]

// Document 01 as definitions that run, but for the calls, with their cases. No code.
