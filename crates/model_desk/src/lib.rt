#![tactic(auto)]

// What the calls answer: comparison, old seasons, the desk and its history, definitions and their cases.
