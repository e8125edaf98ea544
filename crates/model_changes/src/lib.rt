#![tactic(auto)]

// Surveyors who join and leave (request W-202): definitions and their cases.
