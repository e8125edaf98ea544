#![tactic(auto)]

// An instance under other numbers, or beside another, and the files of such rosters. No code.
