#![tactic(auto)]

// Demand 3 about the model's definitions. No code.
