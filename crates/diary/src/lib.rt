// The diary that a caller lends: a slice of step records, as document 01 has it ("The diary is a lent list of step records: fate, surveyor,
// stand, rule"), with "the shift after the stand" (W-204).
#![tactic(auto)]

// A record of the diary: fate 1 is fix and 2 strike; surveyor, stand and shift count from 1.
#[repr(C)]
#[derive(Drop)]
pub struct Step {
    pub fate: u8,
    pub surveyor: u8,
    pub stand: u8,
    pub shift: u8,
    pub rule: u8,
}
