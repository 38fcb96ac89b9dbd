// What the services reply. What they promise stands in specs/; checker and planner have the code.
#![tactic(auto)]

// A refusal's number, file and place, or 0 for all three and a length: the bytes written, or the number that is told.
#[repr(C)]
#[derive(Clone, Copy)]
pub struct Reply {
    pub number: u32,
    pub file: u32,
    pub place: u32,
    pub length: u32,
}
