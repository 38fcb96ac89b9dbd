// Listings in the rising-level dialect. What they are stands in specs/; the crates above have the code.
#![tactic(auto)]

// How a file counts levels: down to 1, as a schedule does, or up from 0, as a listing does. A parameter, since the code has no second reader
// (docs/ARCHITECTURE.md).
#[derive(Clone, Copy, PartialEq, Eq)]
pub enum Levels {
    Falling,
    Rising,
}
