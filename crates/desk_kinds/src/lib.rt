// The kinds of desk records: how long the payload of each may be, and what it asks.
#![tactic(auto)]

mod kinds;
pub mod numbers;
pub mod payload;
pub mod table;

// The least and the greatest length of a kind's payload.
#[derive(Clone, Copy)]
pub struct Limits {
    pub least: usize,
    pub greatest: usize,
}
