// The scan calls but Fetch.
// A call's `_sound` is for a caller that knows the record to be sound with the ring: soundness is tested once.
// It takes any record, so soundness is a premise of its promise: a type for sound records would ask more of whoever calls it.
// The test stands in each call: `sound` stands below `answers` and knows no reason, and `?` behind an `ok_or` would be no shorter.
#![tactic(auto)]

pub mod begin;
pub mod end;
pub mod told;
