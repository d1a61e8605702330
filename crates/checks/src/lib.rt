// What finish checks before it lays out: counts and limits, the entries of every table, and the fields of refs and uses. Every check is one scan; what asks
// whether an offset lies in an event searches the events, which are in order by then.

#![tactic(auto)]

pub mod entries;
pub mod fields_fit;
pub mod lent;
pub mod search;
