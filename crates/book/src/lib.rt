//! The calls, the refusals and what a call answers. The plain book that is kept from the calls alone stands in specs/.
#![tactic(auto)]

mod call;
mod refusal;
mod row;

pub use call::{Call, LogEntry, Reply};
pub use refusal::Refusal;
pub use row::Row;
