//! Inner machines: those that a running program makes, runs and takes away by host calls.
//!
//! The calls are those of the JAM Gray Paper 0.7.0, appendix B.8, with the numbers 8 to 13. `specs/Calls.antt` has the
//! result of each, by cases, and `specs/Served.antt` what it is under gas.
#![tactic(auto)]

mod answer;
mod changes;
mod copies;
mod inner;
mod laws;
mod nest;
mod rules;
mod slots;
mod words;

pub use answer::Served;
pub use laws::{
    calls_share_pages, least_is_free, others_stay, outer_stays, own_calls_decide, work_is_paid,
};
pub use nest::Nest;
pub use rules::{calls_answer_well, calls_panic};
