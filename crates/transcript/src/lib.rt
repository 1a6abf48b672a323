//! The transcript of a run: a line for each host call, which a list of replies answers, one for the end, and one for the
//! gas that is left.
//!
//! `specs/Grammar.antt` says which files are lists of replies, `specs/Hosts.antt` how they answer calls, `specs/Lines.antt`
//! has the lines, and `specs/WritingRuns.antt` what a run leaves and writes.
#![tactic(auto)]

mod calls;
mod lines;
mod number_parts;
mod output;
mod parts;
mod replies;
mod reply_fault;
mod run_end;
mod text;
mod writing_runs;

pub use lines::{end_lines, event_line};
pub use replies::Replies;
pub use reply_fault::ReplyFault;
pub use run_end::RunEnd;
pub use writing_runs::{WriteRunFault, write_run};
