//! The log: everything that happened in a campaign, as one list of events.
//!
//! An event is one atomic step of one client, or of the daemon itself. What the daemon decides, it
//! decides on the events before; what it reports is what stands here. `specs/` says, of that list
//! alone, which logs are legal and when boards were written once for each accepted request, in this
//! order: Pasts, Holding, Boards, Known, Verdicts, Steps, Shows, Legal, Once, Crashes. The laws are in
//! `laws`, and logs that a reader can follow in `examples`.
#![tactic(auto)]

pub mod answer;
pub mod decision;
pub mod event;
pub mod examples;
pub mod facts;
mod judging;
pub mod laws;
pub mod live;
mod next_step;
pub mod refusal;
pub mod request;
pub mod told;
pub mod trace;

pub use answer::{AskAnswer, ClaimAnswer, PlugAnswer, ResumeAnswer};
pub use decision::{Decision, Stage};
pub use event::{Back, BoardSeen, Event, Found, Log, Op, Query, Stored};
pub use facts::{BootPlan, Facts, PluginVetoes};
pub use judging::{closing, is_home, judge, same_version};
pub use live::{Held, LiveEntry, OpenStep};
pub use next_step::next_op;
pub use refusal::{FetchNote, Refusal, RetryFault};
pub use request::{InstallFlags, Request};
pub use told::Told;
pub use trace::{Trace, TraceStep, TraceSteps, Traced};
