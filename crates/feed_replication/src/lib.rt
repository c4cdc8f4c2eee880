//! Binary logs over a connection: dump requests, a server that answers them, and a follower of the answer.
//!
//! [`request`] makes the packet that asks for a log, and [`serve`] sends the log's events from the requested position on, each in
//! a payload of its own ([`PayloadFormat`]). A [`Follower`] writes the transactions of such an answer as they arrive; it resumes
//! from the last commit that it printed, and [`rehearse`] runs it so over any number of connections.
#![tactic(auto)]

mod acknowledgements;
mod answer_events;
mod answer_reader;
mod follower;
mod format;
mod incoming;
mod packets;
mod rehearsal;
mod request_reading;
mod requests;
mod sending;
mod served;
mod serving;
mod skipping;
mod step;
mod waiting;
mod without_checksum;

pub use answer_events::AnswerEvents;
pub use answer_reader::{AnswerReader, TakenEvent};
pub use follower::Follower;
pub use format::PayloadFormat;
pub use rehearsal::{rehearse, rehearse_growing, rehearse_semi};
pub use requests::{RequestError, request};
pub use served::{Refusal, Served};
pub use serving::{serve, serve_semi};
pub use step::Step;
