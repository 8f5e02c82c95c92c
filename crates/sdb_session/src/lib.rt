//! One session: it answers messages and sends entries of subscribed documents.
#![tactic(auto)]

mod answer_sink;
mod answers;
mod context;
mod dispatch;
mod documents;
mod interner;
mod list_request;
mod listing;
mod policy;
mod projection;
mod pump;
mod session;
mod submit_request;
mod subscribe_request;
mod subscriptions;

pub use answer_sink::AnswerSink;
pub use listing::Listing;
pub use policy::Policy;
pub use pump::Pumped;
pub use session::{Ended, Progress, Session};
