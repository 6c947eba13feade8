//! Serves requests to controllers, entry by entry: the answers to a stream of requests.
#![tactic(auto)]

mod answer;
mod ends;
mod handling;
mod header;
mod reading;
mod serving;

pub use answer::{AnswerHeader, Outcome};
pub use ends::{RequestsEnd, ServeEnd};
pub use header::{HEADER_SIZE, Header, Kind, MOST_DATA};
pub use serving::{REQUEST_LIMIT, serve};
