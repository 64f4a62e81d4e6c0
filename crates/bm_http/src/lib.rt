//! The chunk server: a request for a log of a lane is answered from what the lane's viewer sees.
//!
//! An answer comes in three steps, so that a server holds its viewers for the second alone. They
//! are what a request asks for ([`Routes::request`]), what the viewers show of it
//! ([`LogRequest::look`]), and the answer with its body ([`Lookup::answer`]). [`Routes::answer`]
//! takes all three. A server asks the viewer of one lane alone ([`LogRequest::first_look`]). It
//! gets a long answer piece by piece, each by a short look ([`LongAnswer::next`]): the pieces
//! joined are the body.
//!
//! Promised: what is asked, looked at and answered, byte for byte, or 503. A body could still
//! answer 503 to anything, as for want of memory.
#![tactic(auto)]

mod answer;
mod bodies;
mod first_look;
mod host_fields;
mod lane_viewers;
pub mod laws;
mod log_request;
mod long_answer;
mod lookup;
mod paths;
mod request_refusal;
mod routes;
mod targets;
mod whole_or_long;

pub use answer::Answer;
pub use first_look::FirstLook;
pub use host_fields::is_host;
pub use lane_viewers::{LaneViewers, ViewersError};
pub use log_request::{LogRequest, Span};
pub use long_answer::{BodyPiece, LongAnswer, PieceError};
pub use lookup::Lookup;
pub use request_refusal::RequestRefusal;
pub use routes::Routes;
pub use whole_or_long::WholeOrLong;
