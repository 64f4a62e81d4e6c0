//! The messages between a build master and a worker, read from MessagePack trees and written as
//! bytes.
//!
//! The messages are those of the master-worker protocol of the Buildbot manual, MessagePack over
//! WebSocket. The items of an update, the item `log` and the keys `session` and `next_session` of
//! `auth` are this project's profile.
//!
//! Promised: `read` gives just the message that a tree is, or the first fault. What is written is
//! read back as the same message. A body could still want memory.
#![tactic(auto)]

mod fault;
mod field;
mod incoming;
mod item_writing;
mod items;
mod keys;
pub mod laws;
mod limits;
mod login_writing;
mod message;
mod reading;
mod request;
mod text_update;
mod writing;

pub use fault::MsgError;
pub use field::{Field, Fields};
pub use incoming::Incoming;
pub use item_writing::stream_name;
pub use keys::{NUMBER_LIMIT, next_session};
pub use login_writing::write_login;
pub use message::{Message, Numbered, Response};
pub use reading::read;
pub use request::Request;
pub use text_update::{TextUpdate, read_text};
pub use writing::{write_answer, write_request, write_response, write_result};
