//! Proved callers. Each relies on one promise of a call, and is proved from its contract alone.
//!
//! The body of the call plays no part here, so the contract has to exclude each answer that breaks
//! the promise. Bodies that give such answers stand in `wrong-bodies` of the crate of the call. To
//! edit such a body and check it again takes minutes, and a caller is proved in seconds.
#![tactic(auto)]

mod board;
mod build_queue;
mod lane;
mod link;
mod runner;
mod session;
mod store;
mod value;
mod work;
mod world;

pub use board::added_build_is_wanted;
pub use build_queue::builds_of_other_workers_stay;
pub use lane::{
    answered_event_is_recorded_once, drained_items_are_published, first_items_find_room,
    lines_are_of_all_that_was_seen, log_that_was_seen_is_there, settled_lane_keeps_what_was_said,
    unshown_item_is_held,
};
pub use link::{
    busy_lane_keeps_its_link, failed_link_hears_nothing, failed_read_leaves_nothing_to_send,
    message_in_hand_is_not_passed_over, noted_event_was_taken, order_is_kept_as_it_was_sent,
    order_is_sent_again, order_keeps_its_number, refused_login_is_told_why,
    session_is_cut_after_a_failed_ask, session_is_cut_after_a_fault,
    untaken_request_is_not_answered,
};
pub use runner::{failure_is_reported, some_step_is_started};
pub use session::{
    ended_command_gets_no_lines, giving_up_ends_older_commands, new_session_counts_anew,
    repeat_adds_no_lines, repeat_is_answered_as_first,
};
pub use store::{loss_ends_each_command, nothing_is_behind_the_end};
pub use value::{long_form_is_read, positive_is_written_as_unsigned};
pub use work::{nothing_new_is_numbered, said_texts_are_sent_again};
pub use world::lane_with_room_is_not_busy;
