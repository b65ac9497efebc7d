//! What the log means to the module: definitions and laws, and the state that keeps it.
#![tactic(auto)]

mod counts;
mod due;
mod head;
mod laws;
mod moment;
mod output;
mod owed;
mod parts;
mod reading;
mod records;
mod restore;
mod state;

pub use laws::{
    a_log_grows_by_one, a_log_grows_by_what_is_due, a_log_has_few_entries, a_log_of_entries_grows,
    a_moved_timer_rings_twice, a_new_term_is_allowed, a_session_opens_once,
    a_set_of_pairs_is_such_an_index, a_snapshot_restores_the_module, a_tentative_state_tells,
    a_timer_rings_as_scheduled, an_index_by_deadline_keeps_up, an_offer_is_due_once,
    due_timers_ring_in_order, is_the_product_of_its_parts, messages_stand_in_order,
    pieces_restore_the_state, services_ask_by_their_outputs, services_ask_what_fits,
    the_module_takes_one_entry, the_parts_are_the_plain_fold, what_is_admitted_is_allowed,
    what_is_due_is_allowed, what_is_due_is_spelled,
};
pub use moment::Moment;
pub use output::ModuleOutput;
pub use state::ModuleState;
