//! Laws of the meaning: steps, levels, the first failure of a test, and two related runs. No code.
#![tactic(auto)]

mod laws;

pub use laws::{
    a_call_takes_a_step, a_first_failure_stays, a_test_takes_at_most_the_budget,
    a_turn_takes_a_step, any_numbers, no_deeper_calls, nothing_is_given_back, steps_only_fall,
};
