//! Finite listings and their sums, ranges, and answers by steps in order: words and laws.
#![tactic(auto)]

mod laws;

pub use laws::{
    count_of_below, first_circle_is_named, neighbours_decide, one_answer, one_length, one_total,
    sum_of_products, sum_over_keys, sums_change_places,
};
