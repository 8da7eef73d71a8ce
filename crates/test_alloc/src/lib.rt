//! An allocator for tests: it counts the requests for memory and refuses those in its plan.
#![tactic(auto)]

mod asking;
mod forms;
mod looks;
mod operations;
mod refusing;
mod rows;
mod sizes;
mod trials;

pub use asking::{Step, asked, asked_both, asked_mut, first_wrong, first_wrong_step};
pub use forms::{BITS, INVERTED, PACKED_SYMBOLS, POSTINGS, SYMBOLS, VALUES};
pub use looks::{Look, bit_of};
pub use operations::{OPERATIONS, Operation, evens, is_in_result, result_with_half};
pub use refusing::{Plan, Refusing, takes_none};
pub use rows::{WrongRow, answers_of, lines_of, wrong_row};
pub use sizes::{SIZES, Size, Sizing, Spare, first_wrong_size, spare_of};
pub use trials::{
    Check, Conversion, Edit, Ending, LENGTHS, Making, Trial, Tried, done_if, each_refused,
    first_wrong_trial, is_made_right, out_of_memory_if, requests, tried_on, try_clone_checked,
    try_conversion, try_edit, try_making, try_use_checked,
};
