//! A bucket's log of operations, and what a list of operations means to its readers.
#![tactic(auto)]

mod batches;
mod laws;
mod logs;
mod ops;
mod places;
mod plain_logs;
mod searches;
mod steps;
mod takes;
pub mod uncounted;

pub use batches::Batch;
pub use laws::{
    batches_are_the_log, batches_keep_readers_honest, honest_readers_stay_honest,
    readers_are_whole_at_the_newest, readers_need_no_targets, readers_stand_at_the_last_id,
    rising_ids_rise_on, standing_logs_have_the_sums_of_their_originals,
    standing_logs_stay_standing, the_last_decides, totals_are_sums,
    what_is_written_later_adds_nothing,
};
pub use logs::Log;
pub use ops::{Key, Op};
pub use plain_logs::BucketLog;
pub use searches::{Placed, place_past};
pub use steps::Steps;
pub use takes::{Taken, TakenBucket};
