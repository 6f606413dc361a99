//! The picture of a ledger in a range of ticks, as SVG: a bar for each group, in the row of its thread. This project's
//! own.
#![tactic(auto)]

mod axis;
mod bars;
mod columns;
mod drawing;
mod edges;
mod elements;
mod form_laws;
mod frame;
mod hold_bars;
mod labels;
mod laws;
mod levels;
mod lines;
mod makings;
mod marks;
mod mutex_texts;
mod opening;
mod promise;
mod promise_marks;
mod quiet_texts;
mod reading;
mod row_list;
mod row_texts;
mod rows;
mod share_texts;
mod shares;
mod span;
mod style;
mod terms;
mod threads;
mod waits;
mod whole;
mod windows;

pub use form_laws::{
    each_class_has_one_fill, places_are_those_of_the_bars, the_end_that_is_told_is_the_greatest,
    the_legend_names_all, words_need_no_escapes,
};
pub use laws::{
    bars_are_the_ticks, each_bar_has_a_row, each_hold_has_its_row, marks_are_the_events,
    shares_are_the_windows,
};
pub use promise::{Bound, Promise};
pub use reading::{MAX_GROUPS, PictureFault};
pub use whole::{picture, promised_picture};
