//! The texts of tables and of faults, as lines that a buffer takes, and the JSON listing of designs.
//! It stands on df_lang for points and faults, on df_family for the rows of the difference table, on df_system for paths, and on
//! serde_json for JSON.
//! The crates above append lines by its `put_` calls, and cite their texts, `row_text`, `pair_row_text`, `fault_text` and
//! `log_fault_text`. They fill a `Listing` design by design, which clauses see as the list of its designs, and cite its text, `listing_text`.
#![tactic(auto)]

mod fault_texts;
mod listing;
#[cfg(test)]
mod listing_tests;
mod log_fault_texts;
mod pair_texts;
mod table_texts;
#[cfg(test)]
mod tests;

pub use fault_texts::put_source_fault;
pub use listing::Listing;
pub use log_fault_texts::{
    LOG_FAULT_BYTES, LogFaultText, LogField, MOST_NAME_BYTES, log_fault_text_is_short,
    put_log_fault,
};
pub use pair_texts::{pair_row_text_is_short, put_pair_row};
pub use table_texts::{put_table_row, row_text_is_short};

/// Out of memory.
pub type OutOfMemory = std::alloc::AllocError;
