//! Asks of `pbx_parse_token`, `pbx_parse_tree`, `pbx_parse_reader`, `pbx_parse_locations`, `pbx_parse_translation` and
//! `pbx_parse`.
//!
//! A row asks `source` and a word; what stands in its fields is told at the word's function.

mod parsed;
mod settings;
mod tokens;
mod types;
mod words;

use std::alloc::Global;
use test_rows::{Row, Stop};

/// What the word asks for.
pub(crate) fn answer(alloc: Global, row: &Row, word: &str) -> Result<String, Stop> {
    match word {
        "tokens" | "places" => tokens::shown(alloc, row, word),
        "stands for" => tokens::stands_for(alloc, row),
        "stands for text" => tokens::stands_for_text(alloc, row),
        "option" => settings::option(alloc, row),
        "optimize mode" => settings::mode(alloc, row),
        "settings" => settings::fit(alloc, row),
        "type" | "kind" | "key" | "text" => types::fits(alloc, row, word),
        "file" | "record" | "where" => parsed::shown(alloc, row, word),
        "out of memory" => parsed::without_memory(alloc),
        _ => Err(Stop::NoSuchWord),
    }
}
