//! What may be a type, a map's key or a text.

use crate::sources::words::{place, scalar};
use pbx_parse_tree::{
    Expected, Literal, Name, Separated, TypeName, key_fits, text_fits, type_fits,
};
use std::alloc::Global;
use test_rows::{Row, Stop};

/// The name of a type; the type of a field has a dot before it.
fn type_name<'a>(alloc: Global, row: &'a Row, word: &str) -> TypeName<'a> {
    let first = Name {
        text: row.text(0),
        span: place(1),
    };
    TypeName {
        dot: match word {
            "kind" => Some(place(0)),
            _ => None,
        },
        full: Separated {
            first,
            more: Vec::new(alloc),
        },
    }
}

fn asked(alloc: Global, row: &Row, word: &str) -> Result<(), Expected> {
    match word {
        "type" | "kind" => type_fits(&type_name(alloc, row, word)),
        "key" => key_fits(scalar(row.text(0))),
        _ => text_fits(&Literal::new(row.text(0), place(1))),
    }
}

/// Whether it may stand there.
pub(crate) fn fits(alloc: Global, row: &Row, word: &str) -> Result<String, Stop> {
    let fits = asked(alloc, row, word);
    Ok(format!(in alloc; "{fits:?}")?)
}
