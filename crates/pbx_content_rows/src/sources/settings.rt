//! The options of `descriptor.proto`, and what may be set where.

use crate::sources::words::{option_place, place, scalar};
use pbx_parse_tree::{
    Allowed, Constant, Expected, Kind, Literal, Name, Number, Setting, known_option, name_fits,
    optimize_mode, value_fits,
};
use std::alloc::Global;
use test_rows::{Row, Stop};

/// The option of a name at a place.
pub(crate) fn option(alloc: Global, row: &Row) -> Result<String, Stop> {
    let option = known_option(option_place(row.text(0)), row.text(1));
    Ok(format!(in alloc; "{option:?}")?)
}

/// The number of a value of `FileOptions.OptimizeMode`.
pub(crate) fn mode(alloc: Global, row: &Row) -> Result<String, Stop> {
    let mode = optimize_mode(row.text(0));
    Ok(format!(in alloc; "{mode:?}")?)
}

/// A value of this sort, which stands at column 9.
fn constant<'a>(sort: &str, text: &'a str) -> Constant<'a> {
    let span = place(9);
    match sort {
        "word" => Constant::Identifier(Name { text, span }),
        "string" => Constant::String(Literal::new(text, span)),
        _ => Constant::Number(Number {
            minus: None,
            value: 1,
            span,
        }),
    }
}

/// `NAME = VALUE`, by four fields: the column of the name, the name, the value's sort and the value.
fn setting(row: &Row, at: usize) -> Setting<'_> {
    let span = place(u32::try_from(row.number(at)).unwrap_or(0));
    let name = Name {
        text: row.text(at.saturating_add(1)),
        span,
    };
    let sort = row.text(at.saturating_add(2));
    Setting {
        name,
        equals: span,
        value: constant(sort, row.text(at.saturating_add(3))),
    }
}

/// What the first two fields allow: what a `field` of a scalar type has, what a `map` has, or the `option` of a place.
fn allowed<'k>(row: &Row, kind: &'k Kind<'static>) -> Allowed<'k, 'static> {
    match row.text(0) {
        "field" => Allowed::Field(kind),
        "map" => Allowed::Map,
        _ => Allowed::Option(option_place(row.text(1))),
    }
}

/// Whether the setting may stand behind those that were seen.
fn follows(
    allowed: Allowed<'_, '_>,
    seen: &[Setting<'_>],
    setting: &Setting<'_>,
) -> Result<(), Expected> {
    let wanted = name_fits(allowed, &setting.name, seen)?;
    value_fits(wanted, &setting.value)
}

/// Whether each may stand behind those before it.
fn each_follows(row: &Row, kind: &Kind<'static>, settings: &[Setting<'_>]) -> Result<(), Expected> {
    for at in 0..settings.len() {
        follows(allowed(row, kind), &settings[..at], &settings[at])?;
    }
    Ok(())
}

/// Whether the settings behind the first two fields, three at most, may stand there, one behind the other.
fn fits(row: &Row, kind: &Kind<'static>) -> Result<(), Expected> {
    let settings = [setting(row, 2), setting(row, 6), setting(row, 10)];
    let count = row.len().saturating_sub(2) / 4;
    each_follows(row, kind, settings.get(..count).unwrap_or(&settings))
}

/// The same as an answer.
pub(crate) fn fit(alloc: Global, row: &Row) -> Result<String, Stop> {
    let kind = Kind::Scalar(scalar(row.text(1)), place(0));
    let fits = fits(row, &kind);
    Ok(format!(in alloc; "{fits:?}")?)
}
