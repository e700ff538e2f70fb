//! Tests as rows of data: lines of text with a name, what is asked, and fields, a tab between each two.
//!
//! In a field `\n`, `\r`, `\t`, `\\` and `\xHH`, a byte by two hexadecimal digits, are escapes; everything else stands
//! for itself. A program that reads rows prints one line a row, so a new row costs no proof.
//!
//! A shape is its types with `;` between them and, behind a `|`, its enums with `;` between them. A type is its fields with
//! `,` between them, each `NUMBER:CARDINALITY:KIND`; a `!` before a type says that it keeps the order of its records. A kind
//! is the word of a scalar, `message:PLACE` or `enum:PLACE`. A cardinality is `one`, `some` (with presence), `many`, `packed`,
//! `map KIND` (of the keys) or `oneof PLACE`. An enum is the numbers of its values with `,` between them.
#![tactic(auto)]

mod error;
mod escape;
mod row;
mod stop;
mod text;

pub use error::ShapeTextError;
pub use escape::{escaped, unescaped};
pub use row::{Row, answer_line};
pub use stop::{Done, Stop, line_of};
pub use text::schema;
