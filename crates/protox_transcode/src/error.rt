//! Why files, a type's name and a tree are refused.

ghost use Rattle.std.specs.Prelude.{◌≡◌, ◌∷◌, [], IfOk, string_bytes, codes};
ghost use Rattle.std.specs.List.{concat};
ghost use Rattle.protox_file_error.specs.Errors.{IsWhole};
ghost use Rattle.protox_transcode.specs.Top.{top_line, is_refusal, is_fault, is_memory, of_error, of_json, of_names};

use crate::json_fault::json_line;
use pbx_json::{JsonError, JsonKind, NameFault};
use pbx_wire::{NoMemory, Text};
use protox_file_sources::{Error, ErrorKind};
use std::alloc::Global;

/// Why files, a type's name and a tree are refused.
#[derive(Debug, Drop, thiserror::Error)]
pub enum TopError {
    /// A file is not found, not read or not taken.
    #[error("{0}")]
    File(Error),
    /// A key of a message's JSON has two meanings.
    #[error("message '{message}' has clashing JSON name '{key}'")]
    JsonNames {
        /// The full name of the message.
        message: Text,
        /// The key.
        key: Text,
    },
    /// A message has the name of a well-known type, and not the shape that the name's public file declares.
    #[error("message '{message}' has not its well-known shape")]
    WellKnownShape {
        /// The full name of the message.
        message: Text,
    },
    /// No message has the full name.
    #[error("type '{name}' not found")]
    TypeNotFound {
        /// The name.
        name: Text,
    },
    /// The tree stands for no message of the type, as it breaks a rule of the JSON mapping at a place.
    #[error("{0}")]
    Json(JsonError),
    /// The message nests more than 100 levels, or the payload of a `google.protobuf.Any` in it does, or does not decode.
    #[error("message nests more than 100 levels")]
    TooDeep,
    /// Memory ran out.
    #[error("out of memory")]
    NoMemory,
}

fn json_names_line(alloc: Global, message: &Text, key: &Text) -> Result<Text, NoMemory>
    ensures { IfOk result (λ line. line ≡ concat (codes "message '" ∷ message.now ∷ codes "' has clashing JSON name '" ∷ key.now ∷ codes "'" ∷ [])) }
{
    Text::joined(
        alloc,
        &[
            "message '",
            message.as_str(),
            "' has clashing JSON name '",
            key.as_str(),
            "'",
        ],
    )
}

impl TopError {
    /// What is wrong and where, in one line where no name in it has a line feed. `NoMemory` comes for want of memory alone.
    pub fn line(&self, alloc: Global) -> Result<Text, NoMemory>
        ensures { IfOk result (λ line. line ≡ concat (top_line self.now)) }
    {
        match self {
            TopError::File(error) => error.long_line(alloc),
            TopError::JsonNames { message, key } => json_names_line(alloc, message, key),
            TopError::WellKnownShape { message } => Text::between(
                alloc,
                "message '",
                message,
                "' has not its well-known shape",
            ),
            TopError::TypeNotFound { name } => Text::between(alloc, "type '", name, "' not found"),
            TopError::Json(error) => json_line(alloc, error),
            TopError::TooDeep => Text::from_str(alloc, "message nests more than 100 levels"),
            TopError::NoMemory => Text::from_str(alloc, "out of memory"),
        }
    }

    /// Whether the input is refused, and no fault of the resolver or want of memory came in between.
    pub fn is_refusal(&self) -> bool
        ensures { result ≡ is_refusal self.now }
    {
        match self {
            TopError::File(error) => !is_fault(error),
            TopError::NoMemory => false,
            _ => true,
        }
    }
}

/// Whether a resolver failed, or memory ran out.
fn is_fault(error: &Error) -> bool
    ensures { result ≡ is_fault error.now }
{
    matches!(
        error.kind(),
        ErrorKind::OpenFile { .. } | ErrorKind::Custom { .. } | ErrorKind::NoMemory
    )
}

/// The error of a compiler's; want of memory stands inside of no other error. It takes no memory.
pub fn file_error(error: Error) -> TopError
    ensures is { result ≡ of_error error }
    // Inside of the error no want of memory stands.
    ensures whole { IsWhole error }
{
    if is_memory(&error) {
        return TopError::NoMemory;
    }
    TopError::File(error)
}

fn is_memory(error: &Error) -> bool
    ensures same { result ≡ is_memory error.now }
    ensures whole { IsWhole error.now }
{
    matches!(error.kind(), ErrorKind::NoMemory)
}

/// The error of a tree; want of memory stands inside of no other error.
pub(crate) fn json_error(error: JsonError) -> TopError
    ensures { result ≡ of_json error }
{
    if matches!(error.kind, JsonKind::NoMemory) {
        return TopError::NoMemory;
    }
    TopError::Json(error)
}

/// The error of a message whose JSON has a key with two meanings, or that has not the shape of its well-known name.
pub(crate) fn names_error(fault: NameFault) -> TopError
    ensures { result ≡ of_names fault }
{
    match fault {
        NameFault::JsonNames { message, key } => TopError::JsonNames { message, key },
        NameFault::WellKnownShape { message } => TopError::WellKnownShape { message },
        NameFault::NoMemory => TopError::NoMemory,
    }
}
