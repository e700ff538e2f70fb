ghost use Rattle.std.specs.Prelude.{◌≡◌};
ghost use Rattle.pbx_message_dynamic.specs.declared.error.SetFieldError.TheVariants.{NoMemory as OutOfMemory};

use pbx_wire::NoMemory;
use thiserror::Error;

/// Why a field was not set.
#[derive(Clone, Copy, Debug, PartialEq, Eq, Error)]
pub enum SetFieldError {
    /// The field is another message's.
    #[error("the message has no such field")]
    NotFound,
    /// The value is not of the field's kind.
    #[error("the value is not of the field's kind")]
    InvalidType,
    /// Memory ran out. The stack is memory too: the message would nest more than 1,024 levels.
    #[error("out of memory")]
    NoMemory,
}

impl From<NoMemory> for SetFieldError {
    ghost from_gives = { λ _ e. e ≡ OutOfMemory };

    fn from(_refused: NoMemory) -> SetFieldError {
        SetFieldError::NoMemory
    }
}
