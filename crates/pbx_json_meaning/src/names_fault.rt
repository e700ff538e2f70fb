use pbx_wire::Text;
use thiserror::Error;

/// Why the messages of a pool cannot all be carried to JSON and back.
#[derive(Debug, Drop, Error)]
pub enum NameFault {
    /// A key of a message's JSON has two meanings.
    #[error("message '{message}' has clashing JSON name '{key}'")]
    JsonNames {
        /// The full name of the message.
        message: Text,
        /// The key.
        key: Text,
    },
    /// A message has a well-known name and not the shape that the name's public file declares.
    #[error("message '{message}' has not its well-known shape")]
    WellKnownShape {
        /// The full name of the message.
        message: Text,
    },
    /// Memory ran out.
    #[error("out of memory")]
    NoMemory,
}
