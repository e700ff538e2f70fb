//! Dynamic messages: messages of a type that is known only when the program runs, and the values of their fields.
//!
//! A message is its descriptor and what it holds, a content of the descriptor's type. Values go in by move and out by copy. The values of
//! a map stand under its keys, in the order of the keys.
#![tactic(auto)]

mod defaults;
mod error;
mod giving;
mod holding;
mod key_map;
mod levels;
mod members;
mod message;
mod own;
mod putting;
mod reader;
mod reading;
mod setting;
mod tree;
mod typed;
mod value;

pub use error::SetFieldError;
pub use key_map::KeyMap;
pub use message::DynamicMessage;
pub use pbx_content_codec::MapKey;
pub use pbx_wire::Rec as UnknownField;
pub use reader::MessageReader;
pub use value::{Value, ValueMap};
