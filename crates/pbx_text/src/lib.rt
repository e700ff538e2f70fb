//! The texts that JSON has for numbers, bytes, durations, timestamps and field masks, each by one grammar (ProtoJSON Format), and the
//! laws that what is written reads as itself. And which characters nobody sees in a line.
#![tactic(auto)]

mod base_64;
mod clock;
mod decimal;
mod duration;
mod fault;
mod invisible;
mod laws;
mod mask;
mod timestamp;
mod timestamp_laws;

pub use base_64::{read_base64, write_base64};
pub use decimal::{read_signed, read_unsigned, write_signed, write_unsigned};
pub use duration::{read_duration, write_duration};
pub use fault::TextFault;
pub use invisible::is_invisible;
pub use laws::{bytes_read_back, durations_read_back, masks_read_back, numbers_read_back};
pub use mask::{camel_case_to_snake_case, read_mask, snake_case_to_camel_case, write_mask};
pub use timestamp::{read_timestamp, write_timestamp};
pub use timestamp_laws::timestamps_read_back;
