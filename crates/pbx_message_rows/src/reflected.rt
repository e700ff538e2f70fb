//! What is told of a value.

use pbx_desc_encoding::Message;
use pbx_link::{DescriptorPool, MessageDescriptor};
use pbx_message::{ReflectError, ReflectMessage};
use pbx_message_dynamic::DynamicMessage;
use std::alloc::{AllocError, Global};
use std::mem::drop;
use test_rows::Stop;

fn add_name(told: &mut String, name: &str) -> Result<(), AllocError> {
    told.push_str(name)?;
    told.push_str(": ")
}

/// Adds the full name of the type, if there is one.
fn add_type(told: &mut String, desc: Option<MessageDescriptor>) -> Result<(), AllocError> {
    match desc {
        Some(desc) => {
            let done = add_name(told, desc.full_name());
            drop(desc);
            done
        }
        None => Ok(()),
    }
}

/// Adds what is written for the message, in hexadecimal digits and quotes.
fn add_bytes(alloc: Global, told: &mut String, message: &DynamicMessage) -> Result<(), Stop> {
    let bytes = message.encode_to_vec(alloc)?;
    let digits = hex::encode(alloc, bytes.as_slice())?;
    told.push_str("'")?;
    told.push_str(digits.as_str())?;
    told.push_str("'")?;
    Ok(())
}

/// Adds why there is no message.
fn add_error(told: &mut String, error: ReflectError) -> Result<(), Stop> {
    match error {
        ReflectError::NotFound => told.push_str("not found")?,
        ReflectError::Decode(fault) => write!(told, "{fault}")?,
        ReflectError::NoMemory => return Err(Stop::NoMemory),
    }
    Ok(())
}

/// The full name of the value's type in the pool, and what is written for its dynamic message or why there is none.
pub(crate) fn reflected<M: ReflectMessage>(
    alloc: Global,
    pool: &DescriptorPool,
    value: &M,
) -> Result<String, Stop> {
    let mut told = String::new(alloc);
    add_type(&mut told, value.descriptor(pool))?;
    match value.transcode_to_dynamic(alloc, pool) {
        Ok(message) => {
            let done = add_bytes(alloc, &mut told, &message);
            drop(message);
            done?;
        }
        Err(error) => add_error(&mut told, error)?,
    }
    Ok(told)
}

/// The same of a value that is not used any more.
pub(crate) fn reflected_last<M: ReflectMessage + Drop>(
    alloc: Global,
    pool: &DescriptorPool,
    value: M,
) -> Result<String, Stop> {
    let told = reflected(alloc, pool, &value);
    drop(value);
    told
}
