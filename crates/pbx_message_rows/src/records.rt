//! Messages as descriptor records and back.

use crate::said::add_message;
use pbx_desc::DecodeMessage;
use pbx_desc_encoding::Message;
use pbx_desc_records::FileDescriptorProto;
use pbx_message_dynamic::DynamicMessage;
use std::alloc::Global;
use std::mem::drop;
use test_rows::{Row, Stop};

/// The bytes of the record of a file.
fn file_said(alloc: Global, file: &FileDescriptorProto) -> Result<String, Stop> {
    let bytes = file.encode_to_vec(alloc)?;
    Ok(hex::encode(alloc, bytes.as_slice())?)
}

/// The bytes of the record of a file that the message is; or why it is none.
pub(crate) fn to_file(alloc: Global, message: &DynamicMessage) -> Result<String, Stop> {
    match message.transcode_to::<FileDescriptorProto>(alloc) {
        Ok(file) => {
            let said = file_said(alloc, &file);
            drop(file);
            said
        }
        Err(error) => Ok(format!(in alloc; "{error}")?),
    }
}

/// The message with what the record holds behind it.
fn with_file(
    alloc: Global,
    message: &mut DynamicMessage,
    file: &FileDescriptorProto,
) -> Result<String, Stop> {
    let mut text = String::new(alloc);
    if let Err(error) = message.transcode_from(alloc, file) {
        write!(text, "{error}; ")?;
    }
    add_message(alloc, &mut text, message)?;
    Ok(text)
}

/// The message with what the record of the bytes of the row holds behind it.
pub(crate) fn from_file(
    alloc: Global,
    row: &Row,
    message: &mut DynamicMessage,
) -> Result<String, Stop> {
    let bytes = hex::decode(alloc, row.text(3))?;
    match FileDescriptorProto::decode(alloc, bytes.as_slice()) {
        Ok(file) => {
            let told = with_file(alloc, message, &file);
            drop(file);
            told
        }
        Err(_) => Err(Stop::NoSuchWord),
    }
}
