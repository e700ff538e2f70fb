//! Files of a pool.

use crate::told::Told;
use pbx_link::{DescriptorPool, FileDescriptor, Syntax};
use std::alloc::Global;

/// The word of a language.
fn syntax_word(syntax: Syntax) -> &'static str {
    match syntax {
        Syntax::Proto2 => "proto2",
        Syntax::Proto3 => "proto3",
    }
}

/// Tells a file's name, its package, its syntax, and how many files its pool has.
fn tell_file(told: &mut Told, file: &FileDescriptor) {
    told.add_all(&["(", file.name(), " ", file.package_name(), " "]);
    told.add(syntax_word(file.syntax()));
    told.add(" of ");
    told.add_count(file.parent_pool().files().len());
    told.add(")");
}

/// Of a name: the file of this name, and the bytes of its record.
pub(crate) fn file(alloc: Global, told: &mut Told, pool: &DescriptorPool, name: &str) {
    match pool.get_file_by_name(name) {
        Some(file) => {
            tell_file(told, &file);
            told.add_bytes(alloc, file.encode_to_vec(alloc));
        }
        None => told.add("none"),
    }
}

/// Tells the full names of the messages that a file declares outside of messages.
fn tell_messages(told: &mut Told, file: &FileDescriptor) {
    for message in file.messages() {
        told.add_all(&["(message ", message.full_name(), ")"]);
    }
}

/// Tells those of the enums.
fn tell_enums(told: &mut Told, file: &FileDescriptor) {
    for found in file.enums() {
        told.add_all(&["(enum ", found.full_name(), ")"]);
    }
}

/// Tells those of the extensions.
fn tell_extensions(told: &mut Told, file: &FileDescriptor) {
    for extension in file.extensions() {
        told.add_all(&["(extension ", extension.full_name(), ")"]);
    }
}

/// Tells those of the services.
fn tell_services(told: &mut Told, file: &FileDescriptor) {
    for service in file.services() {
        told.add_all(&["(service ", service.full_name(), ")"]);
    }
}

/// Of a name: what the file of this name declares outside of messages.
pub(crate) fn declared(told: &mut Told, pool: &DescriptorPool, name: &str) {
    match pool.get_file_by_name(name) {
        Some(file) => {
            tell_messages(told, &file);
            tell_enums(told, &file);
            tell_extensions(told, &file);
            tell_services(told, &file);
        }
        None => told.add("none"),
    }
}

/// The names of the files of a pool.
pub(crate) fn tell_names(told: &mut Told, pool: &DescriptorPool) {
    for file in pool.files() {
        told.add_all(&["(", file.name(), ")"]);
    }
}

/// How many files there are, and each of them.
pub(crate) fn files(told: &mut Told, pool: &DescriptorPool) {
    let files = pool.files();
    told.add_count(files.len());
    told.add_hint(files.size_hint());
    for file in files {
        tell_file(told, &file);
    }
}

/// The bytes of the set of the linked records.
pub(crate) fn linked(alloc: Global, told: &mut Told, pool: &DescriptorPool) {
    told.add_bytes(alloc, pool.encode_to_vec());
}
