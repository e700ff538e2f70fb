//! A first program over the library: sources in memory, their set, a message from JSON to bytes and back, and an error with its place.
#![tactic(auto)]

use anyhow::{Context, Result};
use protox::pbx_desc::Message;
use protox::pbx_json::JsonMessage;
use protox::pbx_link::{DescriptorError, DescriptorPool};
use protox::pbx_message::DynamicMessage;
use protox::pbx_wire::NoMemory;
use protox::protox_file::{ErrorKind, File, MemoryResolver};
use protox::{Compiler, Error};
use std::alloc::Global;

const ITEM: &str =
    "syntax = 'proto3'; package shop; message Item { string name = 1; int64 cents = 2; }";

const ORDER: &str = "syntax = 'proto3'; package shop; import 'item.proto';
message Order { uint64 id = 1; repeated Item items = 2; map<string, string> tags = 3; }";

const WRONG: &str = "syntax = 'proto3'; package shop; import 'item.proto';
message Wrong {
  Thing thing = 1;
}";

const JSON: &str = r#"{"tags":{"b":"x","a":"y"},"id":7,"items":[{"name":"tea","cents":"350"}]}"#;

/// The sources, each under the name that others import it by.
fn sources(alloc: Global) -> Result<MemoryResolver, NoMemory> {
    let mut resolver = MemoryResolver::new(alloc);
    resolver.put("item.proto", ITEM)?;
    resolver.put("order.proto", ORDER)?;
    resolver.put("wrong.proto", WRONG)?;
    Ok(resolver)
}

/// A message from JSON.
fn read(rt: &HostRuntime, pool: &DescriptorPool) -> Result<DynamicMessage> {
    let tree = serde_json::from_str(rt.alloc(), JSON)?;
    let order = pool
        .get_message_by_name("shop.Order")
        .context("no type shop.Order")?;
    Ok(DynamicMessage::deserialize(rt.alloc(), order, &tree)?)
}

/// Prints how long the message is on the wire, and its canonical JSON.
fn show(rt: &HostRuntime, message: &DynamicMessage) -> Result<()> {
    let bytes = message.encode_to_vec(rt.alloc())?;
    println!(rt; "{} bytes", bytes.len())?;
    println!(rt; "{}", message.serialize(rt.alloc())?)?;
    Ok(())
}

/// Prints an error, and the line and the column where a rule is broken.
fn explain(rt: &HostRuntime, error: &Error) -> Result<()> {
    println!(rt; "{}", error.long_line(rt.alloc())?)?;
    if let ErrorKind::Check(DescriptorError::Rule { place, .. }) = error.kind() {
        let start = File::from_source(rt.alloc(), "wrong.proto", WRONG)?.place_in_source(
            place.as_slice(),
        );
        if let Some((line, column)) = start {
            println!(rt; "that is line {line}, column {column}")?;
        }
    }
    Ok(())
}

fn run(rt: &HostRuntime, compiler: &mut Compiler<MemoryResolver>) -> Result<()> {
    compiler.open_file("order.proto")?;
    let set = compiler.include_imports(true).encode_file_descriptor_set()?;
    println!(rt; "a set of {} bytes", set.len())?;
    show(rt, &read(rt, &compiler.descriptor_pool())?)?;
    match compiler.open_file("wrong.proto") {
        Ok(_) => Ok(()),
        Err(error) => explain(rt, &error),
    }
}

fn main(rt: HostRuntime) -> Result<()> {
    match Compiler::with_file_resolver(rt.alloc(), sources(rt.alloc())?) {
        Ok(mut compiler) => run(&rt, &mut compiler),
        Err(_) => Err(NoMemory.into()),
    }
}
