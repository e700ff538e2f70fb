//! Records of services.

ghost use Rattle.std.specs.Prelude.{◌≡◌, Some, map, IfOk, OnOk};
ghost use Rattle.std.specs.List.{filter_map};
ghost use Rattle.pbx_parse_tree.specs.declared.options.OptionPlace.TheVariants as places;
ghost use Rattle.pbx_parse_tree.specs.Conditions.{service_setting};
ghost use Rattle.pbx_parse_tree.specs.View.{setting_of, method_end_of, method_of, service_item_of, service_of};
ghost use Rattle.pbx_parse_translation.specs.Texts.{type_text as type_text_of};
ghost use Rattle.pbx_parse_translation.specs.Settings.{options_of};
ghost use Rattle.pbx_parse_translation.specs.Services.{streaming as streaming_of, method_settings as method_settings_of};
ghost use Rattle.pbx_parse_translation.specs.Services.{method_record as method_record_of, method_records, service_record as service_record_of};

use crate::passes::{Gives, all_given};
use crate::settings::options;
use crate::texts::type_text;
use pbx_desc_records::{MethodDescriptorProto, Options, ServiceDescriptorProto};
use pbx_parse_token::Span;
use pbx_parse_tree::{
    Method, MethodEnd, OptionPlace, Service, ServiceItem, Setting, Version, method_settings,
    service_settings,
};
use pbx_wire::{List, NoMemory, Recs, Text};
use std::alloc::{AllocError, Global};

/// Whether `stream` is written.
fn streaming(keyword: Option<Span>) -> Option<bool>
    ensures { result ≡ streaming_of keyword }
{
    match keyword {
        Some(_) => Some(true),
        None => None,
    }
}

/// What the option statements of a method set.
fn end_settings<'a>(alloc: Global, end: &'a MethodEnd<'_>) -> Result<Vec<Setting<'a>>, AllocError>
    ensures { IfOk result (λ v. map setting_of v.items ≡ method_settings_of (method_end_of end.now)) }
{
    match end {
        MethodEnd::Semicolon(_) => Ok(Vec::new(alloc)),
        MethodEnd::Block(_, items, _) => method_settings(alloc, items.as_slice()),
    }
}

/// The options record of a method.
fn method_options(alloc: Global, end: &MethodEnd<'_>) -> Result<Option<Options>, NoMemory>
    ensures { IfOk result (λ set. set ≡ options_of places.Method (method_settings_of (method_end_of end.now))) }
{
    let settings = end_settings(alloc, end)?;
    options(alloc, OptionPlace::Method, settings.as_slice())
}

/// Adds what takes memory.
fn add_method_parts(
    alloc: Global,
    method: &Method<'_>,
    parts: &mut MethodDescriptorProto,
) -> Result<(), NoMemory>
    ensures { OnOk result (parts.new ≡ record parts.old {
      name = Some (method_of method.now).name.text;
      input_type = Some (type_text_of (method_of method.now).input.name);
      output_type = Some (type_text_of (method_of method.now).output.name);
      options = options_of places.Method (method_settings_of (method_of method.now).end);
    }) }
{
    parts.name = Some(Text::from_str(alloc, method.name.text)?);
    parts.input_type = Some(type_text(alloc, &method.input.name)?);
    parts.output_type = Some(type_text(alloc, &method.output.name)?);
    parts.options = method_options(alloc, &method.end)?;
    Ok(())
}

#[tactic(auto, unfolding(crate::specs::Services::method_record))]
fn method_record(alloc: Global, method: &Method<'_>) -> Result<MethodDescriptorProto, NoMemory>
    ensures { IfOk result (λ it. it ≡ method_record_of (method_of method.now)) }
{
    let mut parts = MethodDescriptorProto::new(alloc);
    parts.client_streaming = streaming(method.input.stream);
    parts.server_streaming = streaming(method.output.stream);
    match add_method_parts(alloc, method, &mut parts) {
        Ok(()) => Ok(parts),
        Err(error) => Err(error),
    }
}

impl Gives<MethodDescriptorProto> for ServiceItem<'_> {
    ghost given = { λ version item. method_records (service_item_of item) };

    fn give(
        &self,
        alloc: Global,
        _version: Version,
        records: &mut List<MethodDescriptorProto>,
    ) -> Result<(), NoMemory> {
        match self {
            ServiceItem::Method(method) => records.add(method_record(alloc, method)?),
            _ => Ok(()),
        }
    }
}

/// The options record of a service.
fn service_options(alloc: Global, items: &[ServiceItem<'_>]) -> Result<Option<Options>, NoMemory>
    ensures { IfOk result (λ set. set ≡ options_of places.Service (filter_map service_setting (map service_item_of items.now))) }
{
    let settings = service_settings(alloc, items)?;
    options(alloc, OptionPlace::Service, settings.as_slice())
}

/// The record of a service.
#[tactic(auto, unfolding(crate::specs::Services::service_record))]
pub(crate) fn service_record(
    alloc: Global,
    version: Version,
    service: &Service<'_>,
) -> Result<ServiceDescriptorProto, NoMemory>
    ensures { IfOk result (λ it. it ≡ service_record_of (service_of service.now)) }
{
    let items = service.items.as_slice();
    Ok(ServiceDescriptorProto {
        name: Some(Text::from_str(alloc, service.name.text)?),
        method: all_given(alloc, version, items)?,
        options: service_options(alloc, items)?,
        unknown: Recs::new(alloc),
    })
}
