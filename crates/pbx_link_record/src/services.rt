// Linked services, each in its scope.
ghost use Rattle.std.specs.Prelude.{◌≡◌, map, IfOk, OnOk};
ghost use Rattle.pbx_link_record.specs.Settled.{settled_method, settled_service};
ghost use Rattle.pbx_link_record.specs.Linked.{linked_method as linked_method_of, linked_service as linked_service_of};

use crate::copying::Duplicate;
use crate::references::link_name;
use crate::settling::Settle;
use crate::unknown::{RecordType, settled_unknown};
use pbx_desc_records::{MethodDescriptorProto, ServiceDescriptorProto};
use pbx_link_definitions::{name_in, text_or_empty};
use pbx_link_scope::Visible;
use pbx_wire::{List, NoMemory};
use std::alloc::Global;

/// Makes the names in the method exact.
fn link_method<V: Visible>(
    alloc: Global,
    seen: &V,
    scope: &str,
    method: &mut MethodDescriptorProto,
) -> Result<(), NoMemory>
    ensures { OnOk result (method.new ≡ linked_method_of (V.files seen.now) scope.now method.old) }
{
    link_name(alloc, seen, scope, &mut method.input_type)?;
    link_name(alloc, seen, scope, &mut method.output_type)
}

/// The method, linked in the scope of its service and settled.
#[tactic(auto, using(crate::proofs::Rolled::method_settled))]
fn linked_method<V: Visible>(
    alloc: Global,
    seen: &V,
    scope: &str,
    method: &MethodDescriptorProto,
) -> Result<MethodDescriptorProto, NoMemory>
    ensures { IfOk result (λ linked. linked ≡ settled_method (linked_method_of (V.files seen.now) scope.now method.now)) }
{
    let mut linked = method.settle(alloc)?;
    if let Err(error) = link_method(alloc, seen, scope, &mut linked) {
        drop(linked);
        return Err(error);
    }
    Ok(linked)
}

/// The methods, linked in the scope of their service and settled.
#[tactic(auto, using(crate::proofs::Rolled::linked_more))]
fn linked_methods<V: Visible>(
    alloc: Global,
    seen: &V,
    scope: &str,
    methods: &List<MethodDescriptorProto>,
) -> Result<List<MethodDescriptorProto>, NoMemory>
    ensures { IfOk result (λ linked. linked ≡ map settled_method (map (linked_method_of (V.files seen.now) scope.now) methods.now)) }
{
    let mut linked = List::with_capacity(alloc, methods.len())?;
    for method in methods.as_slice() {
        linked.add(linked_method(alloc, seen, scope, method)?)?;
    }
    Ok(linked)
}

/// The service, linked in its scope and settled.
fn linked_service<V: Visible>(
    alloc: Global,
    seen: &V,
    scope: &str,
    service: &ServiceDescriptorProto,
) -> Result<ServiceDescriptorProto, NoMemory>
    ensures { IfOk result (λ linked. linked ≡ settled_service (linked_service_of (V.files seen.now) scope.now service.now)) }
{
    let full = name_in(alloc, scope, text_or_empty(&service.name))?;
    Ok(ServiceDescriptorProto {
        name: service.name.duplicate(alloc)?,
        method: linked_methods(alloc, seen, full.as_str(), &service.method)?,
        options: service.options.settle(alloc)?,
        unknown: settled_unknown(alloc, &service.unknown, RecordType::Service)?,
    })
}

/// The services, linked in their scope and settled. The only error is want of memory.
#[tactic(auto, using(crate::proofs::Rolled::linked_more))]
pub(crate) fn linked_services<V: Visible>(
    alloc: Global,
    seen: &V,
    scope: &str,
    services: &List<ServiceDescriptorProto>,
) -> Result<List<ServiceDescriptorProto>, NoMemory>
    ensures { IfOk result (λ linked. linked ≡ map settled_service (map (linked_service_of (V.files seen.now) scope.now) services.now)) }
{
    let mut linked = List::with_capacity(alloc, services.len())?;
    for service in services.as_slice() {
        linked.add(linked_service(alloc, seen, scope, service)?)?;
    }
    Ok(linked)
}
