//! Services of a pool.

use crate::told::{Told, where_it};
use pbx_link::{DescriptorPool, MethodDescriptor, ServiceDescriptor};

/// Tells the name of a method, and the messages that it takes and gives, streams of them among them.
fn tell_method(told: &mut Told, method: &MethodDescriptor) {
    told.add_all(&["(", method.name(), " "]);
    told.add(where_it(method.is_client_streaming(), "stream "));
    told.add(method.input().full_name());
    told.add(" ");
    told.add(where_it(method.is_server_streaming(), "stream "));
    told.add(method.output().full_name());
    told.add(")");
}

/// Tells the name of a service, and its methods in declared order.
fn tell_service(told: &mut Told, service: &ServiceDescriptor) {
    told.add(service.full_name());
    for method in service.methods() {
        tell_method(told, &method);
    }
}

/// Of a full name: the service of this name, with its methods.
pub(crate) fn service(told: &mut Told, pool: &DescriptorPool, name: &str) {
    match pool.get_service_by_name(name) {
        Some(service) => tell_service(told, &service),
        None => told.add("none"),
    }
}

/// The full name of each service.
pub(crate) fn services(told: &mut Told, pool: &DescriptorPool) {
    for service in pool.services() {
        told.add_all(&["(", service.full_name(), ")"]);
    }
}
