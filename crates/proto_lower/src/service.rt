//! Services and methods (language guide, "Defining Services").

ghost use Rattle.std.specs.Prelude.{◌≡◌, ◌∷◌, ◌++◌, [], OnOk, map, flat_map};
ghost use Rattle.proto_options.specs.Statements.{service_rpc};
ghost use Rattle.proto_lower.specs.Services.{method_desc, lowered_service};

use crate::options::options_of;
use crate::type_name::type_reference;
use proto_base::row::Row;
use proto_base::text::Text;
use proto_desc::rules::Element;
use proto_desc::service::{MethodDesc, ServiceDesc};
use proto_options::rpc_items;
use proto_tree::{Rpc, Service, ServiceItem};
use std::alloc::{AllocError, Global};

/// Adds a method.
fn put_method<'s>(
    alloc: Global,
    out: &mut Vec<MethodDesc<'s>>,
    rpc: &Rpc<'s>,
) -> Result<(), AllocError>
    ensures { OnOk result (out.new.items ≡ out.old.items ++ method_desc rpc.now ∷ []) }
{
    let options = options_of(alloc, Element::Method, rpc_items(&rpc.body))?;
    out.push(MethodDesc {
        name: Text::borrowed(rpc.name.text),
        place: rpc.name.span.start,
        input: type_reference(alloc, &rpc.input.name)?,
        output: type_reference(alloc, &rpc.output.name)?,
        options,
        client_streaming: rpc.input.stream.is_some(),
        server_streaming: rpc.output.stream.is_some(),
    })?;
    Ok(())
}

fn method_count(items: &[ServiceItem]) -> usize {
    let mut count = 0usize;
    for item in items {
        if matches!(item, ServiceItem::Rpc(_)) {
            count = count.saturating_add(1);
        }
    }
    count
}

/// Adds the methods among these statements.
fn put_methods<'s>(
    alloc: Global,
    out: &mut Vec<MethodDesc<'s>>,
    items: &[ServiceItem<'s>],
) -> Result<(), AllocError>
    ensures { OnOk result (out.new.items
        ≡ out.old.items ++ map method_desc (flat_map service_rpc items.now)) }
{
    out.reserve_exact(method_count(items))?;
    for item in items {
        if let ServiceItem::Rpc(rpc) = item {
            put_method(alloc, out, rpc.get())?;
        }
    }
    Ok(())
}

/// Adds the descriptor of a service.
pub(crate) fn put_service<'s>(
    alloc: Global,
    out: &mut Vec<ServiceDesc<'s>>,
    service: &Service<'s>,
) -> Result<(), AllocError>
    ensures { OnOk result (out.new.items ≡ out.old.items ++ lowered_service service.now ∷ []) }
{
    let items = service.items.as_slice();
    let mut methods = Vec::new(alloc);
    put_methods(alloc, &mut methods, items)?;
    out.push(ServiceDesc {
        name: Text::borrowed(service.name.text),
        place: service.name.span.start,
        methods: Row::from_vec(methods),
        options: options_of(alloc, Element::Service, items)?,
    })?;
    Ok(())
}
