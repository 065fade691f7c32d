//! Rules on services and methods.

ghost use Rattle.std.specs.Prelude.{OnOk};
ghost use Rattle.proto_options.specs.Statements.{service_rpc};
ghost use Rattle.proto_checks.specs.Elements.{RpcBreaks, ServiceBreaks};
ghost use Rattle.proto_base.specs.Sets.{Each, Gains};

use crate::each::{Check, put_each};
use crate::settings::put_statement_setting_faults;
use proto_base::Spot;
use proto_desc::rules::Element;
use proto_options::rpc_items;
use proto_tree::{Rpc, Service, ServiceItem};
use std::alloc::{AllocError, Global};

fn put_method_faults(alloc: Global, faults: &mut Vec<Spot>, rpc: &Rpc) -> Result<(), AllocError>
    ensures { OnOk result (Gains (RpcBreaks rpc.now) faults.old.items faults.new.items) }
{
    put_statement_setting_faults(alloc, faults, Element::Method, rpc_items(&rpc.body))
}

impl Check for ServiceItem<'_> {
    ghost breaks = { λ item. Each (service_rpc item) RpcBreaks };

    fn put_faults(&self, alloc: Global, faults: &mut Vec<Spot>) -> Result<(), AllocError> {
        match self {
            ServiceItem::Rpc(rpc) => put_method_faults(alloc, faults, rpc.get()),
            ServiceItem::Option(_) | ServiceItem::Empty(_) => Ok(()),
        }
    }
}

/// Puts the faults of a service.
pub(crate) fn put_service_faults(
    alloc: Global,
    faults: &mut Vec<Spot>,
    service: &Service,
) -> Result<(), AllocError>
    ensures { OnOk result (Gains (ServiceBreaks service.now) faults.old.items faults.new.items) }
{
    let items = service.items.as_slice();
    put_statement_setting_faults(alloc, faults, Element::Service, items)?;
    put_each(alloc, faults, items)
}
