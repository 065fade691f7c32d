//! The statements of a method.

ghost use Rattle.std.specs.Prelude.{◌≡◌};
ghost use Rattle.proto_options.specs.Statements.{rpc_items};

use proto_tree::{RpcBody, RpcItem};

/// The statements of a method; one that ends with a semicolon has none.
pub fn rpc_items<'t, 's>(body: &'t RpcBody<'s>) -> &'t [RpcItem<'s>]
    ensures { result.now ≡ rpc_items body.now }
{
    match body {
        RpcBody::Semicolon(_) => &[],
        RpcBody::Block(block) => block.items.as_slice(),
    }
}
