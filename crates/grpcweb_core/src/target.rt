//! The target of a request: which service it names.

ghost use Rattle.std.specs.Prelude.{◌↔◌, IsTrue};
ghost use Rattle.grpcweb_core.specs.Http.{IsEmptyOrBegins, IsReflection, IsTargetOf};

/// Whether a text is empty or begins with this byte.
fn is_empty_or_begins(text: &[u8], byte: u8) -> bool
    ensures { IsTrue result ↔ IsEmptyOrBegins byte text.now }
{
    match text {
        [] => true,
        [first, ..] => *first == byte,
    }
}

/// Whether a target has this path. The query is ignored.
fn is_target_of(target: &str, path: &str) -> bool
    ensures { IsTrue result ↔ IsTargetOf path.now target.now }
{
    match target.as_bytes().strip_prefix(path.as_bytes()) {
        Some(query) => is_empty_or_begins(query, b'?'),
        None => false,
    }
}

/// Whether a target names a reflection service, of version `v1` or `v1alpha`. Their messages are the same.
pub(crate) fn is_reflection(target: &str) -> bool
    ensures { IsTrue result ↔ IsReflection target.now }
{
    is_target_of(
        target,
        "/grpc.reflection.v1.ServerReflection/ServerReflectionInfo",
    ) || is_target_of(
        target,
        "/grpc.reflection.v1alpha.ServerReflection/ServerReflectionInfo",
    )
}
