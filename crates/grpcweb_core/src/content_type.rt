//! Content types (RFC 9110, section 8.3).

ghost use Rattle.std.specs.Prelude.{◌↔◌, IsTrue};
ghost use Rattle.grpcweb_core.specs.Http.{IsBehindType, IsBlank, IsGrpcWeb, IsOfType};

fn is_blank(byte: u8) -> bool
    ensures { IsTrue result ↔ IsBlank byte }
{
    byte == b' ' || byte == b'\t'
}

/// Whether what follows a media type leaves it as it is: blanks, and then nothing or parameters.
fn is_behind_type(text: &[u8]) -> bool
    ensures { IsTrue result ↔ IsBehindType text.now }
{
    for byte in text {
        if !is_blank(*byte) {
            return *byte == b';';
        }
    }
    true
}

/// Whether a content type is this media type, in letters of any case and with any parameters.
fn is_of_type(content_type: &str, media: &str) -> bool
    ensures { IsTrue result ↔ IsOfType media.now content_type.now }
{
    match content_type.as_bytes().split_at_checked(media.len()) {
        Some((name, behind)) => name.eq_ignore_ascii_case(media.as_bytes())
            && is_behind_type(behind),
        None => false,
    }
}

/// Whether a content type is one of gRPC-Web in binary frames (PROTOCOL-WEB.md).
pub(crate) fn is_grpc_web(content_type: &str) -> bool
    ensures { IsTrue result ↔ IsGrpcWeb content_type.now }
{
    is_of_type(content_type, "application/grpc-web")
        || is_of_type(content_type, "application/grpc-web+proto")
}
