//! Limits on what is compiled and answered.

ghost use Rattle.std.specs.Prelude.{◌≡◌, ◌≢◌, ◌+◌, ◌<◌, ◌≤◌, ◌↔◌, IsSome, IfSome};

/// One of the limits.
#[derive(Clone, Copy, Debug, PartialEq, Eq)]
pub enum Limit {
    /// The bytes of one source.
    FileBytes,
    /// The sources of one list.
    Files,
    /// Messages inside one another; one at the top has depth 1.
    Depth,
    /// The bytes of a declared or made name.
    NameBytes,
    /// The bytes of a full name.
    FullNameBytes,
    /// The occurrences of names in all files.
    Names,
    /// The bytes of one file's descriptor.
    DescriptorBytes,
    /// The bytes of a descriptor set.
    SetBytes,
    /// The bytes of a request body.
    BodyBytes,
    /// The bytes of one request message.
    MessageBytes,
    /// The requests of one body.
    Requests,
}

/// A value for each limit, at most the standard one.
#[derive(Clone, Copy)]
pub struct Limits {
    file_bytes: u64,
    files: u64,
    depth: u64,
    name_bytes: u64,
    full_name_bytes: u64,
    names: u64,
    descriptor_bytes: u64,
    set_bytes: u64,
    body_bytes: u64,
    message_bytes: u64,
    requests: u64,
    ghost file_bytes_bound: { file_bytes ≤ 4_194_304 },
    ghost files_bound: { files ≤ 16_384 },
    ghost depth_bound: { depth ≤ 64 },
    ghost name_bytes_bound: { name_bytes ≤ 255 },
    ghost full_name_bytes_bound: { full_name_bytes ≤ 1_023 },
    ghost names_bound: { names ≤ 1_048_576 },
    ghost descriptor_bytes_bound: { descriptor_bytes ≤ 16_777_216 },
    ghost set_bytes_bound: { set_bytes ≤ 1_073_741_824 },
    ghost body_bytes_bound: { body_bytes ≤ 1_048_576 },
    ghost message_bytes_bound: { message_bytes ≤ 65_536 },
    ghost requests_bound: { requests ≤ 16_384 },
}

impl Limits {
    ghost use Rattle.proto_base.specs.Limits.{limit_of};
    ghost use Rattle.proto_base.specs.StandardLimits.{standard_of};
    ghost use Rattle.proto_base.specs.declared.limits.Limit.{Limit};

    /// The greatest value of each limit.
    pub fn standard() -> Limits
        ensures { (limit : Limit) → limit_of result limit ≡ standard_of limit }
    {
        Limits {
            file_bytes: 4_194_304,
            files: 16_384,
            depth: 64,
            name_bytes: 255,
            full_name_bytes: 1_023,
            names: 1_048_576,
            descriptor_bytes: 16_777_216,
            set_bytes: 1_073_741_824,
            body_bytes: 1_048_576,
            message_bytes: 65_536,
            requests: 16_384,
        }
    }

    /// The value of one limit.
    pub fn get(&self, limit: Limit) -> u64
        ensures value { result ≡ limit_of self.now limit }
        ensures within { result ≤ standard_of limit }
    {
        match limit {
            Limit::FileBytes => self.file_bytes,
            Limit::Files => self.files,
            Limit::Depth => self.depth,
            Limit::NameBytes => self.name_bytes,
            Limit::FullNameBytes => self.full_name_bytes,
            Limit::Names => self.names,
            Limit::DescriptorBytes => self.descriptor_bytes,
            Limit::SetBytes => self.set_bytes,
            Limit::BodyBytes => self.body_bytes,
            Limit::MessageBytes => self.message_bytes,
            Limit::Requests => self.requests,
        }
    }

    /// How much is read of what has a limit: one more than it may have, so that one that is too long is noticed.
    pub fn read_bound(&self, limit: Limit) -> u64
        ensures value { result ≡ limit_of self.now limit + 1 }
        ensures within { result ≤ standard_of limit + 1 }
    {
        self.get(limit) + 1
    }

    /// These limits with a lower one. A limit is never 0 and never rises.
    pub fn lowered(self, limit: Limit, value: u64) -> Option<Limits>
        ensures some { IsSome result ↔ ((0 < value) × (value ≤ limit_of self limit)) }
        ensures value { IfSome result (λ limits. limit_of limits limit ≡ value) }
        ensures others { IfSome result (λ limits. (other : Limit) → other ≢ limit
            → limit_of limits other ≡ limit_of self other) }
    {
        if value == 0 || value > self.get(limit) {
            return None;
        }
        let mut limits = self;
        match limit {
            Limit::FileBytes => limits.file_bytes = value,
            Limit::Files => limits.files = value,
            Limit::Depth => limits.depth = value,
            Limit::NameBytes => limits.name_bytes = value,
            Limit::FullNameBytes => limits.full_name_bytes = value,
            Limit::Names => limits.names = value,
            Limit::DescriptorBytes => limits.descriptor_bytes = value,
            Limit::SetBytes => limits.set_bytes = value,
            Limit::BodyBytes => limits.body_bytes = value,
            Limit::MessageBytes => limits.message_bytes = value,
            Limit::Requests => limits.requests = value,
        }
        Some(limits)
    }
}
