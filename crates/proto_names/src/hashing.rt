//! Hashes of full names. They are rolling: from the hash of a text come those of the texts with some bytes more behind it,
//! or fewer. Keys and tables have them spread.

ghost use Rattle.std.specs.Prelude.{◌≡◌, ℕ, ◌+◌, ◌*◌, ◌%◌, ◌<◌, ◌++◌, List};
ghost use Rattle.std.specs.List.{fold};
ghost use Rattle.proto_names.specs.Hashes.{hash_of, hash_step, rolling_hash, spread};

/// More than any hash.
const MODULUS: u64 = 4_294_967_296;

/// What a rolling hash is multiplied with before the next byte comes.
const FACTOR: u64 = 16_777_619;

/// What a rolling hash is multiplied with to be spread: 2^32 divided by the golden ratio, so that those side by side come
/// to lie far apart.
const SPREADING_FACTOR: u64 = 2_654_435_769;

/// A rolling hash as keys and tables have it.
pub(crate) fn spread(hash: u32) -> u32
    ensures { result ≡ spread hash }
{
    (hash as u64 * SPREADING_FACTOR % MODULUS) as u32
}

/// The inverse of `SPREADING_FACTOR`, modulo 2^32.
const SPREADING_INVERSE: u64 = 340_573_321;

/// The rolling hash of which this one was spread.
pub(crate) fn unspread(hash: u32) -> u32
    ensures { (rolling : ℕ) → rolling < 4294967296 → hash ≡ spread rolling → result ≡ rolling }
{
    (hash as u64 * SPREADING_INVERSE % MODULUS) as u32
}

/// A rolling hash with a byte more.
pub(crate) fn with_byte(hash: u32, byte: u8) -> u32
    ensures { result ≡ hash_step hash byte }
{
    ((hash as u64 * FACTOR + byte as u64) % MODULUS) as u32
}

/// A rolling hash with more bytes.
pub(crate) fn with_bytes(start: u32, bytes: &[u8]) -> u32
    ensures { result ≡ fold hash_step start bytes.now }
{
    let mut hash = start;
    for byte in bytes {
        hash = with_byte(hash, *byte);
    }
    hash
}

/// A rolling hash with the bytes of a text more.
pub(crate) fn with_text(start: u32, text: &str) -> u32
    ensures { result ≡ fold hash_step start text.now }
{
    with_bytes(start, text.as_bytes())
}

/// The inverse of `FACTOR`, modulo 2^32.
const INVERSE: u64 = 899_433_627;

/// A rolling hash before its last byte came.
pub(crate) fn without_byte(hash: u32, byte: u8) -> u32
    ensures { (before : ℕ) → before < 4294967296 → hash ≡ hash_step before byte → result ≡ before }
{
    ((hash as u64 + MODULUS - byte as u64) * INVERSE % MODULUS) as u32
}

/// The rolling hash of what stands before these bytes, from that of all.
pub(crate) fn hash_before(whole: u32, bytes: &[u8]) -> u32
    ensures { (prefix : List ℕ) → whole ≡ rolling_hash (prefix ++ bytes.now)
        → result ≡ rolling_hash prefix }
{
    let mut hash = whole;
    let mut end = bytes.len();
    while end > 0 {
        end -= 1;
        hash = without_byte(hash, bytes[end]);
    }
    hash
}

/// A name, whose rolling hash in any scope takes one product.
#[derive(Clone, Copy)]
pub(crate) struct HashedName<'n> {
    pub(crate) text: &'n str,
    /// The rolling hash of the name alone.
    rolling: u32,
    /// The power of `FACTOR` with which the hash of what stands before the name is multiplied, modulo 2^32.
    power: u32,
    ghost hashed: { (before : ℕ) → before < 4294967296
        → fold hash_step before text.now ≡ (before * power + rolling) % 4294967296 },
}

impl<'n> HashedName<'n> {
    pub(crate) fn new(text: &'n str) -> HashedName<'n>
        ensures { result.text.now ≡ text.entry.now }
    {
        let mut rolling = 0;
        let mut power = 1;
        for byte in text.as_bytes() {
            rolling = with_byte(rolling, *byte);
            power = with_byte(power, 0);
        }
        HashedName {
            text,
            rolling,
            power,
        }
    }

    /// The hash of the name.
    pub(crate) fn hash(self) -> u32
        ensures { result ≡ hash_of self.entry.text.now }
    {
        spread(self.rolling)
    }

    /// The rolling hash of the name behind a text that has this one.
    pub(crate) fn behind(self, before: u32) -> u32
        ensures { result ≡ fold hash_step before self.entry.text.now }
    {
        ((before as u64 * self.power as u64 + self.rolling as u64) % MODULUS) as u32
    }
}
