//! The order in which a brick's pairs stand: by bucket, then by key.

ghost use Rattle.std.specs.Prelude.{◌≡◌, ◌<◌};
ghost use Rattle.dds_base.specs.Place.{bucket, is_before, is_after};

/// Buckets of a table.
pub const BUCKETS: usize = 256;

/// The multiplier of multiplicative hashing by the golden ratio (Knuth, The Art of Computer Programming, 6.4): 2^64
/// divided by it, made odd.
const MULTIPLIER: u64 = 11_400_714_819_323_198_485;

/// The bucket of a key: the top byte of its hash.
#[tactic(auto, unfolding(crate::specs::Place::bucket))]
pub fn bucket(key: u64) -> u8
    ensures { result ≡ bucket key }
{
    (key.wrapping_mul(MULTIPLIER) >> 56) as u8
}

/// Whether key `a` stands before key `b`: its bucket is less, or they are equal and the key is less.
pub fn is_before(a: u64, b: u64) -> bool
    ensures { result ≡ is_before a b }
{
    let (first, second) = (bucket(a), bucket(b));
    first < second || (first == second && a < b)
}

/// Whether a key stands after another one, if there is another one.
pub fn is_after(other: Option<u64>, key: u64) -> bool
    ensures { result ≡ is_after other key }
{
    match other {
        None => true,
        Some(other) => is_before(other, key),
    }
}
