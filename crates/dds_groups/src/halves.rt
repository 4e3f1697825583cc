//! The two halves of a partition.

ghost use Rattle.std.specs.Prelude.{◌≡◌, ◌<◌};
ghost use Rattle.dds_groups.specs.Names.{low_half, high_half, is_half, other_half};

use dds_base::name::LeafName;

/// The half whose keys have the next bit 0.
pub fn low_half(name: LeafName) -> LeafName
    requires { name.depth < 16 }
    ensures { result ≡ low_half name }
{
    LeafName::of(name.bits(), name.depth() + 1).unwrap()
}

/// The half whose keys have the next bit 1.
pub fn high_half(name: LeafName) -> LeafName
    requires { name.depth < 16 }
    ensures { result ≡ high_half name }
{
    LeafName::of(name.bits() + (1 << name.depth()), name.depth() + 1).unwrap()
}

/// The other half of the partition that this is a half of.
pub fn other_half(name: LeafName) -> LeafName
    requires { 0 < name.depth }
    ensures { result ≡ other_half name }
{
    let top = 1u16 << (name.depth() - 1);
    let bits = if name.bits() < top {
        name.bits() + top
    } else {
        name.bits() - top
    };
    LeafName::of(bits, name.depth()).unwrap()
}

/// Whether `half` is one of the two halves of `whole`.
pub fn is_half(whole: &LeafName, half: &LeafName) -> bool
    ensures { result ≡ is_half whole.now half.now }
{
    half.depth() == whole.depth() + 1 && whole.covers(u64::from(half.bits()))
}
