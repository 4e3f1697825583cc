//! What the leaves of an opening cover.

ghost use Rattle.std.specs.Prelude.{◌≡◌, ◌<◌, ◌≤◌, ◌↔◌, ℕ, IsTrue};
ghost use Rattle.std.specs.List.{AllByRecursion};
ghost use Rattle.dds_script.specs.Opening.{AreApart, CoverAll, IsPlaced, meets};
ghost use Rattle.dds_script.specs.Grammar.{repeats};
ghost use Rattle.dds_script.specs.Shares.{share};

use dds_base::leaf::Leaf;
use dds_base::name::{DEPTH, LeafName};

/// Whether a leaf has a key in common with the name.
pub(crate) fn meets(leaves: &[Leaf], name: &LeafName) -> bool
    ensures { result ≡ meets leaves.now name.now }
{
    leaves.iter().any(|leaf| leaf.name.overlaps(name))
}

/// How many of the 65,536 endings of a key the name covers.
fn share(name: &LeafName) -> u64
    ensures value { result ≡ share name.now }
    ensures range { result ≤ 65536 }
{
    1u64 << (DEPTH - name.depth())
}

/// Whether each key is covered by a leaf.
pub(crate) fn cover_all(leaves: &[Leaf]) -> bool
    requires apart { AreApart leaves.now }
    requires placed { (bricks : ℕ) × AllByRecursion (IsPlaced bricks) leaves.now }
    ensures { IsTrue result ↔ CoverAll leaves.now }
{
    let mut sum = 0u64;
    for leaf in leaves {
        sum += share(&leaf.name);
    }
    sum == 65_536
}
