//! How a library goes on with a call that a brick refused.

ghost use Rattle.std.specs.Prelude.{◌≡◌, ◌++◌, [], ◌∷◌, IfOk, OnOk, Some, None, true};
ghost use Rattle.dds_letters.specs.declared.letter.Letter.TheVariants as letter;
ghost use Rattle.dds_base.specs.Op.{the_key};
ghost use Rattle.dds_states.specs.Leaf.{leaf_for};
ghost use Rattle.dds_call_rows.specs.Library.{behind, adopts, begin, retried, same_leaf, repairs, differs, stale, refused, denied};

use crate::attempt::{ask, begin, replies, retried};
use dds_base::leaf::Leaf;
use dds_base::memory::Memory;
use dds_base::number::NodeNo;
use dds_base::op::{Met, Reply};
use dds_groups::order::{newer, same_name, same_stamp};
use dds_letters::letter::Letter;
use dds_letters::outbox::Outbox;
use dds_letters::refusal::{Denial, Refusal};
use dds_states::library_state::{Desk, RETRIES, Request, Went};
use std::alloc::Global;

fn same_leaf(a: &Leaf, b: &Leaf) -> bool
    ensures { result ≡ same_leaf a.now b.now }
{
    same_name(&a.name, &b.name) && same_stamp(&a.stamp, &b.stamp)
}

/// Tells a brick the map's newer leaf, and begins again.
fn push(
    alloc: Global,
    desk: &mut Desk,
    mut request: Request,
    from: NodeNo,
    mine: Leaf,
) -> Result<Went, Memory>
    ensures desk { OnOk result (desk.new ≡ (begin desk.old (record request { pushed = true })).desk) }
    ensures went { IfOk result
        (λ went. went
        ≡ (behind ((from, letter.Push mine) ∷ []) (begin desk.old (record request { pushed = true }))).went) }
{
    request.pushed = true;
    let went = begin(alloc, desk, request)?;
    let mut letters = Outbox::new(alloc);
    letters.push(from, Letter::Push { leaf: mine })?;
    letters.append(went.letters)?;
    Ok(Went {
        letters,
        call: went.call,
        reply: went.reply,
    })
}

fn adopt(alloc: Global, desk: &mut Desk, request: Request, theirs: Leaf) -> Result<Went, Memory>
    ensures desk { OnOk result (desk.new ≡ (begin (adopts desk.old theirs) request).desk) }
    ensures went { IfOk result (λ went. went ≡ (begin (adopts desk.old theirs) request).went) }
{
    desk.map.adopt(theirs)?;
    begin(alloc, desk, request)
}

/// Repairs the brick's map or the library's own, and begins again.
fn repairs(
    alloc: Global,
    desk: &mut Desk,
    request: Request,
    from: NodeNo,
    theirs: Leaf,
    mine: Option<Leaf>,
) -> Result<Went, Memory>
    ensures desk { OnOk result (desk.new ≡ (repairs desk.old request from theirs mine).desk) }
    ensures went { IfOk result (λ went. went ≡ (repairs desk.old request from theirs mine).went) }
{
    let Some(mine) = mine else {
        return adopt(alloc, desk, request, theirs);
    };
    if newer(&mine, &theirs) && !request.pushed {
        return push(alloc, desk, request, from, mine);
    }
    if same_leaf(&mine, &theirs) {
        return begin(alloc, desk, request);
    }
    adopt(alloc, desk, request, theirs)
}

/// The map's leaf for a key.
fn mine(desk: &Desk, key: u64) -> Option<Leaf>
    ensures { result ≡ leaf_for desk.now.map key }
{
    desk.map.leaf_of(key).copied()
}

fn retry_with(
    alloc: Global,
    desk: &mut Desk,
    request: Request,
    from: NodeNo,
    theirs: Leaf,
) -> Result<Went, Memory>
    ensures desk { OnOk result (desk.new ≡ (repairs desk.old (retried request) from theirs (leaf_for desk.old.map (the_key request.op))).desk) }
    ensures went { IfOk result (λ went. went ≡ (repairs desk.old (retried request) from theirs (leaf_for desk.old.map (the_key request.op))).went) }
{
    let mine = mine(desk, request.op.key());
    let again = retried(request)?;
    repairs(alloc, desk, again, from, theirs, mine)
}

/// The brick's leaf is another than the one that was used.
fn differs(
    alloc: Global,
    desk: &mut Desk,
    request: Request,
    from: NodeNo,
    theirs: Leaf,
) -> Result<Went, Memory>
    ensures desk { OnOk result (desk.new ≡ (differs desk.old request from theirs).desk) }
    ensures went { IfOk result (λ went. went ≡ (differs desk.old request from theirs).went) }
{
    if request.retries == RETRIES {
        let met = Met::Stale { brick: from };
        return Ok(replies(alloc, desk, Reply::Again(met)));
    }
    retry_with(alloc, desk, request, from, theirs)
}

/// The leaf that was used isn't the brick's, which may have none.
fn stale(
    alloc: Global,
    desk: &mut Desk,
    request: Request,
    from: NodeNo,
    theirs: Option<Leaf>,
) -> Result<Went, Memory>
    ensures desk { OnOk result (desk.new ≡ (stale desk.old request from theirs).desk) }
    ensures went { IfOk result (λ went. went ≡ (stale desk.old request from theirs).went) }
{
    match theirs {
        None => ask(alloc, desk, request, Met::Stale { brick: from }),
        Some(theirs) => differs(alloc, desk, request, from, theirs),
    }
}

/// Answers Again at a lease or a lock, and tries again with a repaired map.
pub fn refused(
    alloc: Global,
    desk: &mut Desk,
    request: Request,
    from: NodeNo,
    refusal: &Refusal,
) -> Result<Went, Memory>
    ensures desk { OnOk result (desk.new ≡ (refused desk.old request from refusal.now).desk) }
    ensures went { IfOk result (λ went. went ≡ (refused desk.old request from refusal.now).went) }
{
    match refusal {
        Refusal::Lease => Ok(replies(alloc, desk, Reply::Again(Met::Lease { brick: from }))),
        Refusal::Lock => Ok(replies(alloc, desk, Reply::Again(Met::Lock { brick: from }))),
        Refusal::Stale { leaf } => stale(alloc, desk, request, from, *leaf),
    }
}

/// Answers Full, or goes on as at a refusal.
pub fn denied(
    alloc: Global,
    desk: &mut Desk,
    request: Request,
    from: NodeNo,
    denial: &Denial,
) -> Result<Went, Memory>
    ensures desk { OnOk result (desk.new ≡ (denied desk.old request from denial.now).desk) }
    ensures went { IfOk result (λ went. went ≡ (denied desk.old request from denial.now).went) }
{
    match denial {
        Denial::Refused(refusal) => refused(alloc, desk, request, from, refusal),
        Denial::Full => Ok(replies(alloc, desk, Reply::Full { brick: from })),
    }
}
