// Heads and bodies are taken from the front of bytes.
ghost use Rattle.std.specs.Prelude.{◌≡◌, ◌≤◌, ◌++◌, IfErr, OnErr, Some, IfOk, drop, take, vec_len};
ghost use Rattle.hmr_base.specs.declared.out_fault.OutFault.{OutFault};
ghost use Rattle.doors.specs.Coming.{IsBody, IsHead, IsNext};
ghost use Rattle.http_heads.specs.Cutting.{Cuts};
ghost use Rattle.http_heads.specs.declared.cutting.Cut.TheVariants as cut;

use crate::{Coming, OutFault};
use http_heads::{Cut, find_head};
use std::alloc::{AllocError, Global};

/// Takes the first head from the front of the bytes, or says why there is none.
pub(crate) fn take_head(alloc: Global, unread: &mut Vec<u8>) -> Result<Coming, AllocError>
    ensures next { IfOk result (IsNext (Some unread.old.items) (Some unread.new.items)) }
    ensures untaken { OnErr result (unread.new.items ≡ unread.old.items) }
{
    match find_head(unread, 0) {
        Cut::Head(end) => Ok(Coming::Head(take_front(alloc, unread, end)?)),
        Cut::TooLong => Ok(Coming::TooLong),
        Cut::Partial => Ok(Coming::Gone),
    }
}

/// Takes so many bytes from the front: those that are a head there.
pub fn take_front(alloc: Global, unread: &mut Vec<u8>, end: usize) -> Result<Vec<u8>, AllocError>
    requires head { Cuts unread.old.items (cut.Head end) }
    ensures head { IfOk result (λ head. IsHead head.items) }
    ensures whole { IfOk result (λ head. unread.old.items ≡ head.items ++ unread.new.items) }
    ensures untaken { OnErr result (unread.new.items ≡ unread.old.items) }
{
    let head = Vec::from_slice(alloc, &unread[..end])?;
    let rest = Vec::from_slice(alloc, &unread[end..])?;
    *unread = rest;
    Ok(head)
}

/// Takes so many bytes from the front, where there are as many.
pub fn take_body(
    alloc: Global,
    unread: &mut Vec<u8>,
    count: usize,
) -> Result<Option<Vec<u8>>, AllocError>
    ensures body { IfOk result (IsBody count (Some unread.old.items) (Some unread.new.items)) }
    ensures untaken { OnErr result (unread.new.items ≡ unread.old.items) }
{
    if unread.len() < count {
        return Ok(None);
    }
    let body = Vec::from_slice(alloc, &unread[..count])?;
    let rest = Vec::from_slice(alloc, &unread[count..])?;
    *unread = rest;
    Ok(Some(body))
}
