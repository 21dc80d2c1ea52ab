// A client comes, with the roots of its page, or goes.
ghost use Rattle.std.specs.Prelude.{◌≡◌, ◌↔◌, ◌||◌, nat_le, false, IfOk, List, Ok, length};
ghost use Rattle.hmr_types.specs.declared.limits.TheConstants.{CLIENTS, LARGEST_CLIENT};
ghost use Rattle.core_model.specs.Core as model;
ghost use Rattle.core_model.specs.Names.{Name};
ghost use Rattle.core_model.specs.Roots.{are_bad, are_distinct, roots_or};
ghost use Rattle.server_core.specs.Clients.{numbers_of};
ghost use Rattle.server_core.specs.Kept.{IsStep};

use crate::clients::{place_of, take_out};
use crate::page_core::Core;
use client_records::ClientRecord;
use core_model::Refusal;
use events_and_replies::Reply;
use hmr_types::limits::{CLIENTS, LARGEST_CLIENT, ROOTS};
use hmr_types::{ClientId, ModName, Sequence};
use module_graph::{copy_of, has_name};
use std::alloc::{AllocError, Global};
use update_msgs::ServerMsg;

impl Core {
    /// A client comes. It is refused where its roots are bad, and else where no further client is taken;
    /// else it gets the next number.
    pub(crate) fn connect(
        &mut self,
        alloc: Global,
        names: Vec<ModName>,
    ) -> Result<Reply, AllocError>
        ensures { IsStep (model.connect names.items) self.old self.new result }
    {
        if are_bad(&names) {
            return Ok(Reply::Refused(Refusal::BadRoots));
        }
        if self.is_full() {
            return Ok(Reply::Refused(Refusal::TooManyClients));
        }
        let roots = self.roots_or(alloc, names)?;
        self.admit(alloc, roots)
    }

    // Whether no further client is taken.
    fn is_full(&self) -> bool
        ensures { result
            ≡ (nat_le CLIENTS (length (numbers_of self.now.clients))
            || nat_le LARGEST_CLIENT self.now.given) }
    {
        self.clients.len() >= CLIENTS || self.given >= LARGEST_CLIENT
    }

    // The roots that the client names; where it names none, the server's.
    fn roots_or(&self, alloc: Global, names: Vec<ModName>) -> Result<Vec<ModName>, AllocError>
        ensures { IfOk result (λ roots. roots.items ≡ roots_or names.items self.now.roots) }
    {
        if names.is_empty() {
            return copy_of(alloc, self.roots.as_slice());
        }
        Ok(names)
    }

    // The client gets the next number, with these roots.
    fn admit(&mut self, alloc: Global, roots: Vec<ModName>) -> Result<Reply, AllocError>
        requires { (nat_le CLIENTS (length (numbers_of self.old.clients))
            || nat_le LARGEST_CLIENT self.old.given) ≡ false }
        ensures { (names : List Name) → are_bad names ≡ false → roots.items ≡ roots_or names self.old.roots
            → IsStep (model.connect names) self.old self.new result }
    {
        let copy = copy_of(alloc, &roots)?;
        let number = self.given + 1;
        let record = ClientRecord::new(alloc, Sequence::from_vec(roots), self.versions.served_no());
        self.clients.push((number, record))?;
        self.given = number;
        let roots = Sequence::from_vec(copy);
        Ok(Reply::To(ServerMsg::Connected {
            client: number,
            roots,
        }))
    }

    /// A client goes.
    pub(crate) fn disconnect(&mut self, number: ClientId) -> Reply
        ensures { IsStep (model.disconnect number) self.old self.new (Ok result) }
    {
        if place_of(&self.clients, number).is_none() {
            return Reply::Refused(Refusal::UnknownClient);
        }
        take_out(&mut self.clients, number);
        Reply::Gone
    }
}

// Whether a client may not name these roots: they are more than 16, or two of them are equal.
fn are_bad(names: &[ModName]) -> bool
    ensures { result ≡ are_bad names.now }
{
    names.len() > ROOTS || !are_distinct(names)
}

/// Whether no two of the names are equal. It compares each with each; of roots there are at most 16.
pub(crate) fn are_distinct(names: &[ModName]) -> bool
    ensures { result ≡ are_distinct names.now }
{
    for place in 0..names.len() {
        if has_name(&names[place + 1..], &names[place]) {
            return false;
        }
    }
    true
}
