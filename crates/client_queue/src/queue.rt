// What the server has in store for a client: the names that it knows, of which some are marked, the
// forced names, the waiting notices and the hold.
ghost use Rattle.std.specs.Prelude.{◌≡◌, ◌≤◌, []};
ghost use Rattle.std.specs.Prelude.{None, Some, IfOk, IsOk, OnOk, OnErr, drop, filter, not, true, false};
ghost use Rattle.std.specs.Cmp.Lexicographic.{slice_cmp};
ghost use Rattle.std.specs.List.Sorted.{IsStrictlySortedBy};
ghost use Rattle.std.specs.Ordering.{nat_cmp};
ghost use Rattle.core_model.specs.Names.{Name, at, first_of, has, names_of, put_name, same_name, without};
ghost use Rattle.client_queue.specs.Queue.{MarkIs, is_clear, is_marked, mark_where_known};
ghost use Rattle.client_queue.specs.Queue.{marked_of, put_row};

use crate::known::KnownNames;
use crate::sorted::{first, put_name, put_row, without_name, without_row};
use hmr_types::{ModName, TextFault};
use module_graph::copy_of;
use std::alloc::{AllocError, Global};
use std::marker::Model;

/// What the server has in store for a client. Contracts see it as a record: the known names, each with
/// whether it is marked, the forced names and the waiting notices, all rising by bytes, the hold, and
/// `spare`, for how many more notices there is room.
#[derive(Drop)]
pub struct ClientQueue {
    known: KnownNames,
    forced: Vec<ModName>,
    notices: Vec<(ModName, TextFault)>,
    held: Option<u64>,
}

impl Model for ClientQueue {
    ghost use Rattle.std.specs.Prelude.{◌-◌, vec_len, vec_capacity};
    ghost use Rattle.std.specs.Cmp.Lexicographic.{slice_cmp};
    ghost use Rattle.std.specs.List.Sorted.{IsStrictlySortedBy};
    ghost use Rattle.std.specs.Ordering.{nat_cmp};
    ghost use Rattle.core_model.specs.Names.{names_of};
    ghost use Rattle.client_queue.specs.Queue.{Queue};

    ghost Value = { Queue };

    ghost view = { λ q.
        record {
          known = q.known;
          forced = q.forced.items;
          notices = q.notices.items;
          held = q.held;
          spare = vec_capacity q.notices - vec_len q.notices;
        } };

    ghost invariant = { λ q. IsStrictlySortedBy (slice_cmp nat_cmp) q.forced.items
        × IsStrictlySortedBy (slice_cmp nat_cmp) (names_of q.notices.items) };
}

impl ClientQueue {
    /// No name is known, and nothing is in store.
    pub fn new(alloc: Global) -> ClientQueue
        ensures known { result.known ≡ [] }
        ensures forced { result.forced ≡ [] }
        ensures notices { result.notices ≡ [] }
        ensures held { result.held ≡ None }
    {
        ClientQueue {
            known: KnownNames::new(alloc),
            forced: Vec::new(alloc),
            notices: Vec::new(alloc),
            held: None,
        }
    }

    /// The name is known from now on, and unmarked; where it is known, nothing changes. A refusal changes
    /// nothing. It takes the time of a few look-ups among the known names, in proportion to the logarithm
    /// of their number, and so do `leave`, `mark` and `unmark`.
    pub fn enter(&mut self, name: ModName) -> Result<(), AllocError>
        ensures ok { OnOk result (MarkIs name (Some (is_marked self.old name)) self.old self.new) }
        ensures err { OnErr result (self.new ≡ self.old) }
        ensures kept { self.new ≡ record self.old { known = self.new.known } }
    {
        self.known.enter(name)
    }

    /// The name is known no more.
    pub fn leave(&mut self, name: &ModName)
        ensures mark { MarkIs name.now None self.old self.new }
        ensures kept { self.new ≡ record self.old { known = self.new.known } }
    {
        self.known.leave(name);
    }

    /// The name is marked from now on, where it is known; else nothing changes.
    pub fn mark(&mut self, name: &ModName)
        ensures mark { MarkIs name.now
            (mark_where_known true (at self.old.known name.now)) self.old self.new }
        ensures kept { self.new ≡ record self.old { known = self.new.known } }
    {
        self.known.mark(name);
    }

    /// The name is marked no more.
    pub fn unmark(&mut self, name: &ModName)
        ensures mark { MarkIs name.now
            (mark_where_known false (at self.old.known name.now)) self.old self.new }
        ensures kept { self.new ≡ record self.old { known = self.new.known } }
    {
        self.known.unmark(name);
    }

    /// The marked names, rising by bytes, each once. It takes the time of sorting them, however many are
    /// known.
    pub fn marked(&self, alloc: Global) -> Result<Vec<ModName>, AllocError>
        ensures names { IfOk result (λ names. (n : Name) → has names.items n ≡ is_marked self.now n) }
        ensures rising { IfOk result (λ names. IsStrictlySortedBy (slice_cmp nat_cmp) names.items) }
    {
        let names = self.known.marked(alloc)?;
        Ok(names)
    }

    /// Whether nothing is marked, forced or waiting as a notice. It takes the same time whatever is
    /// known.
    pub fn is_clear(&self) -> bool
        ensures clear { result ≡ is_clear self.now }
        ensures marked { (n : Name) → has (marked_of self.now.known) n ≡ is_marked self.now n }
    {
        let any_marked = self.known.is_any_marked();
        self.forced.is_empty() && self.notices.is_empty() && !any_marked
    }

    /// The name is forced from now on. A refusal changes nothing.
    pub fn force(&mut self, name: ModName) -> Result<(), AllocError>
        ensures ok { OnOk result (self.new ≡ record self.old { forced = put_name name self.old.forced }) }
        ensures err { OnErr result (self.new ≡ self.old) }
    {
        put_name(&mut self.forced, name)
    }

    /// The name is forced no more.
    pub fn unforce(&mut self, name: &ModName)
        ensures { self.new
            ≡ record self.old { forced = filter (λ m. not (same_name m name.now)) self.old.forced } }
    {
        without_name(&mut self.forced, name);
    }

    /// No name is forced any more. It takes time in proportion to the forced names.
    pub fn unforce_all(&mut self)
        ensures { self.new ≡ record self.old { forced = [] } }
    {
        self.forced.clear();
    }

    /// The forced names, rising by bytes, each once.
    pub fn forced(&self, alloc: Global) -> Result<Vec<ModName>, AllocError>
        ensures names { IfOk result (λ names. names.items ≡ self.now.forced) }
        ensures rising { IsStrictlySortedBy (slice_cmp nat_cmp) self.now.forced }
    {
        copy_of(alloc, &self.forced)
    }

    /// A fault of this module waits to be told, in place of an earlier one. With `spare` at least 1 it
    /// isn't refused. A refusal changes nothing.
    pub fn notice(&mut self, name: ModName, fault: TextFault) -> Result<(), AllocError>
        ensures ok { OnOk result
            (self.new
            ≡ record self.old { notices = put_row name fault self.old.notices; spare = self.new.spare }) }
        ensures err { OnErr result (self.new ≡ record self.old { spare = self.new.spare }) }
        ensures room { 1 ≤ self.old.spare → IsOk result }
    {
        put_row(&mut self.notices, name, fault)
    }

    /// No fault of this module waits to be told.
    pub fn drop_notice(&mut self, name: &ModName)
        ensures { self.new
            ≡ record self.old { notices = without name.now self.old.notices; spare = self.new.spare } }
    {
        without_row(&mut self.notices, name);
    }

    /// Takes the waiting fault of the least name.
    pub fn next_notice(&mut self) -> Option<(ModName, TextFault)>
        ensures notice { result ≡ first_of self.old.notices }
        ensures left { self.new
            ≡ record self.old { notices = drop 1 self.old.notices; spare = self.new.spare } }
        ensures rising { IsStrictlySortedBy (slice_cmp nat_cmp) (names_of self.old.notices) }
    {
        first(&mut self.notices)
    }

    /// Makes `spare` at least 1, so that the next notice isn't refused. It changes nothing else.
    pub fn room(&mut self) -> Result<(), AllocError>
        ensures ok { OnOk result (1 ≤ self.new.spare) }
        ensures kept { self.new ≡ record self.old { spare = self.new.spare } }
    {
        self.notices.reserve(1)
    }

    /// The client gave a plan up that began at this count.
    pub fn hold(&mut self, at: u64)
        ensures { self.new ≡ record self.old { held = Some at } }
    {
        self.held = Some(at);
    }

    /// The client isn't held any more.
    pub fn release(&mut self)
        ensures { self.new ≡ record self.old { held = None } }
    {
        self.held = None;
    }

    /// The count at which the plan began that the client gave up last.
    pub fn held(&self) -> Option<u64>
        ensures { result ≡ self.now.held }
    {
        self.held
    }
}
