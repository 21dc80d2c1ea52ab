// The known names, of which some are marked. They stand in a row, the marked ones first: a name is
// marked by an exchange with the first unmarked one, and unmarked by an exchange with the last marked one.
ghost use Rattle.std.specs.Prelude.{◌≡◌, [], None, Some, IfOk, OnErr, OnOk, not, true, false};
ghost use Rattle.std.specs.Cmp.Lexicographic.{slice_cmp};
ghost use Rattle.std.specs.List.Sorted.{IsStrictlySortedBy};
ghost use Rattle.std.specs.Ordering.{nat_cmp};
ghost use Rattle.core_model.specs.Names.{Name, at, has};
ghost use Rattle.client_queue.specs.Queue.{is_none_left, mark_in, mark_where_known, marked_of};
ghost use Rattle.client_queue.specs.Row.{IsSetAt};

use crate::name_row::NameRow;
use hmr_types::ModName;
use module_graph::{copy_of, rising};
use std::alloc::{AllocError, Global};
use std::marker::Model;

/// The known names. Contracts see them as a list that rises by bytes, each with whether it is marked.
#[derive(Drop)]
pub(crate) struct KnownNames {
    row: NameRow,
    marked_count: usize,
}

impl Model for KnownNames {
    ghost use Rattle.std.specs.Prelude.{◌≤◌, Bool, List, length};
    ghost use Rattle.core_model.specs.Names.{Name};
    ghost use Rattle.client_queue.specs.Row.{IsRow, marks_of};

    ghost Value = { List (Name × Bool) };

    ghost view = { λ k. marks_of k.marked_count k.row.places.entries };

    ghost invariant = { λ k. IsRow k.row × (k.marked_count ≤ length k.row.names.items) };
}

impl KnownNames {
    /// No name is known.
    pub(crate) fn new(alloc: Global) -> KnownNames
        ensures { result ≡ [] }
    {
        KnownNames {
            row: NameRow::new(alloc),
            marked_count: 0,
        }
    }

    /// Makes a name known and unmarked; where it is known, nothing changes.
    pub(crate) fn enter(&mut self, name: ModName) -> Result<(), AllocError>
        ensures ok { OnOk result (IsSetAt name (Some (mark_in (at self.old name))) self.old self.new) }
        ensures err { OnErr result (self.new ≡ self.old) }
    {
        if self.row.place(&name).is_none() {
            self.row.push(name)?;
        }
        Ok(())
    }

    /// Makes a name unknown.
    pub(crate) fn leave(&mut self, name: &ModName)
        ensures { IsSetAt name.now None self.old self.new }
    {
        self.unmark(name);
        if let Some(place) = self.row.place(name) {
            self.row.remove(name, place);
        }
    }

    /// Marks a name, where it is known.
    pub(crate) fn mark(&mut self, name: &ModName)
        ensures { IsSetAt name.now (mark_where_known true (at self.old name.now)) self.old self.new }
    {
        if let Some(place) = self.row.place(name) {
            if place >= self.marked_count {
                self.row.exchange(place, self.marked_count);
                self.marked_count += 1;
            }
        }
    }

    /// Takes the mark of a name away.
    pub(crate) fn unmark(&mut self, name: &ModName)
        ensures { IsSetAt name.now (mark_where_known false (at self.old name.now)) self.old self.new }
    {
        if let Some(place) = self.row.place(name) {
            if place < self.marked_count {
                self.marked_count -= 1;
                self.row.exchange(place, self.marked_count);
            }
        }
    }

    /// The marked names, rising by bytes, each once.
    pub(crate) fn marked(&self, alloc: Global) -> Result<Vec<ModName>, AllocError>
        ensures names { IfOk result (λ names. (n : Name) → has names.items n ≡ mark_in (at self.now n)) }
        ensures rising { IfOk result (λ names. IsStrictlySortedBy (slice_cmp nat_cmp) names.items) }
    {
        let names = copy_of(alloc, self.row.front(self.marked_count))?;
        let sorted = rising(names)?;
        Ok(sorted)
    }

    /// Whether some name is marked.
    pub(crate) fn is_any_marked(&self) -> bool
        ensures any { result ≡ not (is_none_left (marked_of self.now)) }
        ensures marked { (n : Name) → has (marked_of self.now) n ≡ mark_in (at self.now n) }
    {
        self.marked_count > 0
    }
}
