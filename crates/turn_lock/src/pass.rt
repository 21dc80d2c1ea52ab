// The lock and its passes, as types.
ghost use Rattle.std.specs.Prelude.{◌≡◌};
ghost use Rattle.turn_lock.specs.Rule.{IsLock};
ghost use Rattle.turn_lock.specs.Steps.{IsIdle};
ghost use Rattle.turn_lock.specs.Views.{first_view};

use crate::keeps::Keeps;
use crate::view::View;
use atomic_table::{Seat, Table, TableRule};
use std::alloc::Global;
use std::marker::PhantomData;
use std::snapshot::Snapshot;

// The rule that ties the words of the table to what its seats know.
pub(crate) struct LockRule<T> {
    marker: PhantomData<T>,
}

impl<T: Keeps> TableRule<Option<T>, View<T, T::Entry>, Snapshot<T>> for LockRule<T> {
    ghost holds = { λ _. IsLock T.history T.may T.follows };

    ghost first = { λ k. first_view k.value };
}

/// A lock round a value that keeps a history. Threads share it by reference, and each calls it by a
/// [`Pass`] of its own.
#[derive(Drop)]
pub struct TurnLock<T: Keeps> {
    pub(crate) table: Table<Option<T>, View<T, T::Entry>, Snapshot<T>, LockRule<T>, Global>,
    ghost sized: { (table.shared.table_id.words ≡ 2) × (table.shared.table_id.slots ≡ 1) },
}

/// What one caller of a lock has seen of its history, under a number of its own. A pass belongs to the lock
/// that it came from.
#[derive(Drop)]
pub struct Pass<T, E> {
    pub(crate) seat: Seat<Option<T>, View<T, E>>,
    pub(crate) number: u64,
    ghost idle: { IsIdle number seat.me },
}

/// Why no pass was split off.
#[derive(Debug, Drop)]
pub enum SplitFault {
    /// All 18,446,744,073,709,551,615 numbers were given.
    Spent,
}
