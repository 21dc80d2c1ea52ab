// What is done with a lock: it is made, called in turn by passes, and passes are split and joined.
ghost use Rattle.std.specs.Prelude.{◌≡◌, ◌<◌, ◌↔◌, ◌∷◌, [], ◌+◌};
ghost use Rattle.std.specs.Prelude.{All, IfErr, IfNone, IfOk, IfSome, IsErrOf, None, Some, false, true};
ghost use Rattle.turn_lock.specs.Calls.{Called, IsFresh, Joined, SameKnower, SameSeen};
ghost use Rattle.turn_lock.specs.Passes.{IsPassOf, pass_number, pass_view};
ghost use Rattle.turn_lock.specs.Steps.{Grew, IsGiven, IsIdle, Settled, Took};
ghost use Rattle.turn_lock.specs.Views.{counted, filled, first_view, most_numbers, new_half, numbered};

use crate::keeps::Keeps;
use crate::pass::{Pass, SplitFault, TurnLock};
use crate::plays::{Both, Count, Halves, Meet, Number, Release, Seize};
use crate::view::View;
use atomic_table::{Refused, Seat, Table};
use std::alloc::{AllocError, Global};
use std::snapshot::Snapshot;
use std::sync::Wait;
use std::thread;

impl<T, E> Pass<T, E> {
    /// The number of the pass: 0 of the one that [`TurnLock::new`] gives, from 1 of those split off, each
    /// given once.
    pub fn number(&self) -> u64
        ensures number { result ≡ pass_number self.now }
        ensures view { (pass_view self.now).number ≡ Some result }
    {
        self.number
    }
}

impl<T: Keeps> TurnLock<T> {
    /// A lock round a value whose history is empty, and its first pass, which is alone until it is split. It
    /// fails only where memory runs out.
    pub fn new(alloc: Global, value: T) -> Result<(TurnLock<T>, Pass<T, T::Entry>), AllocError>
        requires empty { T.history value ≡ [] }
        requires follows { T.follows value value }
        ensures pass { IfOk result (λ r. IsPassOf r.0 r.1) }
        ensures view { IfOk result (λ r. pass_view r.1 ≡ first_view value) }
        ensures number { IfOk result (λ r. pass_number r.1 ≡ 0) }
    {
        let mut slots = Vec::with_capacity(alloc, 1)?;
        let opening = Snapshot::of(&value);
        slots.push_reserved(Some(value));
        match Table::new(alloc, &[0, 1], slots, &opening) {
            Ok((table, seat)) => Ok((TurnLock { table }, Pass { seat, number: 0 })),
            Err(Refused { slots: _ }) => Err(AllocError),
        }
    }

    // Waits for the turn. While another pass has it, the thread gives the processor up and asks again.
    fn seize<R: Wait>(&self, rt: &R, seat: &mut Seat<Option<T>, View<T, T::Entry>>, number: u64)
        requires table { seat.old.table_id ≡ self.now.table.shared.table_id }
        requires idle { IsIdle number seat.old.me }
        ensures table { seat.new.table_id ≡ seat.old.table_id }
        ensures took { Took T.history T.may T.follows seat.old.me seat.new.me }
    {
        for _ in rt.forever() {
            if self
                .table
                .shared
                .compare_exchange::<Seize<T>>(seat, 0, 0, 1)
                == 0
            {
                return;
            }
            thread::yield_now();
        }
        unreachable!()
    }

    // Takes the value out of its slot.
    fn take(&self, seat: &mut Seat<Option<T>, View<T, T::Entry>>) -> T
        requires table { seat.old.table_id ≡ self.now.table.shared.table_id }
        requires held { (value : T) × (seat.old.me.1 ≡ (0, Some value) ∷ []) }
        ensures table { seat.new.table_id ≡ seat.old.table_id }
        ensures value { seat.old.me.1 ≡ (0, Some result) ∷ [] }
        ensures seat { seat.new.me ≡ (seat.old.me.0, (0, None) ∷ []) }
    {
        self.table.shared.exchange(seat, 0, None).unwrap()
    }

    // Puts the value back into its slot.
    fn give(&self, seat: &mut Seat<Option<T>, View<T, T::Entry>>, value: T)
        requires table { seat.old.table_id ≡ self.now.table.shared.table_id }
        requires out { seat.old.me.1 ≡ (0, None) ∷ [] }
        ensures table { seat.new.table_id ≡ seat.old.table_id }
        ensures seat { seat.new.me ≡ (seat.old.me.0, (0, Some value) ∷ []) }
    {
        drop(self.table.shared.exchange(seat, 0, Some(value)));
    }

    // What the call recorded is now part of the history.
    fn count(&self, seat: &mut Seat<Option<T>, View<T, T::Entry>>, by: u64, recorded: bool)
        requires table { seat.old.table_id ≡ self.now.table.shared.table_id }
        requires grew { Grew T.history T.may T.follows by recorded seat.old.me }
        requires plain { seat.old.me.0 ≡ counted seat.old.me.0 seat.old.me.0.seen }
        ensures table { seat.new.table_id ≡ seat.old.table_id }
        ensures seat { Settled T.history T.may T.follows seat.old.me seat.new.me }
    {
        if recorded {
            self.table.shared.store::<Count<T>>(seat, 0, 1);
        }
    }

    /// The value's reply to an entry, by a pass of this lock that may make it. It waits for the turn. The
    /// history that the call leaves begins with all that the pass had seen; past that it has no entry under
    /// a number that the pass knows, but this one at its end, where the value recorded it. A pass that is
    /// alone has seen all that there is before. Each entry of the history is one that its pass may make.
    pub fn call<R: Wait>(&self, rt: &R, pass: &mut Pass<T, T::Entry>, entry: T::Entry) -> T::Reply
        requires pass { IsPassOf self.now pass.old }
        requires may { T.may (pass_number pass.old) entry ≡ true }
        ensures pass { IsPassOf self.now pass.new }
        ensures called { Called T.answers (pass_number pass.old) entry result
            (pass_view pass.old) (pass_view pass.new) }
        ensures same { SameKnower (pass_view pass.old) (pass_view pass.new) }
        ensures number { pass_number pass.new ≡ pass_number pass.old }
        ensures allowed { All (λ e. T.may e.0 e.1 ≡ true) (pass_view pass.new).seen }
    {
        let by = pass.number;
        let seat = &mut pass.seat;
        self.seize(rt, seat, by);
        let mut value = self.take(seat);
        let (reply, recorded) = value.apply(by, entry);
        self.give(seat, value);
        self.count(seat, by, recorded);
        self.table.shared.store::<Release<T>>(seat, 0, 0);
        reply
    }

    // The next number, for a pass to be split off, or None where all were given, which the seat then knows.
    fn give_number<R: Wait>(
        &self,
        rt: &R,
        seat: &mut Seat<Option<T>, View<T, T::Entry>>,
    ) -> Option<u64>
        requires table { seat.old.table_id ≡ self.now.table.shared.table_id }
        requires idle { seat.old.me.0.holds ≡ false }
        ensures table { seat.new.table_id ≡ seat.old.table_id }
        ensures range { IfSome result (λ n. (0 < n) × (n < most_numbers)) }
        ensures given { IfSome result (IsGiven seat.old.me.0) }
        ensures left { IfSome result (λ n. seat.old.me.0.all_given ≡ false) }
        ensures some { IfSome result (λ n. seat.new.me ≡ (numbered seat.old.me.0 n, seat.old.me.1)) }
        ensures none { IfNone result (seat.new.me ≡ (filled seat.old.me.0, seat.old.me.1)) }
    {
        let mut made = 1;
        for _ in rt.forever() {
            let found = self
                .table
                .shared
                .compare_exchange::<Number<T>>(seat, 1, made, made + 1);
            if found == made {
                return Some(made);
            }
            if found == u64::MAX {
                return None;
            }
            made = found;
        }
        unreachable!()
    }

    /// Splits a pass of this lock off another: it has seen as much, and has a number of its own, which
    /// nobody had before: it is above each number that the pass, or one that was joined into it, knows or
    /// gave in an earlier split, and no entry that was seen is under it. [`SplitFault::Spent`] comes exactly
    /// where all numbers were given; the pass knows that then, and is answered so again. It waits only while
    /// other splits come between.
    pub fn split<R: Wait>(
        &self,
        rt: &R,
        pass: &mut Pass<T, T::Entry>,
    ) -> Result<Pass<T, T::Entry>, SplitFault>
        requires { IsPassOf self.now pass.old }
        ensures pass { IsPassOf self.now pass.new }
        ensures new { IfOk result (λ p. IsPassOf self.now p) }
        ensures number { pass_number pass.new ≡ pass_number pass.old }
        ensures same { SameSeen (pass_view pass.old) (pass_view pass.new) }
        ensures told { IfOk result
            (λ p. pass_view p ≡ new_half (numbered (pass_view pass.old) (pass_number p))) }
        ensures fresh { IfOk result (λ p. IsFresh (pass_view pass.old) (pass_number p)) }
        ensures given { IfOk result (λ p. (pass_view pass.new).given ≡ pass_number p + 1) }
        ensures range { IfOk result (λ p. (0 < pass_number p) × (pass_number p < most_numbers)) }
        ensures spent { IsErrOf result SplitFault.Spent ↔ ((pass_view pass.new).all_given ≡ true) }
        ensures again { (pass_view pass.old).all_given ≡ true → IsErrOf result SplitFault.Spent }
    {
        match self.give_number(rt, &mut pass.seat) {
            Some(number) => {
                let seat = self.table.shared.split_seat::<Halves>(&mut pass.seat);
                Ok(Pass { seat, number })
            }
            None => Err(SplitFault::Spent),
        }
    }

    /// Joins another pass of this lock into a pass. The history that one of them has seen begins the
    /// other's; the longer stays. The pass that remains knows the numbers of both, and past what either had
    /// seen the history has no entry under a number which that one knew: so it has all their entries, each
    /// once. A pass that is split off it later has a number above all that either knew or gave. It doesn't
    /// wait.
    pub fn join(&self, into: &mut Pass<T, T::Entry>, other: Pass<T, T::Entry>)
        requires into { IsPassOf self.now into.old }
        requires other { IsPassOf self.now other }
        ensures pass { IsPassOf self.now into.new }
        ensures number { pass_number into.new ≡ pass_number into.old }
        ensures joined { Joined (pass_view into.old) (pass_view other) (pass_view into.new) }
        ensures allowed { All (λ e. T.may e.0 e.1 ≡ true) (pass_view into.new).seen }
    {
        let Pass { seat, number: _ } = other;
        let shared = &self.table.shared;
        shared.join_seat::<Both>(&mut into.seat, seat);
        // Joining tells nothing of the two but what the rule has of them: a second load asks for it.
        shared.load::<Meet<T>>(&mut into.seat, 0);
    }
}
