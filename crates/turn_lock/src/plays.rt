// The steps of the lock that change a word of its table, with what each tells, and how a view is split and
// two are joined. No value of these types is made when the program runs.
ghost use Rattle.turn_lock.specs.Steps.{Counts, Meets, Numbers, Releases, Seizes};
ghost use Rattle.turn_lock.specs.Views.{joined, new_half, old_half, spent_view};

use crate::keeps::Keeps;
use crate::view::View;
use atomic_table::{Join, Play, Split};
use std::marker::PhantomData;

// The turn is taken where nobody has it.
pub(crate) struct Seize<T> {
    marker: PhantomData<T>,
}

impl<T: Keeps> Play<Option<T>, View<T, T::Entry>> for Seize<T> {
    ghost then = { Seizes T.history T.may T.follows };
}

// The entry of a call is one of the history.
pub(crate) struct Count<T> {
    marker: PhantomData<T>,
}

impl<T: Keeps> Play<Option<T>, View<T, T::Entry>> for Count<T> {
    ghost then = { Counts T.history T.may T.follows };
}

// The turn is given up.
pub(crate) struct Release<T> {
    marker: PhantomData<T>,
}

impl<T: Keeps> Play<Option<T>, View<T, T::Entry>> for Release<T> {
    ghost then = { Releases T.history T.may T.follows };
}

// A number is given.
pub(crate) struct Number<T> {
    marker: PhantomData<T>,
}

impl<T: Keeps> Play<Option<T>, View<T, T::Entry>> for Number<T> {
    ghost then = { Numbers };
}

// What two joined passes had seen is told.
pub(crate) struct Meet<T> {
    marker: PhantomData<T>,
}

impl<T: Keeps> Play<Option<T>, View<T, T::Entry>> for Meet<T> {
    ghost then = { Meets T.history T.may T.follows };
}

// A pass is split in two.
pub(crate) struct Halves;

impl<T, E> Split<View<T, E>> for Halves {
    ghost left = { old_half };

    ghost right = { new_half };
}

// Two passes are joined into one.
pub(crate) struct Both;

impl<T, E> Join<View<T, E>> for Both {
    ghost both = { joined };

    ghost spent = { spent_view };
}
