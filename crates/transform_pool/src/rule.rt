// The rule of a queue, and what each of its steps tells. No value of these types is made.
use crate::item::{Item, Role};
use crossbeam_queue::protocol::{Lesson, Outcome, Protocol, Split};

// No job stands behind an end mark; while the putting pass is not closed, no end mark is in the queue and no
// pass has ended; where a pass has ended, no job is in the queue.
pub(crate) struct QueueRule;

impl Protocol<Item, Role> for QueueRule {
    ghost use Rattle.transform_pool.specs.Rule.{Ruled};
    ghost use Rattle.transform_pool.specs.Roles.{putting};

    ghost holds = { Ruled };

    ghost first = { putting };
}

// A job joins at the back.
pub(crate) struct PutsJob;

impl Outcome<Item, Role> for PutsJob {
    ghost use Rattle.transform_pool.specs.Roles.{PutsJob};

    ghost then = { PutsJob };
}

impl Lesson<Item, Role> for PutsJob {
    ghost use Rattle.transform_pool.specs.Rule.{IsLastPut};

    ghost fact = { λ v items. IsLastPut v.put items };
}

// An end mark joins at the back, and the queue is closed.
pub(crate) struct PutsMark;

impl Outcome<Item, Role> for PutsMark {
    ghost use Rattle.std.specs.Prelude.{◌≡◌};
    ghost use Rattle.transform_pool.specs.Roles.{marked};

    ghost then = { λ v x w. w ≡ marked v };
}

impl Lesson<Item, Role> for PutsMark {
    ghost use Rattle.transform_pool.specs.Rule.{IsLastOf};

    ghost fact = { λ v items. IsLastOf v.put items };
}

// The pass that puts takes an item back, and the queue is closed.
pub(crate) struct TakesBack;

impl Outcome<Item, Role> for TakesBack {
    ghost use Rattle.transform_pool.specs.Roles.{TakesBack};

    ghost then = { TakesBack };
}

impl Lesson<Item, Role> for TakesBack {
    ghost use Rattle.std.specs.Prelude.{⊤};

    ghost fact = { λ v items. ⊤ };
}

// A pass takes the item at the front.
pub(crate) struct Takes;

impl Outcome<Item, Role> for Takes {
    ghost use Rattle.std.specs.Prelude.{◌≡◌};
    ghost use Rattle.transform_pool.specs.Roles.{taken};

    ghost then = { λ v x w. w ≡ taken v x };
}

impl Lesson<Item, Role> for Takes {
    ghost use Rattle.std.specs.Prelude.{⊤};

    ghost fact = { λ v items. ⊤ };
}

// A pass that takes is made beside the one that puts.
pub(crate) struct Taker;

impl Split<Role> for Taker {
    ghost use Rattle.transform_pool.specs.Roles.{taking};

    ghost left = { λ v. v };

    ghost right = { λ v. taking };
}
