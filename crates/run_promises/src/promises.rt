// What is promised of every run of the world, gathered from its laws.
ghost use Rattle.world_laws.specs.Runs.{Run};
ghost use Rattle.run_promises.specs.Promises.{KeepsPromises};

use journal_laws::headline::headline;
use journal_laws::lives::{
    clients_are_isolated, others_can_be_left_out, unlinked_imports_are_at_stale_edges,
    what_happens_to_instances,
};

/// Every run of the world keeps the promises of the product.
pub fn what_is_promised_of_runs()
    ensures { (run : Run) → KeepsPromises run }
{
    headline();
    unlinked_imports_are_at_stale_edges();
    what_happens_to_instances();
    clients_are_isolated();
    others_can_be_left_out();
}
