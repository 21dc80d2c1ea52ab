// How what a worker or a session leaves is taken in.
ghost use Rattle.std.specs.Prelude.{◌≡◌, ◌≤◌, ◌<◌, ◌-◌, ◌∷◌, []};
ghost use Rattle.std.specs.Prelude.{true, vec_capacity, vec_len};
ghost use Rattle.hmr_base.specs.Causes.{Rose};
ghost use Rattle.crew_plans.specs.Gathers.{Added, TakenIn};
ghost use Rattle.serve_crew.specs.Ends.{IsDone, ends_back, found_full, has_link_fault};
ghost use Rattle.serve_crew.specs.Ends.{is_faulty, lacked_memory, pass_in};

use crate::ends::{found_full, is_faulty, lacked_memory};
use crate::job::ServeOut;
use crew_plans::Gathered;
use transport::{Link, Net};

// Takes in what a worker or a session leaves, and gives the end of its connection back to the net.
pub(crate) fn take_in<R: Drop, N: Net>(
    gathered: &mut Gathered,
    net: &mut N,
    out: ServeOut<R, N::End>,
)
where
    N::End: Drop,
    requires done { IsDone ⟦<N::End as Link>⟧ out }
    requires room { vec_len gathered.old.passes < vec_capacity gathered.old.passes }
    ensures taken { TakenIn (pass_in out ∷ []) [] (lacked_memory out) (found_full out) (is_faulty out)
        gathered.old gathered.new }
    ensures logs { gathered.new.logs ≡ gathered.old.logs }
    ensures later { N.faults net.old ≤ N.faults net.new }
    ensures rose { has_link_fault out ≡ true → Rose (N.faults net.old) (N.faults net.new) }
    ensures asked { (N.asked net.new ≡ N.asked net.old) × (N.heard net.new ≡ N.heard net.old) }
    ensures lent { N.lent net.new ≡ N.lent net.old - ends_back out }
    ensures unasked { (N.refused net.new ≡ N.refused net.old) × (N.late net.new ≡ N.late net.old) }
{
    gathered.note(lacked_memory(&out), found_full(&out), is_faulty(&out));
    match out {
        ServeOut::Worker(board, _ended) => gathered.passes.push_reserved(board.into_pass()),
        ServeOut::Session(desk, link, _ended) => {
            net.retire(link);
            gathered.passes.push_reserved(desk.into_pass());
        }
    }
}
