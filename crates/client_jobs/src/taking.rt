// How what a client leaves is taken in.
ghost use Rattle.std.specs.Prelude.{◌≡◌, ◌≤◌, ◌<◌, ◌≢◌, ◌-◌, ◌∷◌, [], false, vec_capacity, vec_len};
ghost use Rattle.hmr_base.specs.Causes.{Rose};
ghost use Rattle.transport.specs.declared.link.Phase.{Phase};
ghost use Rattle.client_jobs.specs.ClientEnds.{IsClientEnd, ending_of};
ghost use Rattle.crew_plans.specs.Endings.{ended_for_memory, is_faulty_end};
ghost use Rattle.crew_plans.specs.Gathers.{Added, TakenIn};
ghost use Rattle.crew_plans.specs.Hubs.{Log};

use crate::client::ClientEnd;
use crew_plans::{Gathered, Log};
use output_lines::OutLine;
use sessions::Ended;
use transport::{Link, Net};

// Takes in what a client leaves, for which there is room, and gives the end of its connection back to the net.
pub(crate) fn take_client<N: Net>(gathered: &mut Gathered, net: &mut N, end: ClientEnd<N::End>)
where
    N::End: Drop,
    requires shut { N.End.phase end.link ≡ Phase.Shut }
    requires room { vec_len gathered.old.logs < vec_capacity gathered.old.logs }
    ensures taken { TakenIn [] (record { client = end.client; session = end.told } ∷ [])
        (ended_for_memory (ending_of end.told)) false (is_faulty_end (ending_of end.told))
        gathered.old gathered.new }
    ensures passes { gathered.new.passes ≡ gathered.old.passes }
    ensures later { N.faults net.old ≤ N.faults net.new }
    ensures rose { N.End.faults end.link ≢ 0 → Rose (N.faults net.old) (N.faults net.new) }
    ensures asked { (N.asked net.new ≡ N.asked net.old) × (N.heard net.new ≡ N.heard net.old) }
    ensures lent { N.lent net.new ≡ N.lent net.old - 1 }
    ensures unasked { (N.refused net.new ≡ N.refused net.old) × (N.late net.new ≡ N.late net.old) }
{
    let ClientEnd { client, link, told } = end;
    gathered.note(client_lacked_memory(&told), false, client_is_faulty(&told));
    net.retire(link);
    gathered.logs.push_reserved(Log {
        client,
        session: told,
    });
}

// Whether a client ended since there was no memory.
fn client_lacked_memory(told: &Option<(Ended, Vec<OutLine>)>) -> bool
    ensures { result ≡ ended_for_memory (ending_of told.now) }
{
    matches!(told, Some((Ended::NoMemory, _)))
}

// Whether a client was given up, or its link failed.
fn client_is_faulty(told: &Option<(Ended, Vec<OutLine>)>) -> bool
    ensures { result ≡ is_faulty_end (ending_of told.now) }
{
    matches!(told, None | Some((Ended::LinkFault, _)))
}
