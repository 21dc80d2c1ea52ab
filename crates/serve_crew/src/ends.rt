// What is read off the end of a job, and how the end of a connection is given back that no job has.
ghost use Rattle.std.specs.Prelude.{◌≡◌, ◌-◌};
ghost use Rattle.serve_crew.specs.Ends.{found_full, is_faulty, lacked_memory};

use crate::job::ServeOut;
use sessions::Ended;
use transport::{Link, Net};
use update_msgs::HubStop;

// Whether there was no memory for a job, or for telling the hub that its client is gone.
pub(crate) fn lacked_memory<R: Drop, L>(out: &ServeOut<R, L>) -> bool
    ensures { result ≡ lacked_memory out.now }
{
    match out {
        ServeOut::Worker(_, ended) => matches!(ended, Some(Err(HubStop::NoMemory))),
        ServeOut::Session(desk, _, ended) => {
            desk.wants_memory() || matches!(ended, Some(Ended::NoMemory))
        }
    }
}

// Whether the hub answered a job that its transcript is full.
pub(crate) fn found_full<R: Drop, L>(out: &ServeOut<R, L>) -> bool
    ensures { result ≡ found_full out.now }
{
    match out {
        ServeOut::Worker(board, _) => board.is_full(),
        ServeOut::Session(desk, _, _) => desk.is_full(),
    }
}

// Whether a job was given up, or its link failed.
pub(crate) fn is_faulty<R: Drop, L>(out: &ServeOut<R, L>) -> bool
    ensures { result ≡ is_faulty out.now }
{
    match out {
        ServeOut::Worker(_, ended) => ended.is_none(),
        ServeOut::Session(_, _, ended) => matches!(ended, None | Some(Ended::LinkFault)),
    }
}

// Closes an end of a connection that has no partner or no job, and gives it back to the net. It takes no
// memory.
pub(crate) fn hang_up<N: Net>(net: &mut N, mut end: N::End)
    requires clean { N.End.faults end ≡ 0 }
    ensures faults { N.faults net.new ≡ N.faults net.old }
    ensures asked { (N.asked net.new ≡ N.asked net.old) × (N.heard net.new ≡ N.heard net.old) }
    ensures lent { N.lent net.new ≡ N.lent net.old - 1 }
    ensures unasked { (N.refused net.new ≡ N.refused net.old) × (N.late net.new ≡ N.late net.old) }
{
    end.close();
    net.retire(end);
}
