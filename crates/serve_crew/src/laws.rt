// What follows of a job and its Out.
ghost use Rattle.serve_crew.specs.Outs.{JobOf, OutIsGood, OutOf};

use crate::job::ServeJob;
use transport::Link;

/// An Out of a job has a pass of the job's hub.
pub fn an_out_is_of_its_jobs_hub<R: Drop, L: Link + Drop, G: Drop>()
    ensures { (mark : _) (job : _) (out : _) → OutOf {R = R} {G = G} ⟦<L as Link>⟧ job out
        → JobOf ⟦<L as Link>⟧ mark job → OutIsGood ⟦<L as Link>⟧ mark out }
{}
