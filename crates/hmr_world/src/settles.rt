// The result of a job: that of transforming its text.
ghost use Rattle.std.specs.Prelude.{◌≡◌};
ghost use Rattle.world_model.specs.World.{settles};
ghost use Rattle.world_laws.specs.Runs.{Run};
ghost use Rattle.hmr_world.specs.Standing.{IsRunning, IsStepped, StandsFor};

use crate::world::World;
use hmr_types::{ModName, Ver};
use output_lines::{OutLine, SettleWord};
use world_parts::{WorldStop, settle_line, settled};

impl<F> World<F> {
    /// The result comes for the job of this name and version, where there is one.
    pub(crate) fn settle(&mut self, name: ModName, version: Ver) -> Result<Vec<OutLine>, WorldStop>
        requires running { IsRunning self.old }
        ensures step { (run : Run) → StandsFor run self.old
            → IsStepped run (settles name version) self.new result }
        ensures clients { self.new.clients ≡ self.old.clients }
        ensures shelves { self.new.shelves ≡ self.old.shelves }
        ensures roots { self.new.core.roots ≡ self.old.core.roots }
    {
        let Some(text) = self.jobs.take(&name, version) else {
            return Ok(settle_line(self.alloc, name, version, SettleWord::NotIssued)?);
        };
        let outcome = settled(self.alloc, &mut self.core, &name, version, text)?;
        Ok(settle_line(self.alloc, name, version, outcome)?)
    }
}
