// An edit: a module gets a text, for which a job is issued, or its source is taken away.
ghost use Rattle.std.specs.Prelude.{◌≡◌, None, Some};
ghost use Rattle.std.specs.Option.{option_map};
ghost use Rattle.world_model.specs.World.{edits};
ghost use Rattle.world_laws.specs.Runs.{Run};
ghost use Rattle.hmr_world.specs.Standing.{IsStepped, StandsFor};

use crate::world::World;
use events_and_replies::Event;
use hmr_types::ModName;
use module_graph::copy_name;
use output_lines::OutLine;
use world_parts::{WorldStop, edit_line, issue, one_line, remove_line, tell};

impl<F> World<F> {
    /// A module gets a text, or its source is taken away.
    pub(crate) fn edit(
        &mut self,
        name: ModName,
        text: Option<Vec<u8>>,
    ) -> Result<Vec<OutLine>, WorldStop>
        ensures step { (run : Run) → StandsFor run self.old
            → IsStepped run (edits name (option_map (λ t. t.items) text)) self.new result }
        ensures clients { self.new.clients ≡ self.old.clients }
        ensures shelves { self.new.shelves ≡ self.old.shelves }
        ensures roots { self.new.core.roots ≡ self.old.core.roots }
    {
        match text {
            Some(text) => self.give(name, text),
            None => self.take_away(name),
        }
    }

    // A text that gets a version is a job from now on.
    fn give(&mut self, name: ModName, text: Vec<u8>) -> Result<Vec<OutLine>, WorldStop>
        ensures step { (run : Run) → StandsFor run self.old
            → IsStepped run (edits name (Some text.items)) self.new result }
        ensures clients { self.new.clients ≡ self.old.clients }
        ensures shelves { self.new.shelves ≡ self.old.shelves }
        ensures roots { self.new.core.roots ≡ self.old.core.roots }
    {
        let event = Event::Edit(copy_name(&name)?, Some(Vec::from_slice(self.alloc, &text)?));
        let reply = tell(&mut self.core, self.alloc, event)?;
        issue(&mut self.jobs, &reply, &name, text)?;
        Ok(one_line(self.alloc, edit_line(name, &reply))?)
    }

    fn take_away(&mut self, name: ModName) -> Result<Vec<OutLine>, WorldStop>
        ensures step { (run : Run) → StandsFor run self.old
            → IsStepped run (edits name None) self.new result }
        ensures clients { self.new.clients ≡ self.old.clients }
        ensures shelves { self.new.shelves ≡ self.old.shelves }
        ensures roots { self.new.core.roots ≡ self.old.core.roots }
    {
        let event = Event::Edit(copy_name(&name)?, None);
        let reply = tell(&mut self.core, self.alloc, event)?;
        Ok(one_line(self.alloc, remove_line(name, &reply))?)
    }
}
