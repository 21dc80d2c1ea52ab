// What a change of the sources is to a client: a module's fault waits to be told, until the module is
// served anew or removed.
ghost use Rattle.std.specs.Prelude.{◌≡◌, ◌≤◌, OnOk};
ghost use Rattle.core_model.specs.Client.{Client, with_notice, without_notice};
ghost use Rattle.core_model.specs.Sources.{Sources};
ghost use Rattle.client_records.specs.Record.{IsRecord, SameBut};

use crate::client_record::ClientRecord;
use hmr_types::{ModName, TextFault};
use page_marks::{differs, set_mark};
use std::alloc::AllocError;
use version_map::VersionMap;

impl ClientRecord {
    /// The module has just been served anew or removed; `sources` is as it is after that. The module is
    /// marked where its version on the page isn't the served one, and its notice is taken away.
    pub fn source_changed(&mut self, sources: &VersionMap, name: &ModName)
        ensures { (s : Sources) (c : Client) → IsRecord s c self.old → SameBut name.now s sources.now
            → IsRecord sources.now (without_notice name.now c) self.new }
    {
        let differs = differs(&self.view, sources, name);
        set_mark(&mut self.queue, name, differs);
        self.queue.drop_notice(name);
    }

    /// Makes room for a notice, so that the next one can be given. It changes nothing else, and a
    /// refusal changes nothing.
    pub fn room_for_notice(&mut self) -> Result<(), AllocError>
        ensures room { OnOk result (1 ≤ self.new.queue.spare) }
        ensures kept { self.new
            ≡ record self.old { queue = record self.old.queue { spare = self.new.queue.spare } } }
        ensures stands { (s : Sources) (c : Client) → IsRecord s c self.old → IsRecord s c self.new }
    {
        self.queue.room()
    }

    /// This fault of the module waits to be told, in place of an earlier one.
    pub fn notice(&mut self, name: ModName, fault: TextFault)
        requires { 1 ≤ self.old.queue.spare }
        ensures { (s : Sources) (c : Client) → IsRecord s c self.old
            → IsRecord s (with_notice name fault c) self.new }
    {
        // There is room, so that it isn't refused.
        self.queue.notice(name, fault).unwrap();
    }
}
