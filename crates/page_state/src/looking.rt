// The live instance of a name.
ghost use Rattle.std.specs.Prelude.{◌≡◌};
ghost use Rattle.std.specs.Option.{option_map};
ghost use Rattle.page_state.specs.Settling.{live_in, version_in};

use crate::page::Page;
use hmr_types::{ModName, Ver};
use page_instances::{Instance, instance_at};

impl<F> Page<F> {
    /// The live instance of a name: None exactly where none is live. It takes time in proportion to the
    /// logarithm of the number of names.
    pub fn live_instance(&self, name: &ModName) -> Option<&Instance<F>>
        ensures { option_map (λ c. c.now) result ≡ live_in self.now name.now }
    {
        match self.live.get(name) {
            Some(number) => instance_at(&self.instances, number),
            None => None,
        }
    }

    /// The version of the live instance of a name, 0 where none is live.
    pub fn live_version(&self, name: &ModName) -> Ver
        ensures { result ≡ version_in (live_in self.now name.now) }
    {
        match self.live_instance(name) {
            Some(instance) => instance.version,
            None => 0,
        }
    }
}
