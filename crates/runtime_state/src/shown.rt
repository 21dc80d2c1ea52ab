// What the runtime shows of its modules.
ghost use Rattle.std.specs.Prelude.{◌≡◌, IfOk};
ghost use Rattle.client_model.specs.Past.{Past, runtime_after};
ghost use Rattle.client_model.specs.Printing.{table};
ghost use Rattle.client_model.specs.Runtime.{Opening};
ghost use Rattle.module_language.specs.ModuleLanguage.{module_language};
ghost use Rattle.runtime_state.specs.Standing.{StandsFor};

use crate::runtime::HotRuntime;
use client_plan::table_of;
use hmr_types::Table;
use std::alloc::AllocError;

impl<F> HotRuntime<F> {
    /// The modules of the page with their versions, rising by name. It takes time in proportion to the
    /// modules. A view that is no table, which no message that can be written brings about, is answered as
    /// out of memory is.
    pub fn table(&self) -> Result<Table, AllocError>
        ensures { (opening : Opening) (past : Past) → StandsFor opening past self.now
            → IfOk result (λ shown. shown ≡ table (runtime_after module_language opening past)) }
    {
        table_of(self.allocator(), &self.view)
    }
}
