// What a server sets up before its jobs are begun: its hub and the first pass, and the line of its port.
ghost use Rattle.std.specs.Prelude.{◌≡◌, ◌≤◌, ◌⊎◌, IfErr, IfOk, IsErrOf, OnOk};
ghost use Rattle.std.specs.Arc.{arc_value};
ghost use Rattle.std.specs.Io.KnownBytes.{Appends};
ghost use Rattle.hmr_base.specs.Causes.{Rose};
ghost use Rattle.hmr_base.specs.Fronts.{WritesFront};
ghost use Rattle.core_model.specs.Roots.{AreRoots};
ghost use Rattle.hmr_hub.specs.Calls.{IsFirst};
ghost use Rattle.hmr_hub.specs.Passes.{HasTranscript, IsPassOf};
ghost use Rattle.folder_edits.specs.Serving.{header};

use crate::stop::ServeStop;
use hmr_base::{Sink, write_all};
use hmr_hub::{Hub, HubFault, Pass};
use hmr_types::ModName;
use module_graph::copy_of;
use std::alloc::Global;
use std::sync::Arc;

/// The hub of a server, once for its own thread and once for its crew.
#[derive(Drop)]
pub struct SharedHub {
    /// The names of the roots.
    pub roots: Vec<ModName>,
    /// The hub, as its own thread has it.
    pub own: Arc<Hub, Global>,
    /// The same hub, as its crew has it.
    pub crew: Arc<Hub, Global>,
    /// Its first pass.
    pub pass: Pass,
}

/// The hub of roots that are those of a page, of which no event was told yet, with a copy of the roots. It
/// fails only where memory runs out, by [`ServeStop::NoMemory`]. It takes memory for the hub and the copy.
pub fn share_hub(alloc: Global, roots: Vec<ModName>) -> Result<SharedHub, ServeStop>
    requires roots { AreRoots roots.items }
    ensures roots { IfOk result (λ made. made.roots.items ≡ roots.items) }
    ensures same { IfOk result (λ made. arc_value made.crew ≡ arc_value made.own) }
    ensures pass { IfOk result (λ made. IsPassOf (arc_value made.own) made.pass) }
    ensures first { IfOk result (λ made. IsFirst roots.items made.pass) }
    ensures transcript { IfOk result (λ made. HasTranscript made.pass) }
    ensures memory { IfErr result (λ stop. stop ≡ ServeStop.NoMemory) }
{
    let names = copy_of(alloc, &roots)?;
    let (hub, pass) = new_hub(alloc, roots)?;
    let own = Arc::new(alloc, hub)?;
    let crew = Arc::try_clone(&own)?;
    Ok(SharedHub {
        roots: names,
        own,
        crew,
        pass,
    })
}

// The hub of roots that are those of a page, of which no event was told yet, and its first pass. It fails
// only where memory runs out.
fn new_hub(alloc: Global, roots: Vec<ModName>) -> Result<(Hub, Pass), ServeStop>
    requires roots { AreRoots roots.items }
    ensures pass { IfOk result (λ made. IsPassOf made.0 made.1) }
    ensures first { IfOk result (λ made. IsFirst roots.items made.1) }
    ensures transcript { IfOk result (λ made. HasTranscript made.1) }
    ensures memory { IfErr result (λ stop. stop ≡ ServeStop.NoMemory) }
{
    match Hub::new(alloc, roots) {
        Ok(made) => Ok(made),
        Err(HubFault::Roots(_)) => unreachable!(),
        Err(HubFault::NoMemory) => Err(ServeStop::NoMemory),
    }
}

/// Writes the line of the port that the server listens at. It fails by [`ServeStop::Unwritten`], where the
/// count of the output's faults rose and a front of the line is written, and by [`ServeStop::NoMemory`]. It
/// takes memory for the line.
pub fn announce<K: Sink>(out: &mut K, alloc: Global, port: u16) -> Result<(), ServeStop>
    ensures done { OnOk result (Appends (K.written out.old) (K.written out.new) (header port)) }
    ensures front { WritesFront (K.written out.old) (K.written out.new) (header port) }
    ensures only { IfErr result (λ stop. (stop ≡ ServeStop.Unwritten) ⊎ (stop ≡ ServeStop.NoMemory)) }
    ensures unwritten { IsErrOf result ServeStop.Unwritten → Rose (K.faults out.old) (K.faults out.new) }
    ensures later { K.faults out.old ≤ K.faults out.new }
{
    let line = format!(in alloc; "listening {port}\n")?;
    write_all(out, line.as_bytes())?;
    Ok(())
}
