// The report of a transcript, as lines.
ghost use Rattle.std.specs.Prelude.{◌≡◌, ◌≤◌, ◌++◌, ◌∷◌, [], IfOk, List, None, Some, length, map};
ghost use Rattle.hmr_types.specs.declared.limits.TheConstants.{LARGEST_CLIENT};
ghost use Rattle.core_model.specs.Core.{Event};
ghost use Rattle.world_model.specs.Steps.{fresh_lines};
ghost use Rattle.fresh_loads.specs.Fresh.{load_of};
ghost use Rattle.server_core.specs.Kept.{StandsFor};
ghost use Rattle.hmr_hub.specs.Pages.{ArePages, IsPage, last_page};
ghost use Rattle.hmr_hub.specs.Reports.{client_lines, page_line, pages_lines, report_of};
ghost use Rattle.transcripts.specs.Transcripts.{IsTranscript};
ghost use Rattle.hmr_hub.specs.declared.report_line.ReportLine.TheVariants.{Line};

use crate::recorded_core::RecordedCore;
use crate::report_line::ReportLine;
use fresh_loads::{Fresh, load_lines};
use hmr_types::{ClientId, ModName, Table, Ver};
use output_lines::OutLine;
use server_core::{Core, fresh};
use std::alloc::{AllocError, Global};

impl RecordedCore {
    /// How many entries the transcript has, the fresh load of the server's roots, and the pages of all
    /// clients that ever came, by number: as they are, or as they were when the client went. It takes time
    /// in proportion to the modules that it names.
    pub fn report(&self) -> Result<Vec<ReportLine>, AllocError>
        ensures told { IfOk result (λ lines. lines.items ≡ report_of self.now.roots self.now.entries) }
        ensures transcript { IsTranscript self.now.roots self.now.entries }
    {
        let mut lines = Vec::new(self.alloc);
        lines.push(ReportLine::Steps(self.transcript.len()))?;
        add_load(self.alloc, &mut lines, fresh(self.alloc, &self.core)?)?;
        add_pages(self.alloc, &mut lines, &self.core, &self.pages)?;
        Ok(lines)
    }
}

// The pages of all clients that ever came, behind the lines before.
fn add_pages(
    alloc: Global,
    lines: &mut Vec<ReportLine>,
    core: &Core,
    pages: &[Option<Table>],
) -> Result<(), AllocError>
    requires few { length pages.now ≤ LARGEST_CLIENT }
    ensures { (past : List Event) → StandsFor past core.now → ArePages core.now.roots past pages.now
        → IfOk result (λ _. lines.new.items ≡ lines.old.items
        ++ pages_lines core.now.roots past (length pages.now)) }
{
    for place in 0..pages.len() {
        add_last_page(alloc, lines, core, place as ClientId + 1, &pages[place])?;
    }
    Ok(())
}

// The page of one client, which is kept where it has gone.
fn add_last_page(
    alloc: Global,
    lines: &mut Vec<ReportLine>,
    core: &Core,
    client: ClientId,
    kept: &Option<Table>,
) -> Result<(), AllocError>
    ensures { (past : List Event) → StandsFor past core.now → IsPage core.now.roots past client kept.now
        → IfOk result (λ _. lines.new.items ≡ lines.old.items
        ++ client_lines client (last_page core.now.roots past client)) }
{
    match kept {
        Some(page) => add_client(lines, client, page),
        None => match core.table(alloc, client)? {
            Some(page) => add_client(lines, client, &page),
            None => add_number(lines, client),
        },
    }
}

fn add_client(lines: &mut Vec<ReportLine>, client: ClientId, page: &Table) -> Result<(), AllocError>
    ensures { IfOk result (λ _. lines.new.items ≡ lines.old.items ++ client_lines client (Some page.now)) }
{
    add_number(lines, client)?;
    add_page(lines, page.as_slice())
}

fn add_number(lines: &mut Vec<ReportLine>, client: ClientId) -> Result<(), AllocError>
    ensures { IfOk result (λ _. lines.new.items ≡ lines.old.items ++ client_lines client None) }
{
    lines.push(ReportLine::Client(client))?;
    Ok(())
}

fn add_page(lines: &mut Vec<ReportLine>, rows: &[(ModName, Ver)]) -> Result<(), AllocError>
    ensures { IfOk result (λ _. lines.new.items ≡ lines.old.items ++ map page_line rows.now) }
{
    for row in rows.iter() {
        add_module(lines, row.0.clone()?, row.1)?;
    }
    Ok(())
}

fn add_module(lines: &mut Vec<ReportLine>, name: ModName, version: Ver) -> Result<(), AllocError>
    ensures { IfOk result (λ _. lines.new.items ≡ lines.old.items ++ page_line (name, version) ∷ []) }
{
    lines.push(ReportLine::Line(OutLine::Module { name, version }))?;
    Ok(())
}

// The lines of a fresh load, behind those before.
fn add_load(alloc: Global, lines: &mut Vec<ReportLine>, load: Fresh) -> Result<(), AllocError>
    ensures { IfOk result (λ _. lines.new.items ≡ lines.old.items ++ map Line (fresh_lines (load_of load))) }
{
    let more = load_lines(alloc, OutLine::Fresh, load)?;
    add_lines(lines, more)
}

fn add_lines(lines: &mut Vec<ReportLine>, more: Vec<OutLine>) -> Result<(), AllocError>
    ensures { IfOk result (λ _. lines.new.items ≡ lines.old.items ++ map Line more.items) }
{
    for line in more {
        lines.push(ReportLine::Line(line))?;
    }
    Ok(())
}
