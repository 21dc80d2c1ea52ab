// An outline as it grows: each part is put behind all that was found before it, so that the lists rise.
//
// `_text` is the text of the outline, an argument for the clauses alone. A part for which there is no memory
// isn't put, and the outline stays as it was.
ghost use Rattle.std.specs.Prelude.{◌≡◌, ◌+◌, ◌≤◌, ◌<◌, ◌^◌, [], ◌∷◌, ◌++◌, IfErr, IsSome, OnOk, length};
ghost use Rattle.es_scan.specs.Outlines.{AreNamesIn, AreRows, IsExport, IsHashbang, IsImport};
ghost use Rattle.es_scan.specs.Outlines.{IsOutlineOf, IsSpecifier, reach};

use crate::fault::{Fault, FaultKind, Reason, Stop};
use crate::outline::{Accept, ExportedName, ImportBinding, ModuleSpecifier, Outline, Span};
use std::alloc::Global;

/// The stop where there is no memory for what ends at a place.
fn out_of_memory(at: u32) -> Stop
    ensures at { result.at ≡ at }
{
    Stop {
        reason: Reason::Refused(FaultKind::OutOfMemory),
        at,
    }
}

impl Outline {
    /// What is found before the first statement.
    #[tactic(auto, using(crate::proofs::Growth::reach_empty, crate::proofs::Growth::sound_empty))]
    pub(crate) fn new(
        alloc: Global,
        _text: &[u8],
        hashbang: Option<Span>,
        first_statement: u32,
    ) -> Outline
        requires hashbang { IsHashbang _text.now hashbang }
        requires within { first_statement ≤ length _text.now }
        ensures sound { IsOutlineOf _text.now result }
        ensures reach { reach result ≡ 0 }
    {
        Outline {
            specifiers: Vec::new(alloc),
            imports: Vec::new(alloc),
            exports: Vec::new(alloc),
            accepts: Vec::new(alloc),
            declines: Vec::new(alloc),
            computed: Vec::new(alloc),
            unclear: Vec::new(alloc),
            first_meta: None,
            hashbang,
            first_statement,
        }
    }

    /// Puts a module specifier.
    #[tactic(auto, using(crate::proofs::Growth::sound_specifier, crate::proofs::Growth::reach_specifier, crate::proofs::Growth::sound_same, crate::proofs::Growth::reach_same, crate::proofs::Growth::longer))]
    pub(crate) fn put_specifier(
        &mut self,
        _text: &[u8],
        specifier: ModuleSpecifier,
    ) -> Result<(), Stop>
        requires sound { IsOutlineOf _text.now self.old }
        requires literal { IsSpecifier _text.now specifier }
        requires names { AreNamesIn self.old specifier.purpose specifier.names }
        requires behind { reach self.old ≤ specifier.literal.start }
        ensures sound { IsOutlineOf _text.now self.new }
        ensures reach { reach self.new ≤ specifier.literal.end }
        ensures grows { OnOk result (length self.new.specifiers.items ≡ length self.old.specifiers.items + 1) }
        ensures stop { IfErr result (λ stop. stop.at ≡ specifier.literal.end) }
    {
        match self.specifiers.push(specifier) {
            Ok(()) => Ok(()),
            Err(_) => Err(out_of_memory(specifier.literal.end)),
        }
    }

    /// Puts a name that an import declaration binds.
    #[tactic(auto, using(crate::proofs::Growth::sound_import, crate::proofs::Growth::reach_import, crate::proofs::Growth::sound_same, crate::proofs::Growth::reach_same, crate::proofs::Growth::longer))]
    pub(crate) fn put_import(&mut self, _text: &[u8], binding: ImportBinding) -> Result<(), Stop>
        requires sound { IsOutlineOf _text.now self.old }
        requires binding { IsImport _text.now binding }
        requires behind { reach self.old ≤ binding.local.start }
        ensures sound { IsOutlineOf _text.now self.new }
        ensures reach { reach self.new ≤ binding.local.end }
        ensures grows { OnOk result (length self.new.imports.items ≡ length self.old.imports.items + 1) }
        ensures stop { IfErr result (λ stop. stop.at ≡ binding.local.end) }
    {
        match self.imports.push(binding) {
            Ok(()) => Ok(()),
            Err(_) => Err(out_of_memory(binding.local.end)),
        }
    }

    /// Puts a name that the module exports.
    #[tactic(auto, using(crate::proofs::Growth::sound_export, crate::proofs::Growth::reach_export, crate::proofs::Growth::sound_same, crate::proofs::Growth::reach_same, crate::proofs::Growth::longer))]
    pub(crate) fn put_export(&mut self, _text: &[u8], export: ExportedName) -> Result<(), Stop>
        requires sound { IsOutlineOf _text.now self.old }
        requires export { IsExport _text.now export }
        requires behind { reach self.old ≤ export.name.start }
        ensures sound { IsOutlineOf _text.now self.new }
        ensures reach { reach self.new ≤ export.name.end }
        ensures grows { OnOk result (length self.new.exports.items ≡ length self.old.exports.items + 1) }
        ensures stop { IfErr result (λ stop. stop.at ≡ export.name.end) }
    {
        match self.exports.push(export) {
            Ok(()) => Ok(()),
            Err(_) => Err(out_of_memory(export.name.end)),
        }
    }

    /// Puts a call of `accept` whose specifiers were put; `end` is how far the scan is.
    #[tactic(auto, using(crate::proofs::Growth::sound_accept, crate::proofs::Growth::sound_same, crate::proofs::Growth::reach_same))]
    pub(crate) fn put_accept(
        &mut self,
        _text: &[u8],
        accept: Accept,
        end: usize,
    ) -> Result<(), Stop>
        requires sound { IsOutlineOf _text.now self.old }
        requires call { accept.call < length _text.now }
        requires rows { AreRows (length self.old.specifiers.items) accept.specifiers }
        requires short { end < 2 ^ 32 }
        ensures sound { IsOutlineOf _text.now self.new }
        ensures reach { reach self.new ≡ reach self.old }
        ensures stop { IfErr result (λ stop. stop.at ≡ end) }
    {
        match self.accepts.push(accept) {
            Ok(()) => Ok(()),
            Err(_) => Err(out_of_memory(end as u32)),
        }
    }

    /// Puts a call of `decline`; `end` is how far the scan is.
    #[tactic(auto, using(crate::proofs::Growth::place_put, crate::proofs::Growth::sound_same, crate::proofs::Growth::reach_same))]
    pub(crate) fn put_decline(&mut self, _text: &[u8], call: usize, end: usize) -> Result<(), Stop>
        requires sound { IsOutlineOf _text.now self.old }
        requires call { call < length _text.now }
        requires short { (length _text.now < 2 ^ 32) × (end < 2 ^ 32) }
        ensures sound { IsOutlineOf _text.now self.new }
        ensures reach { reach self.new ≡ reach self.old }
        ensures put { OnOk result (self.new.declines.items ≡ self.old.declines.items ++ call ∷ []) }
        ensures stop { IfErr result (λ stop. stop.at ≡ end) }
    {
        match self.declines.push(call as u32) {
            Ok(()) => Ok(()),
            Err(_) => Err(out_of_memory(end as u32)),
        }
    }

    /// Puts an ImportCall whose argument isn't a string literal; `end` is how far the scan is.
    #[tactic(auto, using(crate::proofs::Growth::place_put, crate::proofs::Growth::sound_same, crate::proofs::Growth::reach_same))]
    pub(crate) fn put_computed(&mut self, _text: &[u8], call: usize, end: usize) -> Result<(), Stop>
        requires sound { IsOutlineOf _text.now self.old }
        requires call { call < length _text.now }
        requires short { (length _text.now < 2 ^ 32) × (end < 2 ^ 32) }
        ensures sound { IsOutlineOf _text.now self.new }
        ensures reach { reach self.new ≡ reach self.old }
        ensures put { OnOk result (self.new.computed.items ≡ self.old.computed.items ++ call ∷ []) }
        ensures stop { IfErr result (λ stop. stop.at ≡ end) }
    {
        match self.computed.push(call as u32) {
            Ok(()) => Ok(()),
            Err(_) => Err(out_of_memory(end as u32)),
        }
    }

    /// Puts the place at which a declaration isn't known.
    #[tactic(auto, using(crate::proofs::Growth::place_put, crate::proofs::Growth::sound_same, crate::proofs::Growth::reach_same))]
    pub(crate) fn put_unclear(&mut self, _text: &[u8], at: u32) -> Result<(), Fault>
        requires sound { IsOutlineOf _text.now self.old }
        requires within { at ≤ length _text.now }
        ensures sound { IsOutlineOf _text.now self.new }
        ensures reach { reach self.new ≡ reach self.old }
        ensures put { OnOk result (self.new.unclear.items ≡ self.old.unclear.items ++ at ∷ []) }
    {
        match self.unclear.push(at) {
            Ok(()) => Ok(()),
            Err(_) => Err(Fault {
                kind: FaultKind::OutOfMemory,
                at,
            }),
        }
    }

    /// Notes an `import.meta`, where it is the first.
    #[tactic(auto, using(crate::proofs::Growth::sound_same, crate::proofs::Growth::reach_same))]
    pub(crate) fn note_meta(&mut self, _text: &[u8], at: usize)
        requires sound { IsOutlineOf _text.now self.old }
        requires within { at < length _text.now }
        requires short { length _text.now < 2 ^ 32 }
        ensures sound { IsOutlineOf _text.now self.new }
        ensures reach { reach self.new ≡ reach self.old }
        ensures noted { IsSome self.new.first_meta }
    {
        if self.first_meta.is_none() {
            self.first_meta = Some(at as u32);
        }
    }
}
