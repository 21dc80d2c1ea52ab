// Why a module has no analysis.
use hmr_types::SpecFault;

/// Why a module has no analysis. Its faults come in this order.
#[derive(Clone, Copy, Debug, PartialEq, Eq)]
pub enum ScanFault {
    /// Why the first specifier in the text, of imports and accepts, means no module.
    Spec(SpecFault),
    /// More than 256 different modules are imported.
    TooManyImports,
    /// Memory ran out.
    NoMemory,
}
