// A boundary, and how it is told of a module.
use hmr_types::ModName;

/// How a boundary is told of a module.
#[derive(Clone, Copy)]
pub enum Telling {
    /// By the callbacks on itself of the instance at this place.
    Own(usize),
    /// By the callbacks on dependencies of its live instance.
    Dep,
    /// Not at all.
    Silent,
}

/// A boundary, the module that it is told of, and how.
#[derive(Drop)]
pub struct Told {
    pub boundary: ModName,
    pub name: ModName,
    pub telling: Telling,
}
