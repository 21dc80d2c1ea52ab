// Why bytes are no plan of a page.
use std::alloc::AllocError;

/// Why bytes are no plan of a page.
#[derive(Clone, Copy, Debug, PartialEq, Eq)]
pub enum PlanFault {
    /// The bytes aren't UTF-8, or have no JSON reading.
    NotJson,
    /// The member `plan` is missing, or isn't the text of a plan.
    WrongPlan,
    /// The member `plain` is missing, or isn't true or false.
    WrongPlain,
    /// The member `made` is missing, or isn't an object of names with versions.
    WrongMade,
    /// The member `kept` is missing, or isn't an object of names with plans and versions.
    WrongKept,
    /// More than 8,192 modules are named.
    TooMany,
    /// A module is both made and kept.
    Twice,
    /// There is no memory.
    NoMemory,
}

impl From<AllocError> for PlanFault {
    ghost use Rattle.std.specs.Prelude.{◌≡◌};
    ghost use Rattle.told_plans.specs.declared.fault.PlanFault.TheVariants.{NoMemory};

    ghost from_gives = { λ _ e. e ≡ NoMemory };

    fn from(_e: AllocError) -> PlanFault {
        PlanFault::NoMemory
    }
}
