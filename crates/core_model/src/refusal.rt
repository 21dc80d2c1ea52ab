// Why the core refuses a client's request.
use hmr_types::{ModName, Ver};

/// A request that the core refuses. It changes nothing.
#[derive(Drop)]
pub enum Refusal {
    /// No client of this number is connected.
    UnknownClient,
    /// 32 clients are connected, or all client numbers were given, and the roots aren't bad.
    TooManyClients,
    /// The request isn't one for a client with a plan under way, or for one without.
    OutOfTurn,
    /// The table told isn't what the plan makes: the least name with another version, the version
    /// told and the one that the plan has, 0 for none.
    Mismatch { name: ModName, told: Ver, kept: Ver },
    /// The plan needs this module, which wasn't fetched: the least such name.
    Unfetched(ModName),
    /// The module isn't on the page at this version, or it doesn't accept itself.
    Ignored,
    /// The roots that a client names for its page are more than 16, or two of them are equal.
    BadRoots,
}
