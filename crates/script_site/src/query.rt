// Which instance of a module a query asks for.
use instance_urls::PlanId;

/// Which instance of a module a query asks for.
#[derive(Clone, Copy, Debug, PartialEq, Eq)]
pub(crate) enum WantedInstance {
    /// That of the plain URL: the query has no `hmr`.
    Plain,
    /// The one that this plan made: the query has `hmr=5.2`.
    Made(PlanId),
    /// One of what is no plan.
    Unknown,
}

/// Which instance a query asks for, of parts with an `&` between each two; the first `hmr` counts.
pub(crate) fn wanted_instance(query: &[u8]) -> WantedInstance {
    for part in query.split(|b| *b == b'&') {
        if let Some(text) = part.strip_prefix(b"hmr=") {
            return match plan_in(text) {
                Some(id) => WantedInstance::Made(id),
                None => WantedInstance::Unknown,
            };
        }
    }
    WantedInstance::Plain
}

/// The plan whose text these bytes are; None where they are no plan's.
pub(crate) fn plan_in(text: &[u8]) -> Option<PlanId> {
    match str::from_utf8(text) {
        Ok(text) => PlanId::read(text),
        Err(_) => None,
    }
}
