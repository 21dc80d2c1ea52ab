// Who calls a hub.
use hmr_hub::Hub;
use std::alloc::Global;

/// How the editor calls its hub: by which handle it waits, where it takes memory, and the hub.
#[derive_where(Clone, Copy)]
pub struct HubCaller<'a, R> {
    pub rt: &'a R,
    pub alloc: Global,
    pub hub: &'a Hub,
}
