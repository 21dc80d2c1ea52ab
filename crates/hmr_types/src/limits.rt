// Every limit of the product, in one place.

/// The most bytes that the name of a module has.
pub const NAME_BYTES: usize = 255;

/// The most bytes that the name of an event has.
pub const EVENT_BYTES: usize = 64;

/// The most bytes that the text of a module has.
pub const TEXT_BYTES: usize = 131_072;

/// The most names that have a source at one time.
pub const SOURCE_NAMES: usize = 8_192;

/// The most bytes that all current sources have together: 32 MiB.
pub const SOURCE_BYTES: usize = 33_554_432;

/// The largest version, and the largest whole number of the module language: 2^53 - 1.
pub const LARGEST_NUMBER: u64 = 9_007_199_254_740_991;

/// The most different names that one module imports.
pub const IMPORTS: usize = 256;

/// How deep the constructs of a module text may stand in one another.
pub const DEPTH: u32 = 64;

/// The most tokens of a module text.
pub const TOKENS: usize = 65_536;

/// The most roots of a page.
pub const ROOTS: usize = 16;

/// The most clients that are connected at one time.
pub const CLIENTS: usize = 32;

/// The largest number of a client.
pub const LARGEST_CLIENT: u32 = 4_294_967_295;

/// The most bytes of a text value.
pub const VALUE_BYTES: usize = 4_096;

/// The most keys of a bag.
pub const BAG_KEYS: usize = 64;

/// The most instances that one client makes.
pub const INSTANCES: usize = 20_000;

/// The most bytes of a script's line, without its LF.
pub const SCRIPT_LINE_BYTES: usize = 65_535;

/// The most bytes of a script: 16 MiB.
pub const SCRIPT_BYTES: usize = 16_777_216;

/// The most bytes of one message, and of the names and texts of one request or job: 16 MiB.
pub const MESSAGE_BYTES: usize = 16_777_216;
