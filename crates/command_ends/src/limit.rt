// The limits that end a command, each with the line that tells it.
ghost use Rattle.std.specs.Prelude.{◌≡◌};
ghost use Rattle.command_ends.specs.Ends.{limit_line};

/// The most bytes of a record that is read: 256 MiB.
pub const RECORD_BYTES: usize = 268_435_456;

/// A limit that ends a command where it is passed.
#[derive(Clone, Copy, Debug, PartialEq, Eq)]
pub enum Limit {
    /// A script has at most 16,777,216 bytes.
    Script,
    /// A record has at most 268,435,456 bytes.
    Record,
    /// The text of a module has at most 131,072 bytes.
    Text,
    /// At most 8,192 modules have a text.
    Names,
    /// The texts have at most 33,554,432 bytes together.
    Sources,
    /// A client makes at most 20,000 instances.
    Instances,
    /// A transcript has at most 1,000,000 entries, and 268,435,456 bytes, as which an entry counts 64 and those
    /// of the names and texts in its event.
    Transcript,
    /// The passes of a server have at most 18,446,744,073,709,551,615 numbers.
    Passes,
    /// At most 500,000 answers are written.
    Turns,
}

impl Limit {
    /// The line that is told where the limit is passed, with its LF.
    pub fn line(self) -> &'static str
        ensures { result.now ≡ limit_line self }
    {
        match self {
            Limit::Script => "limit input 16777216\n",
            Limit::Record => "limit input 268435456\n",
            Limit::Text => "limit text 131072\n",
            Limit::Names => "limit names 8192\n",
            Limit::Sources => "limit sources 33554432\n",
            Limit::Instances => "limit instances 20000\n",
            Limit::Transcript => "limit transcript 1000000\n",
            Limit::Passes => "limit passes 18446744073709551615\n",
            Limit::Turns => "limit turns 500000\n",
        }
    }
}
