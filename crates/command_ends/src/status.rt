// The exit statuses, each with its number.
ghost use Rattle.std.specs.Prelude.{◌≡◌};
ghost use Rattle.command_ends.specs.Ends.{number};

/// How the program ended. No other status is answered.
#[derive(Clone, Copy, Debug, PartialEq, Eq)]
pub enum Status {
    /// The command was carried out, and all of its output is written.
    Done,
    /// The words are no command; the usage line is written.
    NotACommand,
    /// The input is no script; the line of its first fault is written.
    NoScript,
    /// The input failed.
    Unread,
    /// The output failed; a prefix of it is written.
    Unwritten,
    /// The folder failed.
    Tree,
    /// The net, an end of a connection or the start of a thread failed.
    Net,
    /// A limit was passed, whose line is written last.
    Limit,
    /// Memory ran out; a prefix of the output is written.
    NoMemory,
    /// What the server sent is no message, or no answer to the request.
    BadAnswer,
}

impl Status {
    /// The number that the program exits with: 0, or from 2 to 10. The script that begins the program
    /// answers 1 itself.
    pub fn number(self) -> u8
        ensures { result ≡ number self }
    {
        match self {
            Status::Done => 0,
            Status::NotACommand => 2,
            Status::NoScript => 3,
            Status::Unread => 4,
            Status::Unwritten => 5,
            Status::Tree => 6,
            Status::Net => 7,
            Status::Limit => 8,
            Status::NoMemory => 9,
            Status::BadAnswer => 10,
        }
    }
}
