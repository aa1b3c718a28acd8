// How a run ends.
ghost use Rattle.std.specs.Prelude.{◌≡◌};
ghost use Rattle.luo_answer.specs.Exit.{exit_code};

/// How a run ends.
#[derive(Clone, Copy, Debug, PartialEq, Eq)]
pub enum Status {
    /// The whole output was taken.
    Done,
    /// The words have the form of no command.
    Usage,
    /// A rule is broken.
    Refused,
    /// A limit is passed.
    Limit,
    /// A number is above the last one.
    Overflow,
    /// The file that the words name failed.
    ReadFault,
    /// Standard output failed.
    WriteFault,
    /// Memory was refused.
    NoMemory,
}

/// The exit status of the program: 0 for `Done`, and 2 to 8 for the others in their order.
pub fn code(status: Status) -> u8
    ensures { result ≡ exit_code status }
{
    match status {
        Status::Done => 0,
        Status::Usage => 2,
        Status::Refused => 3,
        Status::Limit => 4,
        Status::Overflow => 5,
        Status::ReadFault => 6,
        Status::WriteFault => 7,
        Status::NoMemory => 8,
    }
}
