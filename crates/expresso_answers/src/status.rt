//! How a call of the program ended.

ghost use Rattle.std.specs.Prelude.{◌≡◌};
ghost use Rattle.expresso_answers.specs.Exit.{exit_status};

/// How a call of the program ended.
#[derive(Clone, Copy, Debug, PartialEq, Eq)]
pub enum Status {
    /// The work was done, and its text written whole.
    Done,
    /// A file isn't accepted, and the line that says so was written whole.
    Refused,
    /// The words are none that the program takes, and its usage was written whole.
    Usage,
    /// A file couldn't be read, and the line that says so was written whole.
    ReadFault,
    /// The text couldn't be written whole.
    WriteFault,
    /// No memory was found, and nothing was written.
    OutOfMemory,
    /// As `Done`, but a client has calls left.
    Stalled,
}

/// The exit status of the program, from 0 to 6.
pub fn exit_status(status: Status) -> u8
    ensures { result ≡ exit_status status }
{
    match status {
        Status::Done => 0,
        Status::Refused => 1,
        Status::Usage => 2,
        Status::ReadFault => 3,
        Status::WriteFault => 4,
        Status::OutOfMemory => 5,
        Status::Stalled => 6,
    }
}
