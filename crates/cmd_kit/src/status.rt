ghost use Rattle.std.specs.Prelude.{◌≡◌};
ghost use Rattle.std.specs.Process.{exit_status};
ghost use Rattle.cmd_kit.specs.Statuses.{number_of};

use std::process::ExitCode;

/// How a call of `serve` ended.
#[derive(Clone, Copy, Debug, PartialEq, Eq)]
pub enum Status {
    /// The command did its work.
    Ok,
    /// The tables are refused.
    Refused,
    /// The words are of no command.
    Usage,
    /// A source is refused.
    Source,
    /// The run trapped.
    Trap,
    /// The run did not end within its cycles.
    OutOfCycles,
    /// There is no such file.
    Missing,
    /// A file could not be read.
    ReadFault,
    /// A file could not be written.
    WriteFault,
    /// What was to be printed could not be.
    SinkFault,
    /// A file is not of its form.
    Malformed,
    /// A file is longer than is read.
    TooLong,
    /// Memory was refused.
    Memory,
    /// The trace is accepted, but the source is that of another program.
    OtherProgram,
    /// A link of a chain does not follow the one before it, or cannot be followed.
    Broken,
}

impl Status {
    /// The number of the status (docs/FORMATS.md).
    pub fn number(self) -> u8
        ensures { result ≡ number_of self }
    {
        match self {
            Status::Ok => 0,
            Status::Refused => 1,
            Status::Usage => 2,
            Status::Source => 3,
            Status::Trap => 4,
            Status::OutOfCycles => 5,
            Status::Missing => 6,
            Status::ReadFault => 7,
            Status::WriteFault => 8,
            Status::SinkFault => 9,
            Status::Malformed => 10,
            Status::TooLong => 11,
            Status::Memory => 12,
            Status::OtherProgram => 14,
            Status::Broken => 15,
        }
    }

    /// What the program ends with: an exit status of this number.
    pub fn exit_code(self) -> ExitCode
        ensures { exit_status result ≡ number_of self }
    {
        ExitCode::from(self.number())
    }
}
