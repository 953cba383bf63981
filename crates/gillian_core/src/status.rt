//! How a call of the program ends.
ghost use Rattle.std.specs.Prelude.{◌≡◌};

/// The status of a call, in the order of its exit codes.
#[derive(Clone, Copy, Debug, PartialEq, Eq)]
pub enum Status {
    /// Every answer is good. The report is written.
    Good,
    /// Some answer isn't good. The report is written.
    Found,
    /// The words don't fit. The usage line is written, and the source isn't read.
    Words,
    /// The bytes are no accepted text. `refused KIND at BYTE` is written.
    Text,
    /// The source failed. Nothing is written.
    ReadFault,
    /// The sink failed. A prefix of what was to be written is.
    WriteFault,
    /// Memory ran out. Nothing is written.
    Memory,
    /// The source has more than 1,048,576 bytes. `refused size` is written.
    TooLarge,
}

impl Status {
    ghost use Rattle.gillian_core.specs.Codes.{exit_code};

    /// The exit code of the program.
    pub fn code(self) -> u8
        ensures { result ≡ exit_code self }
    {
        match self {
            Status::Good => 0,
            Status::Found => 1,
            Status::Words => 2,
            Status::Text => 3,
            Status::ReadFault => 4,
            Status::WriteFault => 5,
            Status::Memory => 6,
            Status::TooLarge => 7,
        }
    }
}
