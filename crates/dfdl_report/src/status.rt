ghost use Rattle.std.specs.Prelude.{◌≡◌};
ghost use Rattle.dfdl_report.specs.Statuses.{status_number};

/// How a run ends, by the exit status that tells it.
#[derive(Debug, Clone, Copy, PartialEq, Eq)]
pub enum Status {
    Done,
    ProcessingError,
    SchemaRefused,
    UnparseError,
    Usage,
    SourceFailed,
    SinkFailed,
    FilesFailed,
    Limit,
    OutOfMemory,
    /// Done, and data is left.
    LeftOver,
    InfosetRefused,
}

impl Status {
    /// The exit status.
    pub fn number(self) -> u8
        ensures { result ≡ status_number self }
    {
        match self {
            Status::Done => 0,
            Status::ProcessingError => 1,
            Status::SchemaRefused => 2,
            Status::UnparseError => 3,
            Status::Usage => 4,
            Status::SourceFailed => 5,
            Status::SinkFailed => 6,
            Status::FilesFailed => 7,
            Status::Limit => 8,
            Status::OutOfMemory => 9,
            Status::LeftOver => 11,
            Status::InfosetRefused => 12,
        }
    }
}
