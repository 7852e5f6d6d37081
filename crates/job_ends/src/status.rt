//! How a job ended.
ghost use Rattle.std.specs.Prelude.{◌≡◌};
ghost use Rattle.job_ends.specs.Ends.{exit_code};

/// How a job ended, for the exit status of the program.
#[derive(Clone, Copy)]
pub enum Status {
    /// It was done, and nothing was refused or bad.
    Done,
    /// A line was answered as bad or full, or with a refusal or a fault; or there is no such case.
    SomeBad,
    /// The words of the command line are no job.
    BadLine,
    /// Reading, writing, memory or the database failed.
    Failed,
}

impl Status {
    /// The exit status of the program.
    pub fn code(self) -> u8
        ensures { result ≡ exit_code self }
    {
        match self {
            Status::Done => 0,
            Status::SomeBad => 1,
            Status::BadLine => 2,
            Status::Failed => 3,
        }
    }
}
