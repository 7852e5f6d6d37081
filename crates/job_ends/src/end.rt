//! How a job ended, and what is still to be printed.
ghost use Rattle.std.specs.Prelude.{◌≡◌, [], None, string_bytes};
ghost use Rattle.std.specs.Cow.{cow_str_bytes};
ghost use Rattle.job_ends.specs.Ends.{Exits};

use crate::messages::write_text;
use crate::status::Status;
use sqlite::Leftover;
use sqlite_disk::Disk;
use std::alloc::Global;
use std::borrow::CowStr;
use std::io::Write;

/// How a job ended: the text that is still to be printed once the files are dropped, and what is left of the
/// files, where the job opened them.
#[derive(Drop)]
pub struct JobEnd<D: Disk> {
    pub text: CowStr<'static>,
    pub status: Status,
    pub left: Option<Leftover<D>>,
}

impl<D: Disk + Drop> JobEnd<D> {
    /// Returns the end of a job with no text to print, which opened no files.
    pub fn of(status: Status) -> JobEnd<D>
        ensures text { cow_str_bytes result.text ≡ [] }
        ensures status { result.status ≡ status }
        ensures left { result.left ≡ None }
    {
        JobEnd {
            text: CowStr::Borrowed(""),
            status,
            left: None,
        }
    }

    /// Returns the end of a job that is done, with this text to print, which opened no files.
    pub fn told(text: String) -> JobEnd<D>
        ensures text { cow_str_bytes result.text ≡ string_bytes text }
        ensures status { result.status ≡ Status.Done }
        ensures left { result.left ≡ None }
    {
        JobEnd {
            text: CowStr::Owned(text),
            status: Status::Done,
            left: None,
        }
    }

    /// Returns the same end with this status.
    pub fn ending(self, status: Status) -> JobEnd<D>
        ensures text { result.text ≡ self.text }
        ensures status { result.status ≡ status }
        ensures left { result.left ≡ self.left }
    {
        JobEnd { status, ..self }
    }

    /// Returns the same end with what is left of the files.
    pub fn with(self, left: Option<Leftover<D>>) -> JobEnd<D>
        ensures text { result.text ≡ self.text }
        ensures status { result.status ≡ self.status }
        ensures left { result.left ≡ left }
    {
        JobEnd { left, ..self }
    }

    /// Drops the files, writes the text, and returns the exit status of the program. Where the text can't be
    /// written, that is the status of a job that failed.
    pub fn finish<W: Write, E: Write>(self, alloc: Global, w: &mut W, e: &mut E) -> u8
        ensures { Exits (cow_str_bytes self.text) self.status (W.contents w.old) (W.contents w.new) result }
    {
        let JobEnd { text, status, left } = self;
        drop(left);
        write_text(alloc, text.as_str(), status, w, e).code()
    }
}
