//! The answer to a line of `count`.
ghost use Rattle.std.specs.Prelude.{◌≡◌, ◌++◌, ◌∷◌, [], OnOk, OnErr};
ghost use Rattle.civil_time.specs.DayText.{day_text};
ghost use Rattle.count_lines.specs.Answers.{answer_text, counts_as_bad};

use court_days::{Day, day_bytes};
use std::alloc::AllocError;

/// The answer to a line.
#[derive(Clone, Copy)]
pub enum Answer {
    /// To an empty line: an empty line.
    Empty,
    /// `ok`: the day stands.
    Done,
    /// `full`: the day is new, and there are as many days as there may be.
    Full,
    /// `bad`: the line has none of the forms, or a value is out of its limits.
    Bad,
    /// The last day of a period.
    LastDay(Day),
    /// The end of a period of hours, as the text of a moment.
    Moment([u8; 22]),
    /// When the clerk's office closes, as the text of a time of day.
    Clock([u8; 5]),
}

/// Appends the answer and a line feed to `out`.
pub(crate) fn write_answer(answer: &Answer, out: &mut Vec<u8>) -> Result<(), AllocError>
    ensures ok { OnOk result (out.new.items ≡ out.old.items ++ (answer_text answer.now ++ 10 ∷ [])) }
    ensures err { OnErr result (out.new.items ≡ out.old.items) }
{
    match *answer {
        Answer::Empty => out.extend_from_slice(b"\n"),
        Answer::Done => out.extend_from_slice(b"ok\n"),
        Answer::Full => out.extend_from_slice(b"full\n"),
        Answer::Bad => out.extend_from_slice(b"bad\n"),
        Answer::LastDay(day) => write_day(day, out),
        Answer::Moment(text) => write_moment(text, out),
        Answer::Clock(text) => write_clock(text, out),
    }
}

/// Appends the day and a line feed to `out`.
fn write_day(day: Day, out: &mut Vec<u8>) -> Result<(), AllocError>
    ensures ok { OnOk result (out.new.items ≡ out.old.items ++ (day_text day ++ 10 ∷ [])) }
    ensures err { OnErr result (out.new.items ≡ out.old.items) }
{
    let mut line = [b'\n'; 11];
    line[..10].copy_from_slice(&day_bytes(day));
    out.extend_from_slice(&line)
}

/// Appends the text of a moment and a line feed to `out`.
fn write_moment(text: [u8; 22], out: &mut Vec<u8>) -> Result<(), AllocError>
    ensures ok { OnOk result (out.new.items ≡ out.old.items ++ (text ++ 10 ∷ [])) }
    ensures err { OnErr result (out.new.items ≡ out.old.items) }
{
    let mut line = [b'\n'; 23];
    line[..22].copy_from_slice(&text);
    out.extend_from_slice(&line)
}

/// Appends the text of a time of day and a line feed to `out`.
fn write_clock(text: [u8; 5], out: &mut Vec<u8>) -> Result<(), AllocError>
    ensures ok { OnOk result (out.new.items ≡ out.old.items ++ (text ++ 10 ∷ [])) }
    ensures err { OnErr result (out.new.items ≡ out.old.items) }
{
    let mut line = [b'\n'; 6];
    line[..5].copy_from_slice(&text);
    out.extend_from_slice(&line)
}

/// Whether the answer counts as bad.
pub(crate) fn counts_as_bad(answer: &Answer) -> bool
    ensures { result ≡ counts_as_bad answer.now }
{
    matches!(answer, Answer::Bad | Answer::Full)
}
