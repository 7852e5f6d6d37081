//! How far a job has come, shown to whoever waits for it.
ghost use Rattle.std.specs.Prelude.{◌≡◌};

use docket_store::Watch;
use std::io;
use std::io::Write;
use std::time::{Clock, Duration, Instant};

/// How many rows go by between two looks at the clock.
const ROWS_A_LOOK: u64 = 4096;

/// The screens on which a job shows its progress, once a second, in a line that it overwrites.
#[derive(Drop)]
pub struct Progress<P> {
    /// How many rows were read, while a docket is opened.
    pub of_opening: Option<P>,
    /// How many lines `run` has answered.
    pub of_answers: Option<P>,
}

impl<P> Progress<P> {
    /// Shows nothing.
    pub fn untold() -> Progress<P> {
        Progress {
            of_opening: None,
            of_answers: None,
        }
    }
}

/// A count that is shown once a second.
#[derive(Drop)]
struct Counter<C, E> {
    clock: C,
    screen: E,
    /// What is counted.
    what: &'static str,
    count: u64,
    /// When a second began, if the clock can be read.
    since: Option<Instant>,
    is_shown: bool,
}

impl<C: Clock + Drop, E: Write + Drop> Counter<C, E> {
    fn new(clock: C, screen: E, what: &'static str) -> Counter<C, E> {
        let since = Instant::now(&clock).ok();
        Counter {
            clock,
            screen,
            what,
            count: 0,
            since,
            is_shown: false,
        }
    }

    fn add(&mut self, more: u64) {
        self.count = self.count.saturating_add(more);
    }

    /// Whether a second has gone by. Then another begins.
    fn is_time(&mut self) -> bool {
        let Some(since) = self.since else {
            return false;
        };
        let Ok(now) = Instant::now(&self.clock) else {
            return false;
        };
        if now.duration_since(since) < Duration::from_secs(1) {
            return false;
        }
        self.since = Some(now);
        true
    }

    /// Writes the count over the one before. It is never shorter.
    fn show(&mut self) {
        self.is_shown = true;
        let _ = write!(self.screen, "\r{} {}", self.count, self.what);
    }

    /// Shows the count, if it is time.
    fn look(&mut self) {
        if self.is_time() {
            self.show();
        }
    }

    /// Ends the line of the count, if there is one.
    fn finish(mut self) {
        if self.is_shown {
            self.show();
            let _ = self.screen.write(b"\n");
        }
    }
}

/// Passes the answers of a run on, and shows on the screen, if there is one, how many lines they are.
#[derive(Drop)]
pub(crate) struct LineCounter<C, W, P> {
    answers: W,
    lines: Option<Counter<C, P>>,
}

impl<C: Clock + Drop, W: Write + Drop, P: Write + Drop> LineCounter<C, W, P> {
    pub(crate) fn new(clock: C, answers: W, screen: Option<P>) -> LineCounter<C, W, P>
        ensures { result.answers ≡ answers }
    {
        let lines = screen.map(|screen| Counter::new(clock, screen, "lines answered"));
        LineCounter { answers, lines }
    }

    /// Ends the line of the count, and returns the writer.
    pub(crate) fn finish(self) -> W
        ensures { result ≡ self.answers }
    {
        let LineCounter { answers, lines } = self;
        if let Some(lines) = lines {
            lines.finish();
        }
        answers
    }
}

impl<C: Clock + Drop, W: Write + Drop, P: Write + Drop> Write for LineCounter<C, W, P> {
    ghost contents = { λ counter. W.contents counter.answers };

    fn write(&mut self, bytes: &[u8]) -> io::Result<usize> {
        let count = self.answers.write(bytes)?;
        if let Some(lines) = &mut self.lines {
            lines.add(line_feeds(&bytes[..count]));
            lines.look();
        }
        Ok(count)
    }

    fn flush(&mut self) -> io::Result<()> {
        self.answers.flush()
    }
}

fn line_feeds(bytes: &[u8]) -> u64 {
    bytes.iter().filter(|byte| **byte == b'\n').count() as u64
}

/// Shows on the screen, if there is one, how many rows were read while a docket is opened. The line ends when
/// the counter is dropped.
pub(crate) struct RowCounter<C: Clock + Drop, P: Write + Drop> {
    rows: Option<Counter<C, P>>,
}

impl<C: Clock + Drop, P: Write + Drop> RowCounter<C, P> {
    pub(crate) fn new(clock: C, screen: Option<P>) -> RowCounter<C, P> {
        RowCounter {
            rows: screen.map(|screen| Counter::new(clock, screen, "rows read")),
        }
    }
}

impl<C: Clock + Drop, P: Write + Drop> Drop for RowCounter<C, P> {
    fn drop(self) {
        let RowCounter { rows } = self;
        if let Some(rows) = rows {
            rows.finish();
        }
    }
}

impl<C: Clock + Drop, P: Write + Drop> Watch for RowCounter<C, P> {
    fn on_row(&mut self) {
        let Some(rows) = &mut self.rows else {
            return;
        };
        rows.add(1);
        if rows.count % ROWS_A_LOOK == 0 {
            rows.look();
        }
    }
}
