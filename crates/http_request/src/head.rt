//! The search for the end of a head: the first empty line after a non-empty one.
ghost use Rattle.std.specs.Prelude.{◌≡◌, ◌+◌, ◌<◌, length};
ghost use Rattle.http_request.specs.Head.{found_over, found_with, go_on, line_ended, grown, IfMore, IsOpen};

/// The most bytes of a head.
const MAX_HEAD: usize = 8192;

/// This many non-empty lines are too many.
const TOO_MANY_LINES: u32 = 66;

/// What has come of a line.
#[derive(Clone, Copy)]
pub enum Line {
    Empty,
    Return,
    Filled,
}

/// How far the search has come: the bytes, the non-empty lines and the line that is coming.
#[derive(Clone, Copy)]
pub struct Scan {
    pub len: usize,
    pub lines: u32,
    pub line: Line,
}

/// The result of the search: it needs more, a head of so many bytes, or no end in time.
#[derive(Clone, Copy)]
pub enum HeadSearch {
    More(Scan),
    Head(usize),
    TooLong,
}

/// The search before the first byte.
pub const START: Scan = Scan {
    len: 0,
    lines: 0,
    line: Line::Empty,
};

fn found_without_end(scan: Scan) -> HeadSearch
    ensures { result ≡ go_on scan }
{
    if scan.len < MAX_HEAD {
        HeadSearch::More(scan)
    } else {
        HeadSearch::TooLong
    }
}

fn with_line_end(scan: Scan) -> HeadSearch
    requires { IsOpen scan }
    ensures { result ≡ line_ended (scan.len + 1) scan.lines scan.line }
{
    let len = scan.len + 1;
    match scan.line {
        Line::Filled if scan.lines + 1 == TOO_MANY_LINES => HeadSearch::TooLong,
        Line::Filled => found_without_end(Scan {
            len,
            lines: scan.lines + 1,
            line: Line::Empty,
        }),
        Line::Empty | Line::Return if scan.lines == 0 => found_without_end(Scan {
            len,
            lines: 0,
            line: Line::Empty,
        }),
        Line::Empty | Line::Return => HeadSearch::Head(len),
    }
}

fn grow(line: Line, byte: u8) -> Line
    ensures { result ≡ grown line byte }
{
    match line {
        Line::Empty if byte == b'\r' => Line::Return,
        _ => Line::Filled,
    }
}

impl Scan {
    /// The search after one more byte.
    pub fn with(self, byte: u8) -> HeadSearch
        requires { IsOpen self }
        ensures found { result ≡ found_with self byte }
        ensures open { IfMore result (λ t. IsOpen t × (t.len ≡ self.len + 1)) }
    {
        if byte == b'\n' {
            with_line_end(self)
        } else {
            found_without_end(Scan {
                len: self.len + 1,
                lines: self.lines,
                line: grow(self.line, byte),
            })
        }
    }
}

/// The search over one more piece.
pub fn search(scan: Scan, piece: &[u8]) -> HeadSearch
    requires { IsOpen scan }
    ensures found { result ≡ found_over scan piece.now }
    ensures open { IfMore result (λ t. IsOpen t × (t.len ≡ scan.len + length piece.now)) }
{
    let mut at = scan;
    for byte in piece {
        match at.with(*byte) {
            HeadSearch::More(next) => at = next,
            found => return found,
        }
    }
    HeadSearch::More(at)
}
