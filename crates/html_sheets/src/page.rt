//! The head and the foot of a page, and the foot of one that shows the docket.
ghost use Rattle.std.specs.Prelude.{◌≡◌, ◌++◌, IfOk, OnOk, string_bytes};
ghost use Rattle.html_sheets.specs.Pages.{page_head, page_foot};
ghost use Rattle.html_sheets.specs.Sites.{site_foot};

use crate::escape::Escaped;
use crate::piece::Told;
use crate::style::style_text;
use court_days::Day;
use docket_text::{DayText, weekday_word};
use std::alloc::{AllocError, Global};
use std::fmt;

/// A page of that title from its first byte up to its content.
pub fn page_head(alloc: Global, title: &str) -> Result<String, AllocError>
    ensures { IfOk result (λ text. string_bytes text ≡ page_head title.now) }
{
    let style = style_text();
    let heading = Told(title);
    let title = Escaped(title);
    format!(in alloc;
        "<!DOCTYPE html>\n<html lang=\"en\">\n<head>\n<meta charset=\"utf-8\">\n\
        <meta name=\"viewport\" content=\"width=device-width, initial-scale=1\">\n\
        <title>{title}</title>\n<style>{style}</style>\n</head>\n<body>\n<main>\n<h1>{heading}</h1>\n"
    )
}

/// What ends a page.
pub fn page_foot() -> &'static str
    ensures { result.now ≡ page_foot }
{
    "</main>\n</body>\n</html>\n"
}

/// The day on which a page is printed. It is shown in print alone.
#[derive(Clone, Copy)]
struct PrintedOn(Day);

impl fmt::Display for PrintedOn {
    ghost use Rattle.std.specs.Prelude.{Some};
    ghost use Rattle.html_sheets.specs.Sites.{printed_on};

    ghost output = { λ printed. Some (printed_on printed.0) };

    #[tactic(auto, unfolding(crate::specs::Elements::element))]
    fn fmt<W: fmt::Write>(&self, f: &mut fmt::Formatter<W>) -> fmt::Result {
        let day = DayText(self.0);
        let weekday = weekday_word(self.0.weekday());
        write!(f, "<p class=\"printed\">Printed on {day} {weekday}</p>")
    }
}

/// Adds what ends a page that shows the docket on a day.
pub(crate) fn push_site_foot(page: &mut String, day: Day) -> Result<(), AllocError>
    ensures { OnOk result (string_bytes page.new ≡ string_bytes page.old ++ site_foot day) }
{
    let printed = PrintedOn(day);
    write!(page, "{printed}\n")?;
    page.push_str(page_foot())
}
