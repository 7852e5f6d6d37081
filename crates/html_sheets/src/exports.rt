//! What ends the page of what is due on some days: links to them as files that other programs read.
ghost use Rattle.std.specs.Prelude.{◌≡◌, ◌++◌, IfOk, OnOk, string_bytes};
ghost use Rattle.html_sheets.specs.Sites.{exports_nav, days_page_foot};

use crate::page::push_site_foot;
use crate::piece::table_foot;
use court_days::Day;
use docket_text::DayText;
use std::alloc::{AllocError, Global};
use std::fmt;

/// A link to a file of what is due on some days.
#[derive(Clone, Copy)]
struct ExportLink<'a> {
    file: &'a str,
    from: Day,
    to: Day,
    words: &'a str,
}

impl fmt::Display for ExportLink<'_> {
    ghost use Rattle.std.specs.Prelude.{Some};
    ghost use Rattle.html_sheets.specs.Sites.{export_link};

    ghost output = { λ link. Some (export_link link.file.now link.from link.to link.words.now) };

    #[tactic(auto, unfolding(crate::specs::Elements::element))]
    fn fmt<W: fmt::Write>(&self, f: &mut fmt::Formatter<W>) -> fmt::Result {
        let file = self.file;
        let from = DayText(self.from);
        let to = DayText(self.to);
        let words = self.words;
        write!(
            f,
            "<a href=\"/pages/{file}?from={from}&amp;to={to}\">{words}</a>"
        )
    }
}

/// Adds links to what is due as a calendar to which a program subscribes, and to what is due on some days as
/// tables.
fn push_exports(page: &mut String, from: Day, to: Day) -> Result<(), AllocError>
    ensures { OnOk result (string_bytes page.new ≡ string_bytes page.old ++ exports_nav from to) }
{
    let csv = ExportLink {
        file: "due.csv",
        from,
        to,
        words: "CSV",
    };
    let json = ExportLink {
        file: "due.json",
        from,
        to,
        words: "JSON",
    };
    write!(
        page,
        "<nav aria-label=\"Exports\"><a href=\"/pages/due.ics\">Calendar to subscribe to</a> {csv} {json}</nav>\n"
    )
}

/// Returns what ends the page of what is due from a day to another, behind its rows: links to exports, and the
/// day on which it is printed.
pub fn days_page_foot(alloc: Global, from: Day, to: Day, day: Day) -> Result<String, AllocError>
    ensures { IfOk result (λ text. string_bytes text ≡ days_page_foot from to day) }
{
    let mut text = String::new(alloc);
    text.push_str(table_foot())?;
    push_exports(&mut text, from, to)?;
    push_site_foot(&mut text, day)?;
    Ok(text)
}
