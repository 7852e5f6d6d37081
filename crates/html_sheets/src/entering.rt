//! Links to the forms in which commands are entered.
ghost use Rattle.std.specs.Prelude.{◌≡◌, ◌++◌, OnOk, string_bytes};
ghost use Rattle.std.specs.List.{flat_map};
ghost use Rattle.html_sheets.specs.Entering.{enter_line, enter_nav, daily_kinds, deadline_kinds, calendar_kinds};

use crate::about::About;
use crate::links::Links;
use crate::title::title_of;
use docket_command::{CommandName, Word};
use std::alloc::AllocError;
use std::fmt;

/// A link to the form of a kind of command, whose words are what the kind is called.
#[derive(Clone, Copy)]
pub struct EnterLink {
    pub about: About,
    pub kind: CommandName,
}

impl fmt::Display for EnterLink {
    ghost use Rattle.std.specs.Prelude.{Some};
    ghost use Rattle.html_sheets.specs.Entering.{enter_link};

    ghost output = { λ link. Some (enter_link link.about link.kind) };

    #[tactic(auto, unfolding(crate::specs::Elements::element))]
    fn fmt<W: fmt::Write>(&self, f: &mut fmt::Formatter<W>) -> fmt::Result {
        let word = self.kind.word();
        let about = self.about;
        let title = title_of(self.kind);
        write!(f, "<a href=\"/pages/enter/{word}{about}\">{title}</a>")
    }
}

/// Links to the forms in which a party is served, where there are pages.
#[derive(Clone, Copy)]
pub(crate) struct ServeLinks {
    pub(crate) links: Links,
    pub(crate) case: u32,
    pub(crate) party: u32,
}

impl fmt::Display for ServeLinks {
    ghost use Rattle.std.specs.Prelude.{Some};
    ghost use Rattle.html_sheets.specs.Entering.{serve_links};

    ghost output = { λ serve. Some (serve_links serve.links serve.case serve.party) };

    #[tactic(auto, unfolding(crate::specs::Elements::element))]
    fn fmt<W: fmt::Write>(&self, f: &mut fmt::Formatter<W>) -> fmt::Result {
        let about = About::Party(self.case, self.party);
        match self.links {
            Links::Pages => {
                let summons = EnterLink {
                    about,
                    kind: CommandName::ServeSummons,
                };
                let pleading = EnterLink {
                    about,
                    kind: CommandName::ServePleading,
                };
                write!(f, " <span class=\"act\">{summons} {pleading}</span>")
            }
            Links::None => f.write_str(""),
        }
    }
}

/// The commands that a clerk enters daily about a case.
pub(crate) fn daily_kinds() -> &'static [CommandName]
    ensures { result.now ≡ daily_kinds }
{
    &[
        CommandName::FileEntry,
        CommandName::AddParty,
        CommandName::ServeSummons,
        CommandName::ServePleading,
        CommandName::Satisfy,
        CommandName::Extend,
        CommandName::RuleMotion,
        CommandName::Dispose,
        CommandName::OrderPeriod,
        CommandName::EnterJudgment,
    ]
}

/// Those that act on a deadline.
pub(crate) fn deadline_kinds() -> &'static [CommandName]
    ensures { result.now ≡ deadline_kinds }
{
    &[
        CommandName::Extend,
        CommandName::Satisfy,
        CommandName::Vacate,
        CommandName::RuleMotion,
        CommandName::Dispose,
        CommandName::StatementServed,
    ]
}

/// Those that change the court's calendar.
pub(crate) fn calendar_kinds() -> &'static [CommandName]
    ensures { result.now ≡ calendar_kinds }
{
    &[
        CommandName::DeclareDay,
        CommandName::CloseDay,
        CommandName::CloseSpan,
        CommandName::ShortDay,
        CommandName::WithdrawCalendar,
    ]
}

/// Adds the link to the form of a kind.
fn push_kind(text: &mut String, about: About, kind: CommandName) -> Result<(), AllocError>
    ensures { OnOk result (string_bytes text.new ≡ string_bytes text.old ++ enter_line about kind) }
{
    let link = EnterLink { about, kind };
    write!(text, "{link}\n")
}

/// Adds the link to the form of each kind.
fn push_kinds(text: &mut String, about: About, kinds: &[CommandName]) -> Result<(), AllocError>
    ensures { OnOk result (string_bytes text.new
        ≡ string_bytes text.old ++ flat_map (enter_line about) kinds.now) }
{
    for kind in kinds {
        push_kind(text, about, *kind)?;
    }
    Ok(())
}

/// Adds links to the forms of some kinds, under the name "Enter".
pub(crate) fn push_enter_nav(
    text: &mut String,
    about: About,
    kinds: &[CommandName],
) -> Result<(), AllocError>
    ensures { OnOk result (string_bytes text.new
        ≡ string_bytes text.old ++ enter_nav about kinds.now) }
{
    text.push_str("<nav aria-label=\"Enter\">\n")?;
    push_kinds(text, about, kinds)?;
    text.push_str("</nav>\n")?;
    Ok(())
}
