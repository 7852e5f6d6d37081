//! The kinds of commands that are entered by a form.
ghost use Rattle.std.specs.Prelude.{◌≡◌, ◌++◌, map, OnOk, string_bytes};
ghost use Rattle.std.specs.List.{flat_map};
ghost use Rattle.entry_pages.specs.Kinds.{groups, kind_link, kind_group, kind_groups};

use docket_command::CommandName;
use html_sheets::{About, EnterLink};
use std::alloc::AllocError;

/// Some kinds, and their heading.
pub(crate) type Group = (&'static str, &'static [CommandName]);

/// The kinds in groups.
pub(crate) fn groups() -> &'static [Group]
    ensures { map (λ group. (group.0.now, group.1.now)) result.now ≡ groups }
{
    &[
        (
            "Cases",
            &[
                CommandName::OpenCase,
                CommandName::AddParty,
                CommandName::FileEntry,
            ],
        ),
        (
            "Service and answers",
            &[
                CommandName::ServeSummons,
                CommandName::FileWaiver,
                CommandName::ServePleading,
                CommandName::OrderReply,
            ],
        ),
        (
            "Motions",
            &[
                CommandName::RuleMotion,
                CommandName::Dispose,
                CommandName::StatementServed,
                CommandName::NoticeHearing,
            ],
        ),
        (
            "Periods and deadlines",
            &[
                CommandName::OrderPeriod,
                CommandName::LocalPeriod,
                CommandName::EnterJudgment,
                CommandName::Extend,
                CommandName::Satisfy,
                CommandName::Vacate,
            ],
        ),
        (
            "The court's days",
            &[
                CommandName::DeclareDay,
                CommandName::CloseDay,
                CommandName::CloseSpan,
                CommandName::ShortDay,
                CommandName::WithdrawCalendar,
            ],
        ),
        ("Local rules", &[CommandName::LocalRule]),
    ]
}

/// Adds a link to the form of a kind.
fn push_link(text: &mut String, kind: CommandName) -> Result<(), AllocError>
    ensures { OnOk result (string_bytes text.new ≡ string_bytes text.old ++ kind_link kind) }
{
    let link = EnterLink {
        about: About::Nothing,
        kind,
    };
    write!(text, "<li>{link}</li>\n")
}

fn push_links(text: &mut String, kinds: &[CommandName]) -> Result<(), AllocError>
    ensures { OnOk result (string_bytes text.new ≡ string_bytes text.old ++ flat_map kind_link kinds.now) }
{
    for kind in kinds {
        push_link(text, *kind)?;
    }
    Ok(())
}

/// Adds some kinds under a heading.
fn push_group(text: &mut String, group: &Group) -> Result<(), AllocError>
    ensures { OnOk result (string_bytes text.new ≡ string_bytes text.old ++ kind_group (group.now.0.now, group.now.1.now)) }
{
    let (heading, kinds) = *group;
    write!(text, "<h2>{heading}</h2>\n<ul>\n")?;
    push_links(text, kinds)?;
    text.push_str("</ul>\n")
}

fn push_groups(text: &mut String, groups: &[Group]) -> Result<(), AllocError>
    ensures { OnOk result (string_bytes text.new ≡ string_bytes text.old ++ flat_map (λ group. kind_group (group.0.now, group.1.now)) groups.now) }
{
    for group in groups {
        push_group(text, group)?;
    }
    Ok(())
}

/// Adds all kinds.
#[tactic(auto, unfolding(crate::specs::Kinds::kind_groups))]
pub(crate) fn push_kinds(text: &mut String) -> Result<(), AllocError>
    ensures { OnOk result (string_bytes text.new ≡ string_bytes text.old ++ kind_groups) }
{
    push_groups(text, groups())
}
