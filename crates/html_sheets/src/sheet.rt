//! The docket sheet of a case.
ghost use Rattle.std.specs.Prelude.{◌≡◌, ◌++◌, IfOk, OnOk, option_copied, string_bytes};
ghost use Rattle.std.specs.List.{flat_map};
ghost use Rattle.html_sheets.specs.Sheets.{case_head, entering, parties_head, party_at, name_of, party_row, parties_table, entries_head, entry_row, entries_table, deadlines_head, deadline_row, deadlines_table, case_sheet};

use crate::about::About;
use crate::entering::{ServeLinks, daily_kinds, push_enter_nav};
use crate::links::Links;
use crate::piece::{DayTold, DeadlineNumber, Told, table_foot};
use crate::rule_words::RuleTold;
use court_days::Court;
use docket_command::Word;
use docket_history::{CaseRecord, DeadlineLine, EntryRow, PartyRow};
use docket_text::{PartyText, StandingText};
use std::alloc::{AllocError, Global};

/// Adds the number, docket number, caption and filing day of the case.
fn push_case(text: &mut String, case: &CaseRecord) -> Result<(), AllocError>
    ensures { OnOk result (string_bytes text.new ≡ string_bytes text.old ++ case_head case.now) }
{
    let number = case.number;
    let label = Told(case.label.as_str());
    let caption = Told(case.caption.as_str());
    let filed = DayTold(case.filed);
    write!(
        text,
        "<dl>\n<dt>Case</dt><dd>{number}</dd>\n<dt>Docket number</dt><dd>{label}</dd>\n\
         <dt>Caption</dt><dd>{caption}</dd>\n<dt>Filed</dt><dd>{filed}</dd>\n</dl>\n"
    )
}

/// Adds links to the forms in which is entered what happens in the case, where there are pages.
fn push_entering(text: &mut String, links: Links, case: u32) -> Result<(), AllocError>
    ensures { OnOk result (string_bytes text.new ≡ string_bytes text.old ++ entering links case) }
{
    match links {
        Links::Pages => push_enter_nav(text, About::Case(case), daily_kinds()),
        Links::None => Ok(()),
    }
}

/// The table of the parties up to its rows.
#[tactic(auto, unfolding(crate::specs::Sheets::parties_head, crate::specs::Elements::element))]
fn parties_head() -> &'static str
    ensures { result.now ≡ parties_head }
{
    "<h2>Parties</h2>\n<table>\n<thead>\n<tr><th scope=\"col\">Party</th>\
     <th scope=\"col\">Role</th><th scope=\"col\">Name</th></tr>\n</thead>\n<tbody>\n"
}

/// Adds the row of a party.
fn push_party(
    text: &mut String,
    links: Links,
    case: u32,
    party: &PartyRow,
) -> Result<(), AllocError>
    ensures { OnOk result (string_bytes text.new ≡ string_bytes text.old ++ party_row links case party.now) }
{
    let number = party.number;
    let role = party.role.word();
    let name = Told(party.name.as_str());
    let serve = ServeLinks {
        links,
        case,
        party: number,
    };
    write!(
        text,
        "<tr><th scope=\"row\" class=\"number\">{number}</th><td>{role}</td><td>{name}{serve}</td></tr>\n"
    )
}

/// Adds a row for each party.
fn push_parties(
    text: &mut String,
    links: Links,
    case: u32,
    parties: &[PartyRow],
) -> Result<(), AllocError>
    ensures { OnOk result (string_bytes text.new ≡ string_bytes text.old ++ flat_map (party_row links case) parties.now) }
{
    for party in parties {
        push_party(text, links, case, party)?;
    }
    Ok(())
}

/// Adds the table of the parties.
#[tactic(auto, unfolding(crate::specs::Sheets::parties_table))]
fn push_parties_table(text: &mut String, links: Links, case: &CaseRecord) -> Result<(), AllocError>
    ensures { OnOk result (string_bytes text.new ≡ string_bytes text.old ++ parties_table links case.now) }
{
    text.push_str(parties_head())?;
    push_parties(text, links, case.number, case.parties.as_slice())?;
    text.push_str(table_foot())
}

/// The table of the entries up to its rows.
#[tactic(auto, unfolding(crate::specs::Sheets::entries_head, crate::specs::Elements::element))]
fn entries_head() -> &'static str
    ensures { result.now ≡ entries_head }
{
    "<h2>Entries</h2>\n<table>\n<thead>\n<tr><th scope=\"col\">Entry</th>\
     <th scope=\"col\">Day</th><th scope=\"col\">Text</th></tr>\n</thead>\n<tbody>\n"
}

/// Adds the row of an entry.
fn push_entry(text: &mut String, entry: &EntryRow) -> Result<(), AllocError>
    ensures { OnOk result (string_bytes text.new ≡ string_bytes text.old ++ entry_row entry.now) }
{
    let number = entry.number;
    let day = DayTold(entry.day);
    let entered = Told(entry.text.as_str());
    write!(
        text,
        "<tr><th scope=\"row\" class=\"number\">{number}</th><td>{day}</td><td>{entered}</td></tr>\n"
    )
}

/// Adds a row for each entry.
fn push_entries(text: &mut String, entries: &[EntryRow]) -> Result<(), AllocError>
    ensures { OnOk result (string_bytes text.new ≡ string_bytes text.old ++ flat_map entry_row entries.now) }
{
    for entry in entries {
        push_entry(text, entry)?;
    }
    Ok(())
}

/// Adds the table of the entries.
#[tactic(auto, unfolding(crate::specs::Sheets::entries_table))]
fn push_entries_table(text: &mut String, entries: &[EntryRow]) -> Result<(), AllocError>
    ensures { OnOk result (string_bytes text.new ≡ string_bytes text.old ++ entries_table entries.now) }
{
    text.push_str(entries_head())?;
    push_entries(text, entries)?;
    text.push_str(table_foot())
}

/// The table of the deadlines up to its rows.
#[tactic(auto, unfolding(crate::specs::Sheets::deadlines_head, crate::specs::Elements::element))]
fn deadlines_head() -> &'static str
    ensures { result.now ≡ deadlines_head }
{
    "<h2>Deadlines</h2>\n<table>\n<thead>\n<tr><th scope=\"col\">Deadline</th>\
     <th scope=\"col\">Party</th><th scope=\"col\">Rule</th><th scope=\"col\">Standing</th></tr>\n\
     </thead>\n<tbody>\n"
}

/// The party of a number among those of a case.
fn party_at(parties: &[PartyRow], number: u32) -> Option<&PartyRow>
    ensures { option_copied result ≡ party_at parties.now number }
{
    if number == 0 {
        return None;
    }
    parties.get(number as usize - 1)
}

/// The name of a party, if there is one.
fn name_of(party: Option<&PartyRow>) -> &str
    ensures { result.now ≡ name_of (option_copied party.entry) }
{
    match party {
        Some(party) => party.name.as_str(),
        None => "",
    }
}

/// The name of the party of a number, from 1, among those of a case. It is empty if there is none.
pub fn party_name(parties: &[PartyRow], number: u32) -> &str
    ensures { result.now ≡ name_of (party_at parties.now number) }
{
    name_of(party_at(parties, number))
}

/// Adds the row of a deadline, with the name of its party.
fn push_deadline(
    text: &mut String,
    links: Links,
    court: &Court,
    case: &CaseRecord,
    deadline: &DeadlineLine,
) -> Result<(), AllocError>
    ensures { OnOk result (string_bytes text.new ≡ string_bytes text.old ++ deadline_row links court.now case.now deadline.now) }
{
    let number = DeadlineNumber {
        links,
        case: case.number,
        number: deadline.number,
    };
    let party = PartyText(deadline.party);
    let name = Told(party_name(case.parties.as_slice(), deadline.party));
    let rule = RuleTold(deadline.rule.as_str());
    let standing = StandingText {
        court,
        close: deadline.close,
        standing: deadline.standing,
    };
    write!(
        text,
        "<tr><th scope=\"row\" class=\"number\">{number}</th><td>{party} {name}</td>\
         <td>{rule}</td><td class=\"number\">{standing}</td></tr>\n"
    )
}

/// Adds a row for each deadline.
fn push_deadlines(
    text: &mut String,
    links: Links,
    court: &Court,
    case: &CaseRecord,
    deadlines: &[DeadlineLine],
) -> Result<(), AllocError>
    ensures { OnOk result (string_bytes text.new ≡ string_bytes text.old ++ flat_map (deadline_row links court.now case.now) deadlines.now) }
{
    for deadline in deadlines {
        push_deadline(text, links, court, case, deadline)?;
    }
    Ok(())
}

/// Adds the table of the deadlines.
#[tactic(auto, unfolding(crate::specs::Sheets::deadlines_table))]
fn push_deadlines_table(
    text: &mut String,
    links: Links,
    court: &Court,
    case: &CaseRecord,
    deadlines: &[DeadlineLine],
) -> Result<(), AllocError>
    ensures { OnOk result (string_bytes text.new ≡ string_bytes text.old ++ deadlines_table links court.now case.now deadlines.now) }
{
    text.push_str(deadlines_head())?;
    push_deadlines(text, links, court, case, deadlines)?;
    text.push_str(table_foot())
}

/// Returns the case with a table of its parties, one of its entries and one of its deadlines: of each
/// deadline its number, its party, its rule, and where it stands. Where there are pages, its deadlines lead
/// to theirs, and there are links to the forms in which is entered what happens in the case.
pub fn case_sheet(
    alloc: Global,
    links: Links,
    court: &Court,
    case: &CaseRecord,
    deadlines: &[DeadlineLine],
) -> Result<String, AllocError>
    ensures { IfOk result (λ text. string_bytes text ≡ case_sheet links court.now case.now deadlines.now) }
{
    let mut text = String::new(alloc);
    push_case(&mut text, case)?;
    push_entering(&mut text, links, case.number)?;
    push_parties_table(&mut text, links, case)?;
    push_entries_table(&mut text, case.entries.as_slice())?;
    push_deadlines_table(&mut text, links, court, case, deadlines)?;
    Ok(text)
}
