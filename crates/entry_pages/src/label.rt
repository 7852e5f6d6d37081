//! What the fields are called.
ghost use Rattle.std.specs.Prelude.{◌≡◌};
ghost use Rattle.entry_pages.specs.Labels.{party_label, name_label, kind_label, day_label, served_label, start_label, at_label, label_of};

use docket_command::{CommandName, Field};

fn party_label(kind: CommandName) -> &'static str
    ensures { result.now ≡ party_label kind }
{
    match kind {
        CommandName::ServeSummons => "Party served",
        CommandName::FileWaiver => "Party that waives service",
        CommandName::ServePleading => "Party served",
        CommandName::OrderReply => "Party that has to reply",
        CommandName::Dispose => "Party that has to make the statement",
        CommandName::NoticeHearing => "Moving party",
        _ => "Party that has to act",
    }
}

fn name_label(kind: CommandName) -> &'static str
    ensures { result.now ≡ name_label kind }
{
    match kind {
        CommandName::AddParty => "Name of the party",
        CommandName::LocalRule => "Name of the rule",
        _ => "Name of the day",
    }
}

fn kind_label(kind: CommandName) -> &'static str
    ensures { result.now ≡ kind_label kind }
{
    match kind {
        CommandName::DeclareDay => "Declared by",
        CommandName::ServePleading => "Pleading",
        _ => "Motion under",
    }
}

fn day_label(kind: CommandName) -> &'static str
    ensures { result.now ≡ day_label kind }
{
    match kind {
        CommandName::FileEntry => "Filed on",
        _ => "Day",
    }
}

fn served_label(kind: CommandName) -> &'static str
    ensures { result.now ≡ served_label kind }
{
    match kind {
        CommandName::OrderReply => "Order served on",
        CommandName::RuleMotion => "Motion served on",
        CommandName::StatementServed => "Statement served on",
        _ => "Served on",
    }
}

fn start_label(kind: CommandName) -> &'static str
    ensures { result.now ≡ start_label kind }
{
    match kind {
        CommandName::CloseSpan => "Closed from",
        _ => "Day from which to count",
    }
}

fn at_label(kind: CommandName) -> &'static str
    ensures { result.now ≡ at_label kind }
{
    match kind {
        CommandName::OrderPeriod => "Time from which to count hours",
        CommandName::Extend => "The court acted, or was asked, at",
        _ => "Filed at",
    }
}

/// What a field is called in the form of a kind of command.
pub fn label_of(kind: CommandName, field: Field) -> &'static str
    ensures { result.now ≡ label_of kind field }
{
    match field {
        Field::Do => "Kind",
        Field::Key => "Key",
        Field::Day => day_label(kind),
        Field::Kind => kind_label(kind),
        Field::Close => "The office closes at",
        Field::Name => name_label(kind),
        Field::Start => start_label(kind),
        Field::End => "Closed until",
        Field::Row => "Row of the court's calendar",
        Field::Rows => "Days",
        Field::Label => "Docket number",
        Field::Caption => "Caption",
        Field::Filed => "Filed on",
        Field::Case => "Case",
        Field::Role => "Role",
        Field::Text => "Text of the entry",
        Field::Party => party_label(kind),
        Field::Basis => "The party is",
        Field::Served => served_label(kind),
        Field::Attorney => "Served on the United States attorney on",
        Field::Sent => "Request sent on",
        Field::Allowed => "Days that the request allowed",
        Field::Returned => "Waiver returned on",
        Field::Abroad => "Request sent outside the United States",
        Field::Method => "Method of service, Rule 5(b)(2)",
        Field::AttorneyMethod => "Method of service on the United States attorney",
        Field::Due => "Day that the court set",
        Field::Deadline => "Deadline",
        Field::Outcome => "Ruling",
        Field::Notice => "Notice of the ruling on",
        Field::Opponent => "Opposing party",
        Field::Hearing => "Day of the hearing",
        Field::Unit => "The court set",
        Field::At => at_label(kind),
        Field::Count => "How many",
        Field::Direction => "Counted",
        Field::Until => "Last day",
        Field::Entered => "Judgment entered on",
        Field::Discharged => "Jury discharged on",
        Field::Neglect => "Excusable neglect, Rule 6(b)(1)(B)",
        Field::Days => "Days",
        Field::Way => "Filed",
        Field::Three => "Three days are added after some service, Rule 6(d)",
        Field::Extendable => "The court may extend it",
        Field::Rule => "Local rule",
    }
}
