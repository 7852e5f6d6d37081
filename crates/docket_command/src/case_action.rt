//! Commands that open a case and fill it.
ghost use Rattle.std.specs.Prelude.{◌≡◌};
ghost use Rattle.docket_command.specs.Sameness.{is_same_action};
ghost use Rattle.docket_command.specs.declared.command.Action.TheVariants as action;

use crate::choice::Role;
use civil_time::Day;
use court_rules::Text;

/// A case is opened.
#[derive(Clone, PartialEq, Drop)]
pub struct OpenCase {
    pub label: Text,
    pub caption: Text,
    pub filed: Day,
}

impl OpenCase {
    #[tactic(auto, unfolding(crate::specs::Sameness::is_same_action))]
    pub(crate) fn same(&self, other: &OpenCase) -> bool
        ensures { result ≡ is_same_action (action.OpenCase self.now) (action.OpenCase other.now) }
    {
        *self == *other
    }
}

/// A party is added to a case.
#[derive(Clone, PartialEq, Drop)]
pub struct AddParty {
    pub case: u32,
    pub name: Text,
    pub role: Role,
}

impl AddParty {
    #[tactic(auto, unfolding(crate::specs::Sameness::is_same_action))]
    pub(crate) fn same(&self, other: &AddParty) -> bool
        ensures { result ≡ is_same_action (action.AddParty self.now) (action.AddParty other.now) }
    {
        *self == *other
    }
}

/// An entry is made in a case.
#[derive(Clone, PartialEq, Drop)]
pub struct FileEntry {
    pub case: u32,
    pub day: Day,
    pub text: Text,
}

impl FileEntry {
    #[tactic(auto, unfolding(crate::specs::Sameness::is_same_action))]
    pub(crate) fn same(&self, other: &FileEntry) -> bool
        ensures { result ≡ is_same_action (action.FileEntry self.now) (action.FileEntry other.now) }
    {
        *self == *other
    }
}
