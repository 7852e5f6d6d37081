//! The court's own rules.
ghost use Rattle.std.specs.Prelude.{◌≡◌, IfOk};
ghost use Rattle.std.specs.List.{list_all};
ghost use Rattle.court_rules.specs.LocalRules.{is_visible, is_local_name, local_adds_three};

use crate::method::Method;
use crate::text::Text;
use court_days::Direction;
use std::alloc::AllocError;

/// A rule of the court's own that sets a time in days from a day (Fed. R. Civ. P. 83(a)). It is not
/// the time of a responsive pleading.
#[derive(Clone, PartialEq, Drop)]
pub struct LocalRule {
    pub name: Text,
    pub days: u32,
    pub direction: Direction,
    /// Whether service by mail, with the clerk or by other means adds three days.
    pub three: bool,
    /// Whether the court may extend it.
    pub extendable: bool,
}

impl LocalRule {
    /// Whether service by this method adds three days to the time (Fed. R. Civ. P. 6(d)).
    pub fn adds_three(&self, method: Method) -> bool
        ensures { result ≡ local_adds_three self.now method }
    {
        self.three && method.gives_additional_time()
    }

    /// The same rule again.
    pub fn copied(&self) -> Result<LocalRule, AllocError>
        ensures { IfOk result (λ copy. copy ≡ self.now) }
    {
        self.clone()
    }
}

fn are_visible(bytes: &[u8]) -> bool
    ensures { result ≡ list_all is_visible bytes.now }
{
    bytes.iter().all(|byte| (0x21..=0x7E).contains(byte))
}

/// Whether a local rule may have the name: 3 to 16 bytes from 0x21 to 0x7E that begin with `LR`.
#[tactic(auto, unfolding(crate::specs::LocalRules::is_local_name))]
pub fn is_local_name(text: &str) -> bool
    ensures { result ≡ is_local_name text.now }
{
    (3..=16).contains(&text.len()) && are_visible(text.as_bytes()) && text.starts_with("LR")
}
