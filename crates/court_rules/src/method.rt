//! Methods of service.
ghost use Rattle.std.specs.Prelude.{◌≡◌, ◌≢◌, IfSome, IfNone, find};
ghost use Rattle.std.specs.Str.{bytes_eq};
ghost use Rattle.court_rules.specs.Methods.{method_name, method_named, gives_additional_time};

/// How a party was served: under Fed. R. Civ. P. 4, by one of the methods of Fed. R. Civ. P.
/// 5(b)(2)(A) to (F), or not at all.
#[derive(Clone, Copy, PartialEq, Eq)]
pub enum Method {
    /// With the summons.
    Rule4,
    /// Handed to the person.
    A,
    /// Left at the office or the home.
    B,
    /// Mailed.
    C,
    /// Left with the clerk.
    D,
    /// Sent electronically.
    E,
    /// Delivered by other means consented to.
    F,
    /// The time does not run from service.
    Nothing,
}

/// All of them.
const METHODS: [Method; 8] = [
    Method::Rule4,
    Method::A,
    Method::B,
    Method::C,
    Method::D,
    Method::E,
    Method::F,
    Method::Nothing,
];

/// The method among these that has the name.
fn method_in(methods: &[Method], text: &str) -> Option<Method>
    ensures { result ≡ find (λ method. bytes_eq (method_name method) text.now) methods.now }
{
    methods.iter().copied().find(|method| method.name() == text)
}

impl Method {
    /// The method of that name: `rule4`, `A` to `F`, or `none`.
    #[tactic(auto, using(crate::proofs::Names::no_method))]
    pub fn read(text: &str) -> Option<Method>
        ensures value { result ≡ method_named text.now }
        ensures found { IfSome result (λ method. method_name method ≡ text.now) }
        ensures none { IfNone result ((method : Method) → method_name method ≢ text.now) }
    {
        method_in(&METHODS, text)
    }

    /// The word that `read` reads.
    pub fn name(self) -> &'static str
        ensures { result.now ≡ method_name self }
    {
        match self {
            Method::Rule4 => "rule4",
            Method::A => "A",
            Method::B => "B",
            Method::C => "C",
            Method::D => "D",
            Method::E => "E",
            Method::F => "F",
            Method::Nothing => "none",
        }
    }

    /// Whether service by this method adds three days to a time that runs from it
    /// (Fed. R. Civ. P. 6(d)).
    pub(crate) fn gives_additional_time(self) -> bool
        ensures { result ≡ gives_additional_time self }
    {
        matches!(self, Method::C | Method::D | Method::F)
    }
}
