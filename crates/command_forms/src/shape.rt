//! What the text of a member means.
ghost use Rattle.std.specs.Prelude.{◌≡◌};
ghost use Rattle.command_forms.specs.Shapes.{shape_named as shape_by_name};

/// What the text of a member is read as.
#[derive(Clone, Copy)]
pub enum Shape {
    /// A number in digits.
    Number,
    /// The word `true` or `false`.
    Flag,
    /// Itself.
    Text,
}

/// What the text of the member of a name is read as.
#[tactic(auto, unfolding(docket_wire::specs::Reading::is_known))]
pub fn shape_named(name: &str) -> Shape
    ensures { result ≡ shape_by_name name.now }
{
    match name {
        "row" | "case" | "party" | "allowed" | "deadline" | "opponent" | "count" | "days" =>
            Shape::Number,
        "abroad" | "neglect" | "three" | "extendable" => Shape::Flag,
        _ => Shape::Text,
    }
}
