//! What a question asks, without what it asks about.

/// What a question asks, without what it asks about.
#[derive(Debug, Drop, Clone, Copy, PartialEq, Eq)]
pub enum Verb {
    /// The number of simplices of each dimension.
    Count,
    /// The Betti numbers.
    Betti,
    /// Whether a simplex is essential.
    KindOf,
    /// The rows of a simplex in the contraction.
    ModelOf,
    /// The essential simplices of a dimension.
    Classes,
    /// A cochain as a literal.
    Show,
    /// A chain as a literal.
    ShowChain,
    /// The coboundary.
    Delta,
    /// The boundary.
    Boundary,
    /// The class of a cocycle.
    ClassOf,
    /// The canonical bound of a coboundary.
    Bound,
    /// The class of the cup product.
    Cup,
    /// The cup-i product.
    CupI,
    /// The Steenrod square.
    Square,
    /// The Bockstein.
    Bockstein,
    /// A bound between two cup products.
    SameCup,
    /// A bound between two squares.
    SameSquare,
    /// A bound between two Bocksteins.
    SameBockstein,
    /// The cap product.
    Cap,
    /// Whether the complex is closed.
    Closed,
    /// Whether the links have the counts of spheres.
    Links,
    /// The pairing of Poincaré duality.
    Duality,
    /// The Wu classes.
    Wu,
    /// The Stiefel-Whitney classes.
    Sw,
    /// A Stiefel-Whitney number.
    SwNumber,
}

/// The verbs of one word, in the order of the grammar.
pub const VERBS: [Verb; 22] = [
    Verb::Count,
    Verb::Betti,
    Verb::KindOf,
    Verb::ModelOf,
    Verb::Classes,
    Verb::Show,
    Verb::ShowChain,
    Verb::Delta,
    Verb::Boundary,
    Verb::ClassOf,
    Verb::Bound,
    Verb::Cup,
    Verb::CupI,
    Verb::Square,
    Verb::Bockstein,
    Verb::Cap,
    Verb::Closed,
    Verb::Links,
    Verb::Duality,
    Verb::Wu,
    Verb::Sw,
    Verb::SwNumber,
];

impl Verb {
    ghost use Rattle.std.specs.Prelude.{◌≡◌};
    ghost use Rattle.language.specs.Verbs.{verb_text};

    /// The words of the question, with a blank between two. Costs nothing.
    pub fn word(self) -> &'static [u8]
        ensures { result.now ≡ verb_text self }
    {
        match self {
            Verb::Count => b"count",
            Verb::Betti => b"betti",
            Verb::KindOf => b"kind",
            Verb::ModelOf => b"model",
            Verb::Classes => b"classes",
            Verb::Show => b"cochain",
            Verb::ShowChain => b"chain",
            Verb::Delta => b"delta",
            Verb::Boundary => b"boundary",
            Verb::ClassOf => b"class",
            Verb::Bound => b"bound",
            Verb::Cup => b"cup",
            Verb::CupI => b"cupi",
            Verb::Square => b"square",
            Verb::Bockstein => b"bockstein",
            Verb::SameCup => b"same cup",
            Verb::SameSquare => b"same square",
            Verb::SameBockstein => b"same bockstein",
            Verb::Cap => b"cap",
            Verb::Closed => b"closed",
            Verb::Links => b"links",
            Verb::Duality => b"duality",
            Verb::Wu => b"wu",
            Verb::Sw => b"sw",
            Verb::SwNumber => b"swnumber",
        }
    }
}
