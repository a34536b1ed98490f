//! What a step does, without what it does it with.

/// What a step does, without what it does it with.
#[derive(Debug, Drop, Clone, Copy, PartialEq, Eq)]
pub enum Step {
    /// Attach a simplex.
    Attach,
    /// Attach simplices, and those of their faces that are not there.
    Facet,
    /// Cut a version.
    Cut,
    /// Go back to a version.
    Back,
    /// Look, and take the last version seen.
    See,
    /// Look, and take the last version seen where many entries are seen.
    After,
    /// Keep the version in use under a name.
    Hold,
    /// Make a held version the one in use.
    Take,
    /// Forget a name.
    Release,
    /// Gather questions.
    Round,
    /// End the session.
    Quit,
}

/// The steps, in the order of the grammar.
pub const STEPS: [Step; 11] = [
    Step::Attach,
    Step::Facet,
    Step::Cut,
    Step::Back,
    Step::See,
    Step::After,
    Step::Hold,
    Step::Take,
    Step::Release,
    Step::Round,
    Step::Quit,
];

impl Step {
    ghost use Rattle.std.specs.Prelude.{◌≡◌};
    ghost use Rattle.language.specs.Verbs.{step_text};

    /// The word of the step. Costs nothing.
    pub fn word(self) -> &'static [u8]
        ensures { result.now ≡ step_text self }
    {
        match self {
            Step::Attach => b"attach",
            Step::Facet => b"facet",
            Step::Cut => b"cut",
            Step::Back => b"back",
            Step::See => b"see",
            Step::After => b"after",
            Step::Hold => b"hold",
            Step::Take => b"use",
            Step::Release => b"drop",
            Step::Round => b"round",
            Step::Quit => b"quit",
        }
    }
}
