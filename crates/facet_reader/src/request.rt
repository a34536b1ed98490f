//! What a line asks for.

use crate::{Degree, Name, Numbers, Parts, Simplices};
use simplex_order::Simplex;

/// A cochain as a line names it. Simplices and numbers stand in the order of the line, repeats kept.
#[derive(Drop)]
pub enum CochainWord {
    /// The sum modulo 2 of simplices.
    Literal {
        degree: Degree,
        simplices: Simplices,
    },
    /// The canonical cocycle of the sum of classes with these numbers; zero where there is none.
    Classes {
        degree: Degree,
        numbers: Numbers,
    },
}

/// A chain as a line names it. Simplices and numbers stand in the order of the line, repeats kept.
#[derive(Drop)]
pub enum ChainWord {
    /// The sum modulo 2 of simplices.
    Literal {
        degree: Degree,
        simplices: Simplices,
    },
    /// The sum of the cycles of the classes with these numbers; zero where there is none.
    Cycles {
        degree: Degree,
        numbers: Numbers,
    },
}

/// A question on the version in use.
#[derive(Drop)]
pub enum Compute {
    /// The number of simplices of each dimension.
    Count,
    /// The Betti numbers.
    Betti,
    /// Whether a simplex is essential.
    KindOf(Simplex),
    /// The rows of a simplex in the contraction.
    ModelOf(Simplex),
    /// The essential simplices of a dimension.
    Classes(Degree),
    /// A cochain as a literal.
    Show(CochainWord),
    /// A chain as a literal.
    ShowChain(ChainWord),
    /// The coboundary of a cochain.
    Delta(CochainWord),
    /// The boundary of a chain.
    Boundary(ChainWord),
    /// The class of a cocycle.
    ClassOf(CochainWord),
    /// The canonical bound of a coboundary.
    Bound(CochainWord),
    /// The class of the cup product.
    Cup {
        a: CochainWord,
        b: CochainWord,
    },
    /// The cup-i product of two cochains.
    CupI {
        i: Degree,
        a: CochainWord,
        b: CochainWord,
    },
    /// The Steenrod square Sq^k.
    Square {
        k: Degree,
        a: CochainWord,
    },
    /// The Bockstein.
    Bockstein(CochainWord),
    /// A bound that shows the cup products of `a` and `b`, and of `a2` and `b2`, to be of one class.
    SameCup {
        a: CochainWord,
        a2: CochainWord,
        b: CochainWord,
        b2: CochainWord,
    },
    /// A bound that shows the squares of `a` and `a2` to be of one class.
    SameSquare {
        k: Degree,
        a: CochainWord,
        a2: CochainWord,
    },
    /// A bound that shows the Bocksteins of `a` and `a2` to be of one class.
    SameBockstein {
        a: CochainWord,
        a2: CochainWord,
    },
    /// The cap product of a cochain and a chain.
    Cap {
        a: CochainWord,
        c: ChainWord,
    },
    /// Whether the complex is closed.
    Closed,
    /// Whether the links have the counts of spheres.
    Links,
    /// The pairing of Poincaré duality.
    Duality,
    /// The Wu classes.
    Wu,
    /// The Stiefel-Whitney classes.
    Sw,
    /// A Stiefel-Whitney number.
    SwNumber(Parts),
}

/// A step or a question.
#[derive(Drop)]
pub enum Request {
    /// An empty line, or a comment.
    Blank,
    /// Attach one simplex, whose faces of codimension one are there.
    Attach(Simplex),
    /// Attach simplices, in the order of the line, and those of their faces that are not there.
    Facet(Simplices),
    /// Cut a version.
    Cut,
    /// Make the simplices those of this version again.
    Back(u32),
    /// Look, and take the last version seen.
    See,
    /// Look, and take the last version seen where this many entries are seen.
    After(u32),
    /// Keep the version in use under a name.
    Hold(Name),
    /// Make a held version the one in use.
    Take(Name),
    /// Forget a name.
    Release(Name),
    /// Gather up to this many questions.
    Round(u8),
    /// End the session.
    Quit,
    /// Answer a question.
    Ask(Compute),
}

/// A request, and the caller that the line names.
#[derive(Drop)]
pub struct Asked {
    /// The caller, where the line begins with a caller word.
    pub caller: Option<u8>,
    /// The request.
    pub request: Request,
}
