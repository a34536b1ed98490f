//! Answers to questions: what is shown, or why nothing is.

use class_solver::ClassWord;
use simplex_order::Simplex;

/// What is shown. Simplices stand in simplex order, but for those of `Essential`.
#[derive(Drop)]
pub enum Shown {
    /// A number for each dimension from 0 to the largest; or one number alone.
    Numbers(Vec<u32>),
    /// A simplex, and whether it is essential.
    Kind {
        /// The simplex.
        simplex: Simplex,
        /// Whether a class was born with it that no simplex has killed.
        essential: bool,
    },
    /// The rows of a simplex in the contraction.
    Maps {
        /// The simplex.
        simplex: Simplex,
        /// Its f, of its dimension.
        f: Vec<Simplex>,
        /// Its phi, one dimension up.
        phi: Vec<Simplex>,
    },
    /// The essential simplices of a dimension.
    Essential {
        /// The dimension.
        degree: u8,
        /// The simplices, in the order of attachment.
        simplices: Vec<Simplex>,
    },
    /// A cochain.
    Cochain {
        /// Its degree.
        degree: u8,
        /// The simplices at which its value is 1.
        simplices: Vec<Simplex>,
    },
    /// A chain.
    Chain {
        /// Its degree.
        degree: u8,
        /// Its members.
        simplices: Vec<Simplex>,
    },
    /// A class of cocycles.
    Class(ClassWord),
    /// A class of cocycles for each degree from 0.
    Words(Vec<ClassWord>),
    /// For each degree from 0 the pairing of its classes with those of the complementary degree: a row for each class of the degree.
    Rows(Vec<Vec<Vec<bool>>>),
    /// A value modulo 2.
    Bit(bool),
    /// No more than the question: it is so.
    Passed,
}

/// Why nothing is shown.
#[derive(Drop)]
pub enum Why {
    /// This simplex is not there.
    NotThere(Simplex),
    /// This simplex has another dimension than the degree of the word that lists it.
    Degree(Simplex),
    /// No class of the degree has this number.
    NoClass(u32),
    /// The cochain is no cocycle: this is the first simplex at which its coboundary is 1.
    NotCocycle(Simplex),
    /// The cocycle is no coboundary: this is the essential simplex of the first class of its class word.
    Differs(Simplex),
    /// These two degrees do not fit.
    Degrees {
        /// The first of them.
        first: u8,
        /// The second of them.
        second: u8,
    },
    /// The complex is empty.
    Nothing,
    /// This is the first simplex that lies in none of the dimension of the complex.
    NotPure(Simplex),
    /// A simplex of one dimension less than that of the complex does not lie in two of its dimension.
    Ridge {
        /// The first such simplex.
        simplex: Simplex,
        /// In how many it lies.
        times: u32,
    },
    /// The link of a simplex has not the Betti numbers of a sphere.
    Link {
        /// The first such simplex.
        simplex: Simplex,
        /// The Betti numbers of its link.
        betti: Vec<u32>,
    },
    /// This is the first class that pairs to zero with every class of the complementary degree.
    Degenerate(ClassWord),
    /// The listed degrees have another sum than the dimension of the complex.
    Sum {
        /// Their sum.
        sum: u32,
        /// The dimension.
        dim: u8,
    },
}

/// The answer to a question.
#[derive(Drop)]
pub enum Answer {
    /// This is shown.
    Done(Shown),
    /// Nothing is shown, since this is so.
    Refused(Why),
}
