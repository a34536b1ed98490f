//! The sum over the splittings of the vertices of a simplex.
ghost use Rattle.std.specs.Prelude.{◌≡◌, ℕ, ◌+◌, ◌-◌, ◌<◌, ◌≤◌, List, ◌++◌, length, take};
ghost use Rattle.std.specs.List.{remove};
ghost use Rattle.homology.specs.Complexes.{simplex_at};
ghost use Rattle.cochain_values.specs.Marks.{marked};
ghost use Rattle.products.specs.Products.{cup, value_at};
ghost use Rattle.cup_i.specs.Factors.{IsFactor};
ghost use Rattle.cup_i.specs.Splits.{IsSide, beyond, split_sum};

use crate::factor::Factor;
use complex_store::{Complex, faces};

/// A factor, and a simplex of which a face is sought, that at which the value of the factor is wanted.
#[derive(Drop)]
pub(crate) struct Side<'a> {
    pub(crate) factor: &'a Factor,
    /// The simplex, without the vertices that went to the other side alone.
    pub(crate) face: u32,
    /// How many of its vertices have still to go there.
    pub(crate) surplus: usize,
}

impl<'a> Side<'a> {
    /// The side without its next vertex, which has so many others behind it. At once.
    fn without(&self, k: &Complex, behind: usize) -> Side<'a>
        requires side { IsSide k.now self.now (behind + 1) }
        requires more { 0 < self.now.surplus }
        ensures side { IsSide k.now result behind }
        ensures factor { result.factor ≡ self.now.factor }
        ensures surplus { result.surplus + 1 ≡ self.now.surplus }
        ensures face { simplex_at k.now result.face
            ≡ remove (simplex_at k.now self.now.face) (length (simplex_at k.now self.now.face) - 1 - behind) }
    {
        Side {
            factor: self.factor,
            face: faces::without(k, self.face, behind),
            surplus: self.surplus - 1,
        }
    }

    /// Whether the value is 1 where all vertices stay. At once.
    fn at_all(&self, k: &Complex) -> bool
        requires { IsSide k.now self.now 0 }
        ensures { result ≡ value_at k.now (marked self.now.factor.now.marks.items) (simplex_at k.now self.now.face) }
    {
        self.surplus == 0 && self.factor.at(self.face)
    }

    /// Whether the value is 1 where the last vertices go, as many as have to. One step for each of these.
    fn at_front(&self, k: &Complex) -> bool
        requires { IsSide k.now self.now 0 }
        ensures { result ≡ value_at k.now (marked self.now.factor.now.marks.items)
            (take (length (simplex_at k.now self.now.face) - self.now.surplus) (simplex_at k.now self.now.face)) }
    {
        self.factor.at(faces::front(k, self.face, self.surplus))
    }
}

/// The value of the cup-i product at the simplex with this id, of the degree of the product: the sum over the splittings of its
/// vertices with `i + 1` shared ones whose sides have the widths of the factors.
pub(crate) fn product_at(k: &Complex, i: u8, first: &Factor, second: &Factor, id: u32) -> bool
    requires first { IsFactor k.now first.now }
    requires second { IsFactor k.now second.now }
    requires there { id < length k.now }
    requires first_index { i ≤ first.now.degree }
    requires second_index { i ≤ second.now.degree }
    requires degree { length (simplex_at k.now id) + i ≡ first.now.degree + second.now.degree + 1 }
    ensures { result ≡ cup k.now i (marked first.now.marks.items) (marked second.now.marks.items) id }
{
    let shared = usize::from(i) + 1;
    let near = Side {
        factor: first,
        face: id,
        surplus: second.width() - shared,
    };
    let far = Side {
        factor: second,
        face: id,
        surplus: first.width() - shared,
    };
    sum(k, &near, &far, shared, near.surplus + first.width())
}

/// The sum over the splittings of the last `rest` vertices, with which both faces end, with so many shared ones, of which the single
/// ones before the first shared one go to the near side: the next vertex is single, and left out on the far side, or shared, and
/// then the sides change over. None is single where the far side has none to spare.
fn sum(k: &Complex, near: &Side, far: &Side, shared: usize, rest: usize) -> bool
    requires near { IsSide k.now near.now rest }
    requires far { IsSide k.now far.now rest }
    requires all { near.now.surplus + far.now.surplus + shared ≡ rest }
    ensures { (u w s : List ℕ) → simplex_at k.now near.now.face ≡ u ++ s → simplex_at k.now far.now.face ≡ w ++ s → length s ≡ rest
        → result ≡ split_sum shared (beyond k.now near.now u) (beyond k.now far.now w) s }
{
    if shared == 0 {
        return near.at_all(k) && far.at_front(k);
    }
    let behind = rest - 1;
    let single = far.surplus > 0 && sum(k, near, &far.without(k, behind), shared, behind);
    let both = sum(k, far, near, shared - 1, behind);
    both != single
}
