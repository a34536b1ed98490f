//! Which way a product is taken.
use cochain_values::Cochain;
use complex_store::Complex;

/// The ways to take a product.
#[derive(Clone, Copy)]
pub(crate) enum Way {
    /// Each simplex of its degree.
    Simplices,
    /// Each pair of members.
    Pairs,
    /// The cofaces of the members of the first factor.
    OverFirst,
    /// The cofaces of the members of the second factor.
    OverSecond,
}

/// What a pair of members costs, and a simplex that is reached over a member, in the splittings of one simplex: of a pair a walk, and
/// a look-up where it passes; of such a simplex the cofaces on the way to it, and its own splittings.
const DEARER: usize = 8;

/// The cheapest way, as far as it can be told from the numbers of members and of simplices; so many simplices have the degree of the
/// product. A step for each degree.
pub(crate) fn cheapest(k: &Complex, i: u8, a: &Cochain, b: &Cochain, simplices: u32) -> Way {
    let ys = a.support().ids().len();
    let zs = b.support().ids().len();
    let pairs = ys.saturating_mul(zs);
    let over_first = reached(k, a, b.degree().saturating_sub(i), i == 0, simplices);
    let over_second = reached(k, b, a.degree().saturating_sub(i), false, simplices);
    let least = pairs.min(over_first).min(over_second);
    if least.saturating_mul(DEARER) > simplices as usize {
        return Way::Simplices;
    }
    if least == pairs {
        return Way::Pairs;
    }
    if over_first <= over_second {
        Way::OverFirst
    } else {
        Way::OverSecond
    }
}

/// About how many simplices are reached over the members of a cochain: as many as over an average simplex of its degree, where each of
/// these simplices has one face of the first vertices, and C(n, m) faces of the m vertices of a member among its n vertices.
fn reached(k: &Complex, a: &Cochain, more: u8, behind: bool, simplices: u32) -> usize {
    let members = a.support().ids().len();
    let faces = if behind { 1 } else { choices(a.degree(), more) };
    let all = k.count(a.degree()).max(1);
    members
        .saturating_mul(simplices as usize)
        .saturating_mul(faces)
        / (all as usize)
}

/// The number of faces of dimension p of a simplex of dimension p + more, C(p + 1 + more, more).
fn choices(p: u8, more: u8) -> usize {
    let mut number = 1_usize;
    for m in 0..more {
        let place = usize::from(m) + 1;
        number = number.saturating_mul(usize::from(p) + 1 + place) / place;
    }
    number
}
