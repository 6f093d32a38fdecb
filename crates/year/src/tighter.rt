// A term's bounds made tighter: the rules and the narrowings of bounds stand on this.
ghost use Rattle.std.specs.Prelude.{◌≡◌, ℕ};
ghost use Rattle.year.specs.Bound.{bound_of, with_bound, largest_bound, tightened, moved_of};
ghost use Rattle.year.specs.Within.{within};
ghost use Rattle.year.specs.declared.Quantity.{Quantity};
ghost use Rattle.year.specs.declared.Quantity.TheVariants as quantity;
ghost use Rattle.year.specs.declared.Side.TheVariants as side;

use crate::{Courses, Credits, Crossed, Side, Term, Year};

// What a bound is counted in: credits, or courses. A term has a low and a high bound of each.
pub trait Amount: Copy {
    ghost quantity: { Quantity };

    ghost number: { Self → ℕ };

    fn number(self) -> u32
        ensures { result ≡ number self };

    // No bound is larger.
    fn largest() -> Self
        ensures { number result ≡ largest_bound quantity };

    fn low(t: Term) -> Self
        ensures { number result ≡ bound_of side.Low quantity t };

    fn high(t: Term) -> Self
        ensures { number result ≡ bound_of side.High quantity t };

    // The term with both bounds replaced.
    fn bounded(t: Term, low: u32, high: u32) -> Term
        ensures { result ≡ with_bound side.High quantity (with_bound side.Low quantity t low) high };
}

impl Amount for Credits {
    ghost quantity = { quantity.Credits };

    ghost number = { λ v. v.0 };

    fn number(self) -> u32 {
        self.0
    }

    fn largest() -> Credits {
        Year::CREDITS
    }

    fn low(t: Term) -> Credits {
        t.low
    }

    fn high(t: Term) -> Credits {
        t.high
    }

    fn bounded(t: Term, low: u32, high: u32) -> Term {
        Term {
            low: Credits(low),
            high: Credits(high),
            ..t
        }
    }
}

impl Amount for Courses {
    ghost quantity = { quantity.Counts };

    ghost number = { λ v. v.0 };

    fn number(self) -> u32 {
        self.0
    }

    fn largest() -> Courses {
        Year::COUNT
    }

    fn low(t: Term) -> Courses {
        t.least
    }

    fn high(t: Term) -> Courses {
        t.most
    }

    fn bounded(t: Term, low: u32, high: u32) -> Term {
        Term {
            least: Courses(low),
            most: Courses(high),
            ..t
        }
    }
}

// The low bound raised to a, the high bound lowered to b: the tighter term, where one moved.
pub fn within<A: Amount>(t: Term, a: A, b: A) -> Result<Option<Term>, Crossed>
    ensures { result ≡ moved_of (within A.quantity t (A.number a) (A.number b)) }
{
    let (low, high) = (A::low(t).number(), A::high(t).number());
    let (a, b) = (a.number(), b.number());
    let raised = low.max(a);
    let lowered = high.min(b);
    if lowered < raised {
        return Err(Crossed);
    }
    let moved = (low < a) | (b < high);
    Ok(moved.then_some(A::bounded(t, raised, lowered)))
}

// The bound on one side moved to v, where that is tighter.
#[tactic(auto, using(crate::proofs::BoundLaws::within_raise, crate::proofs::BoundLaws::within_lower))]
pub fn tighten<A: Amount>(side: Side, t: Term, v: A) -> Result<Option<Term>, Crossed>
    ensures { result ≡ moved_of (tightened side A.quantity t (A.number v)) }
{
    match side {
        Side::Low => within(t, v, A::high(t)),
        Side::High => within(t, A::low(t), v),
    }
}
