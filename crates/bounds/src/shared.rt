// What the terms share out: all credits, for rules 1 and 2, or all courses, for rules 4 and 5. A term has sums of each.
ghost use Rattle.std.specs.Prelude.{◌≡◌, ◌≤◌};
ghost use Rattle.year.specs.declared.Side.TheVariants as side;
ghost use Rattle.rules.specs.RuleNumbers.{rule_number};
ghost use Rattle.bounds.specs.AtTerm.{own_number, other_number, fixed_among, possible_among, total_in};

use crate::Totals;
use rules::Rule;
use year::tighter::Amount;
use year::{Courses, Credits, Sums};

pub trait Shared: Amount {
    fn of(n: u32) -> Self
        ensures { Self.number result ≡ n };

    // The rule on a term's own sums, and the one on the other terms.
    fn own_rule() -> Rule
        ensures { rule_number result ≡ own_number Self.quantity };

    fn other_rule() -> Rule
        ensures { rule_number result ≡ other_number Self.quantity };

    // What is fixed in a term, and what is fixed or open.
    fn fixed(u: Sums) -> Self
        ensures { Self.number result ≡ fixed_among Self.quantity u };

    fn possible(u: Sums) -> Self
        requires few { (u.placed.0 ≤ 64) × (u.free.0 ≤ 64) }
        ensures { Self.number result ≡ possible_among Self.quantity u };

    // The sums of the low and of the high bounds over all terms.
    fn lows(x: Totals) -> u32
        ensures { result ≡ total_in side.Low Self.quantity x };

    fn highs(x: Totals) -> u32
        ensures { result ≡ total_in side.High Self.quantity x };
}

impl Shared for Credits {
    fn of(n: u32) -> Credits {
        Credits(n)
    }

    fn own_rule() -> Rule {
        Rule::OwnCredits
    }

    fn other_rule() -> Rule {
        Rule::OtherCredits
    }

    fn fixed(u: Sums) -> Credits {
        u.fixed
    }

    fn possible(u: Sums) -> Credits {
        u.possible
    }

    fn lows(x: Totals) -> u32 {
        x.low.0
    }

    fn highs(x: Totals) -> u32 {
        x.high.0
    }
}

impl Shared for Courses {
    fn of(n: u32) -> Courses {
        Courses(n)
    }

    fn own_rule() -> Rule {
        Rule::OwnCounts
    }

    fn other_rule() -> Rule {
        Rule::OtherCounts
    }

    fn fixed(u: Sums) -> Courses {
        u.placed
    }

    fn possible(u: Sums) -> Courses {
        Courses(u.placed.0 + u.free.0)
    }

    fn lows(x: Totals) -> u32 {
        x.least.0
    }

    fn highs(x: Totals) -> u32 {
        x.most.0
    }
}
