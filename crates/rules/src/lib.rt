// What the twelve rules decide, as definitions and code share it.
#![tactic(auto)]

ghost use Rattle.std.specs.Prelude.{◌≡◌};
ghost use Rattle.rules.specs.RuleNumbers.{rule_number};

use year::{Courses, Credits};

// What a rule says of a course and a term: the list stays, the term is struck, or the term alone is left.
#[derive(Clone, Copy, PartialEq, Eq)]
pub enum Verdict {
    Stays,
    Struck,
    Fixed,
}

// When a walk ends: the credits reach a number, the count does, or the next course would take the credits past it.
#[derive(Clone, Copy)]
pub enum Until {
    Credits(Credits),
    Count(Courses),
    Past(Credits),
}

// The twelve rules, 1 to 12, in the order of the paper's numbers.
#[derive(Clone, Copy, PartialEq, Eq)]
pub enum Rule {
    OwnCredits,
    OtherCredits,
    CourseCredits,
    OwnCounts,
    OtherCounts,
    LeastCount,
    MostCount,
    LeastLoad,
    MostLoad,
    CourseCounts,
    Packing,
    Neighbours,
}

impl Rule {
    // The paper's number of the rule.
    pub fn number(self) -> u32
        ensures { result ≡ rule_number self }
    {
        match self {
            Rule::OwnCredits => 1,
            Rule::OtherCredits => 2,
            Rule::CourseCredits => 3,
            Rule::OwnCounts => 4,
            Rule::OtherCounts => 5,
            Rule::LeastCount => 6,
            Rule::MostCount => 7,
            Rule::LeastLoad => 8,
            Rule::MostLoad => 9,
            Rule::CourseCounts => 10,
            Rule::Packing => 11,
            Rule::Neighbours => 12,
        }
    }
}
