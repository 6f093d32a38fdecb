// What the code of every rule stands on: a sound year on its way through a round, and what a rule on bounds tells of a term.
#![tactic(auto)]

pub mod verdicts;

ghost use Rattle.std.specs.Prelude.{◌≡◌};
ghost use Rattle.rules.specs.RuleNumbers.{rule_number};
ghost use Rattle.frame.specs.Bounds.{outcome, told};
ghost use Rattle.year.specs.Bound.{Tight, moved_of};
ghost use Rattle.year.specs.Sound.{Sound};
ghost use Rattle.year.specs.declared.Term.{Term as TermValue};

use rules::Rule;
use year::{Crossed, SoundYear, Sums, Term, Year};

// A sound year on its way through the rules, and whether something was altered. It owns all but the weights, which never change.
// Its fields are read where they stand, and written by its methods alone. No rule has found that it has no plan.
#[derive(Clone, Copy)]
pub struct State<'a> {
    pub terms: usize,
    pub courses: usize,
    pub term: [Term; Year::TERMS],
    pub weight: &'a [u32],
    pub list: [u16; Year::COURSES],
    pub sums: [Sums; Year::TERMS],
    pub altered: bool,
    pub ghost sound: { Sound (record { terms = terms; courses = courses; term = term; weight = weight.now; list = list; sums = sums }) },
}

impl<'a> State<'a> {
    ghost use Rattle.std.specs.Prelude.{◌<◌};
    ghost use Rattle.rules.specs.Step.{joined, live};
    ghost use Rattle.frame.specs.Bounds.{Fits, put_told};
    ghost use Rattle.frame.specs.State.{year_in, step_in, step_of};

    // A sound year, before the rules.
    pub fn new(y: &'a SoundYear) -> State<'a>
        ensures { step_in result ≡ live y.now.year }
    {
        let y = &y.year;
        State {
            terms: y.terms,
            courses: y.courses,
            term: y.term,
            weight: &y.weight,
            list: y.list,
            sums: y.sums,
            altered: false,
        }
    }

    // What was altered before does not count in the round that begins.
    pub fn begin_round(&mut self)
        ensures { step_in self.new ≡ live (year_in self.old) }
    {
        self.altered = false;
    }

    // Term j gets the bounds that an outcome has for it, or the rule that found no plan is the answer.
    pub fn tighten(&mut self, j: usize, outcome: Result<Option<Term>, Rule>) -> Result<(), Rule>
        requires in_range { j < self.old.terms }
        requires fits { Fits outcome }
        ensures { step_of self.new result ≡ joined (step_in self.old) (put_told (year_in self.old) j outcome) }
    {
        if let Some(term) = outcome? {
            self.term[j] = term;
            self.altered = true;
        }
        Ok(())
    }
}

// What a rule makes of a term by the tighter bounds that w tells: the bounds that it gets, if they are others. It has no plan if
// they cross or the rule itself fails.
pub fn outcome_of(
    rule: Rule,
    fails: bool,
    w: Result<Option<Term>, Crossed>,
) -> Result<Option<Term>, Rule>
    ensures { (t : TermValue) (x : Tight) → w ≡ moved_of x → result ≡ told (outcome (rule_number rule) fails t x) }
{
    if fails {
        return Err(rule);
    }
    w.map_err(|_| rule)
}
