// One round in two halves, and rounds in a row.
ghost use Rattle.std.specs.Prelude.{◌≡◌, ℕ, ◌≤◌, ◌<◌, IfSome, Some, get_or, length};
ghost use Rattle.year.specs.Sums.{all_credits};
ghost use Rattle.orders.specs.Orders.{orders_in, orders_of};
ghost use Rattle.rules.specs.Round.{round};
ghost use Rattle.rules.specs.Step.{live};
ghost use Rattle.frame.specs.State.{year_in, step_in, step_of};
ghost use Rattle.filter.specs.Halves.{first_half, second_half};
ghost use Rattle.filter.specs.Filter.{at_rest, rounds_from};

use crate::{Answer, Filtered};
use frame::State;
use orders::Orders;
use rules::Rule;
use year::{Credits, SoundYear, Year};

// Rules 1 to 5 in order, up to one that finds no plan.
fn first_half(s: &mut State, all: Credits) -> Result<(), Rule>
    requires unaltered { step_in s.old ≡ live (year_in s.old) }
    requires all_of_them { all.0 ≡ all_credits (year_in s.old) }
    ensures { step_of s.new result ≡ first_half (year_in s.old) }
{
    bounds::rules_1_2(s, all)?;
    lists::rule_3(s);
    bounds::rules_4_5(s)
}

// Rules 6 to 10, then 12, then 11, up to one that finds no plan.
fn second_half(s: &mut State, o: &Orders) -> Result<(), Rule>
    requires in_order { o.now ≡ orders_of (year_in s.old) }
    ensures { step_of s.new result ≡ second_half (step_in s.old) }
{
    walks::rules_6_to_9(s, &o.down, &o.up)?;
    lists::rule_10(s)?;
    neighbours::rule_12(s, &o.up)?;
    packing::rule_11(s, &o.up)
}

// A round. The orders of the courses are computed in the first and kept from then on; a year that the first half of its first round
// ends needs none.
fn round(s: &mut State, all: Credits, kept: &mut Option<Orders>) -> Result<(), Rule>
    requires unaltered { step_in s.old ≡ live (year_in s.old) }
    requires all_of_them { all.0 ≡ all_credits (year_in s.old) }
    requires in_order { IfSome kept.old (λ o. o ≡ orders_of (year_in s.old)) }
    ensures step { step_of s.new result ≡ round (year_in s.old) }
    ensures in_order { IfSome kept.new (λ o. o ≡ orders_of (year_in s.old)) }
{
    first_half(s, all)?;
    let o = orders_kept(kept, &s.weight[..s.courses]);
    second_half(s, &o)
}

// The orders of the courses of these weights, computed where they are not kept yet.
fn orders_kept(kept: &mut Option<Orders>, weight: &[u32]) -> Orders
    requires few { length weight.now ≤ 64 }
    requires light { (i : ℕ) → i < length weight.now → get_or weight.now i 0 ≤ 1000 }
    requires in_order { IfSome kept.old (λ o. o ≡ orders_in weight.now (length weight.now)) }
    ensures value { result ≡ orders_in weight.now (length weight.now) }
    ensures in_order { kept.new ≡ Some (orders_in weight.now (length weight.now)) }
{
    *kept.get_or_insert_with(|| orders::orders_of(weight))
}

// The year of a state, with the weights of y, which it was lent.
fn year_in(s: &State, y: &SoundYear) -> SoundYear
    requires { s.now.weight.now ≡ y.now.year.weight }
    ensures { result.year ≡ year_in s.now }
{
    let year = Year {
        terms: s.terms,
        courses: s.courses,
        term: s.term,
        weight: y.year.weight,
        list: s.list,
        sums: s.sums,
    };
    SoundYear { year }
}

// The answer of a year at rest after n rounds.
fn at_rest(z: &SoundYear, n: u32) -> Answer
    ensures { result ≡ at_rest z.now.year n }
{
    if totals::all_placed(z) {
        return Answer::Settled(n);
    }
    Answer::Open(n)
}

// Rounds until one alters nothing or finds no plan.
pub fn run(y: SoundYear) -> Filtered
    ensures { result ≡ rounds_from 1025985 y.year y.year 0 }
{
    let all = totals::all_credits(&y);
    let mut kept = None;
    let mut s = State::new(&y);
    let mut n: u32 = 0;
    loop {
        n += 1;
        if let Err(rule) = round(&mut s, all, &mut kept) {
            let answer = Answer::NoPlan(rule, n);
            return Filtered {
                answer,
                year: y.year,
            };
        }
        if !s.altered {
            let z = year_in(&s, &y);
            let answer = at_rest(&z, n);
            return Filtered {
                answer,
                year: z.year,
            };
        }
        s.begin_round();
    }
}
