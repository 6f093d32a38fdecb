// Rules 6 to 9: one walk over the open courses of a term, with the number of courses that each other term can still spare.
ghost use Rattle.std.specs.Prelude.{◌≡◌, true, ℕ, ◌+◌, ◌≤◌, ◌<◌, length, get_or, take};
ghost use Rattle.theory.specs.Choice.{choose};
ghost use Rattle.year.specs.Year.{is_open};
ghost use Rattle.rules.specs.Spares.{stops, spares};
ghost use Rattle.rules.specs.Step.{over_terms};
ghost use Rattle.frame.specs.State.{year_in, step_in, step_of};
ghost use Rattle.frame.specs.Bounds.{told};
ghost use Rattle.walks.specs.Sparing.{tallies_of};
ghost use Rattle.walks.specs.Walking.{taken, walk_over, reached, begun_of, until_of, ended_of, rule_of, order_of, walked_at};

use crate::{Tallies, Walk, WalkRule, spares};
use frame::State;
use rules::{Rule, Until};
use std::ops::ControlFlow;
use year::{Course, Courses, Credits, Sums, Term, Year, doors, pairs, tighter};

// ---- one walk

// The walk ends before a course of this weight.
fn stops(until: Until, credits: Credits, count: Courses, weight: Credits) -> bool
    requires { (credits.0 ≤ 1000000) × (weight.0 ≤ 1000) }
    ensures { result ≡ stops until credits.0 count.0 weight.0 }
{
    match until {
        Until::Credits(a) => a.0 <= credits.0,
        Until::Count(a) => a.0 <= count.0,
        Until::Past(a) => a.0 < credits.0 + weight.0,
    }
}

// One open course of a walk in term j: skipped if another term that lists it has nothing to spare. The stop is asked of a course
// that is skipped too, and the walk then breaks off as it is.
fn walk_step(w: Walk, c: Course, j: usize, until: Until) -> ControlFlow<Walk, Walk>
    requires room { (j < 16) × (w.credits.0 ≤ 1000000) × (w.count.0 ≤ 1000000) × (c.weight.0 ≤ 1000) }
    requires course_open { is_open c j ≡ true }
    ensures { result ≡ choose (stops until w.credits.0 w.count.0 c.weight.0) (ControlFlow.Break w) (ControlFlow.Continue (taken w c j)) }
{
    if stops(until, w.credits, w.count, c.weight) {
        return ControlFlow::Break(w);
    }
    let others = c.list - doors::power(j);
    if spares::blocked(w.spare, others) {
        return ControlFlow::Continue(w);
    }
    ControlFlow::Continue(Walk {
        spare: spares::charged(w.spare, others),
        credits: Credits(w.credits.0 + c.weight.0),
        count: Courses(w.count.0 + 1),
    })
}

// A rule and what its walks read: the order of the courses, and their weights, which are the state's.
// Tried: the weights read out of the state at each term; walks then take up to 2 in 100 instructions more.
#[derive(Clone, Copy)]
struct Way<'a> {
    rule: WalkRule,
    order: &'a [u8],
    weight: &'a [u32],
}

// The walk over the courses of an order.
fn walked(s: &State, way: Way, j: usize, until: Until, begun: Walk) -> Walk
    requires is_term { j < 16 }
    requires begins { (begun.credits.0 ≤ 64000) × (begun.count.0 ≤ 64) }
    requires weights { way.weight.now ≡ s.now.weight.now }
    requires fits { (s.now.courses ≤ length way.order.now) × ((k : ℕ) → k < s.now.courses → get_or way.order.now k 0 < s.now.courses) }
    ensures { reached result ≡ walk_over s.now.weight.now s.now.list j until (take s.now.courses way.entry.order.now) begun }
{
    let mut w = begun;
    for i in &way.order[..s.courses] {
        let c = pairs::course_in(way.weight, &s.list, usize::from(*i));
        if pairs::is_open(c, j) {
            match walk_step(w, c, j, until) {
                ControlFlow::Break(last) => return last,
                ControlFlow::Continue(next) => w = next,
            }
        }
    }
    w
}

// A walk that begins with what is fixed in its term.
fn begun(spare: [u8; Year::TERMS], u: Sums) -> Walk
    ensures { result ≡ begun_of spare u }
{
    Walk {
        spare,
        credits: u.fixed,
        count: u.placed,
    }
}

// ---- what a rule makes of it

// Two matches: two closures would have to be handed in for each rule, and each would be one of these arms.

// Where the walk of a rule ends.
fn until(rule: WalkRule, t: Term) -> Until
    ensures { result ≡ until_of rule t }
{
    match rule {
        WalkRule::LeastCount => Until::Credits(t.low),
        WalkRule::MostCount => Until::Past(t.high),
        WalkRule::LeastLoad => Until::Count(t.least),
        WalkRule::MostLoad => Until::Count(t.most),
    }
}

// What a rule makes of the credits and the count that its walk reached.
fn ended(rule: WalkRule, t: Term, w: Walk) -> Result<Option<Term>, Rule>
    ensures { result ≡ told (ended_of rule t (reached w)) }
{
    match rule {
        WalkRule::LeastCount => frame::outcome_of(
            Rule::LeastCount,
            w.credits.0 < t.low.0,
            tighter::within(t, w.count, t.most),
        ),
        WalkRule::MostCount => frame::outcome_of(
            Rule::MostCount,
            false,
            tighter::within(t, t.least, w.count),
        ),
        WalkRule::LeastLoad => frame::outcome_of(
            Rule::LeastLoad,
            w.count.0 < t.least.0,
            tighter::within(t, w.credits, t.high),
        ),
        WalkRule::MostLoad => frame::outcome_of(
            Rule::MostLoad,
            false,
            tighter::within(t, t.low, w.credits),
        ),
    }
}

// A rule at term j: its walk, which is over at once where no course is open, and what it makes of it.
fn by_walk(s: &State, way: Way, j: usize, spare: [u8; Year::TERMS]) -> Result<Option<Term>, Rule>
    requires in_range { j < s.now.terms }
    requires weights { way.weight.now ≡ s.now.weight.now }
    requires in_order { way.order.now ≡ order_of way.rule (year_in s.now) }
    requires set_up { spare ≡ spares (year_in s.now) }
    ensures { result ≡ told (walked_at way.entry.rule (year_in s.now) j) }
{
    let (t, u) = (s.term[j], s.sums[j]);
    let w = begun(spare, u);
    if u.free.0 == 0 {
        return ended(way.rule, t, w);
    }
    ended(way.rule, t, walked(s, way, j, until(way.rule, t), w))
}

// A rule over the terms. Each term's walk has its spares set up afresh, from the low counts as they stand by then.
pub fn walk_rule(s: &mut State, rule: WalkRule, order: &[u8], tallies: Tallies) -> Result<(), Rule>
    requires in_order { order.now ≡ order_of rule (year_in s.old) }
    requires tallied { tallies ≡ tallies_of s.old.sums }
    ensures { step_of s.new result ≡ over_terms (rule_of rule) (step_in s.old) }
{
    let weight = s.weight;
    let way = Way {
        rule,
        order,
        weight,
    };
    let mut least = spares::low_counts(&s.term);
    for j in 0..s.terms {
        let spare = spares::spares(tallies, least);
        let outcome = by_walk(s, way, j, spare);
        s.tighten(j, outcome)?;
        least[j] = s.term[j].least.0 as u8;
    }
    Ok(())
}
