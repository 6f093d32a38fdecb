// What rules 3 and 10 say of a whole term and of a course there, from small values alone.
ghost use Rattle.std.specs.Prelude.{◌≡◌, true, ℕ, ◌+◌, ◌<◌};
ghost use Rattle.year.specs.Year.{is_open};
ghost use Rattle.rules.specs.Lists.{verdict3};
ghost use Rattle.lists.specs.TermVerdict.{term_verdict3, term_verdict10, course_verdict};

use crate::TermVerdict;
use rules::{Rule, Verdict};
use year::{Course, Courses, Credits, Sums, Term, pairs};

// Rule 3: no open course of the term weighs more than `heaviest`, so it says nothing with room for that and enough without it.
pub fn term_verdict_3(t: Term, u: Sums, heaviest: Credits) -> Option<TermVerdict>
    requires { (u.fixed.0 + heaviest.0 < 100000) × (t.low.0 + heaviest.0 < 100000) }
    ensures { result ≡ term_verdict3 t u heaviest.0 }
{
    let nothing = u.fixed.0 + heaviest.0 <= t.high.0 && t.low.0 + heaviest.0 <= u.possible.0;
    if nothing {
        None
    } else {
        Some(TermVerdict::ByCredits)
    }
}

// Rule 10: what the term is, read once, before its courses are altered. With no open course it says nothing.
pub fn term_verdict_10(t: Term, u: Sums) -> Result<Option<TermVerdict>, Rule>
    requires { u.placed.0 + u.free.0 < 100 }
    ensures { result ≡ term_verdict10 t u }
{
    let listed = Courses(u.placed.0 + u.free.0);
    if t.most.0 < u.placed.0 || listed.0 < t.least.0 {
        return Err(Rule::CourseCounts);
    }
    if u.free.0 == 0 {
        return Ok(None);
    }
    if u.placed.0 == t.most.0 {
        return Ok(Some(TermVerdict::Full));
    }
    Ok((listed.0 == t.least.0).then_some(TermVerdict::NeedsAll))
}

// Rule 3 on an open course.
fn verdict_3(c: Course, t: Term, u: Sums) -> Verdict
    requires { u.fixed.0 + c.weight.0 < 100000 }
    ensures { (j : ℕ) → is_open c j ≡ true → result ≡ verdict3 c t u.fixed.0 u.possible.0 j }
{
    if t.high.0 < u.fixed.0 + c.weight.0 {
        return Verdict::Struck;
    }
    if u.possible.0.saturating_sub(c.weight.0) < t.low.0 {
        return Verdict::Fixed;
    }
    Verdict::Stays
}

// A course of term j, by what the rule says of the whole term.
pub fn course_verdict(whole: TermVerdict, c: Course, t: Term, u: Sums, j: usize) -> Verdict
    requires is_term { j < 16 }
    requires small { u.fixed.0 + c.weight.0 < 100000 }
    ensures { result ≡ course_verdict whole c t u.fixed.0 u.possible.0 j }
{
    if !pairs::is_open(c, j) {
        return Verdict::Stays;
    }
    match whole {
        TermVerdict::ByCredits => verdict_3(c, t, u),
        TermVerdict::Full => Verdict::Struck,
        TermVerdict::NeedsAll => Verdict::Fixed,
    }
}
