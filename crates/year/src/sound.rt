// Soundness of a year value, entry by entry.
ghost use Rattle.std.specs.Prelude.{◌≡◌, ◌≤◌, ltb, true};
ghost use Rattle.theory.specs.Choice.{choose};
ghost use Rattle.theory.specs.Tests.{all};
ghost use Rattle.year.specs.Sound.{term_sound, course_sound, term_blank, course_blank, term_good, course_good, sound_but_sums, sums_good, is_sound};
ghost use Rattle.year.specs.SoundYear.{if_sound, year_inside};

use crate::{Course, SoundYear, Term, Year, pairs, summing};

fn term_sound(t: Term) -> bool
    ensures { result ≡ term_sound t }
{
    (t.low.0 <= t.high.0)
        & (t.high.0 <= Year::CREDITS.0)
        & (t.least.0 <= t.most.0)
        & (t.most.0 <= Year::COUNT.0)
}

fn term_blank(t: Term) -> bool
    ensures { result ≡ term_blank t }
{
    (t.low.0 == 0) & (t.high.0 == 0) & (t.least.0 == 0) & (t.most.0 == 0)
}

fn course_sound(c: Course, terms: usize) -> bool
    requires { terms ≤ 16 }
    ensures { result ≡ course_sound c terms }
{
    (1 <= c.weight.0)
        & (c.weight.0 <= Year::WEIGHT.0)
        & (1 <= c.list)
        & (u32::from(c.list) >> terms == 0)
}

fn course_blank(c: Course) -> bool
    ensures { result ≡ course_blank c }
{
    (c.weight.0 == 0) & (c.list == 0)
}

fn term_good(t: Term, j: usize, terms: usize) -> bool
    ensures { result ≡ choose (ltb j terms) (term_sound t) (term_blank t) }
{
    if j < terms {
        term_sound(t)
    } else {
        term_blank(t)
    }
}

fn course_good(c: Course, i: usize, courses: usize, terms: usize) -> bool
    requires { terms ≤ 16 }
    ensures { result ≡ choose (ltb i courses) (course_sound c terms) (course_blank c) }
{
    if i < courses {
        course_sound(c, terms)
    } else {
        course_blank(c)
    }
}

fn terms_good(y: &Year) -> bool
    ensures { result ≡ all 16 (term_good y.now) }
{
    let mut good = true;
    for j in 0..Year::TERMS {
        good = good & term_good(y.term[j], j, y.terms);
    }
    good
}

fn courses_good(y: &Year) -> bool
    requires { y.now.terms ≤ 16 }
    ensures { result ≡ all 64 (course_good y.now) }
{
    let mut good = true;
    for i in 0..Year::COURSES {
        let c = pairs::course_of(y.weight[i], y.list[i]);
        good = good & course_good(c, i, y.courses, y.terms);
    }
    good
}

// The year value is sound, whatever its sums are.
pub fn is_sound_but_sums(y: &Year) -> bool
    ensures { result ≡ sound_but_sums y.now }
{
    let sized = (1 <= y.terms) & (y.terms <= Year::TERMS) & (y.courses <= Year::COURSES);
    sized && terms_good(y) && courses_good(y)
}

// The sums of all sixteen entries are those over the lists.
fn sums_good(y: &Year) -> bool
    requires { sound_but_sums y.now ≡ true }
    ensures { result ≡ all 16 (sums_good y.now) }
{
    y.sums == summing::sums_over(&y.weight[..y.courses], &y.list[..y.courses], y.terms)
}

impl Year {
    // The year value is sound.
    pub fn is_sound(&self) -> bool
        ensures { result ≡ is_sound self.now }
    {
        is_sound_but_sums(self) && sums_good(self)
    }

    // This year as one that is known to be sound, or none where it is not.
    pub fn sound(self) -> Option<SoundYear>
        ensures { year_inside result ≡ if_sound self }
    {
        if !self.is_sound() {
            return None;
        }
        Some(SoundYear { year: self })
    }
}

// The same of a year by value.
pub fn is_sound(y: Year) -> bool
    ensures { result ≡ is_sound y }
{
    y.is_sound()
}
