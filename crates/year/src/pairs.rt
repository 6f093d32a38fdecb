// A year's courses as pairs of a weight and a list.
ghost use Rattle.std.specs.Prelude.{◌≡◌, ◌<◌, length};
ghost use Rattle.year.specs.Year.{course_of, course_in, course_at, is_fixed, is_open};

use crate::{Course, Credits, Year, doors};

// The course of a weight and a list.
pub fn course_of(weight: u32, list: u16) -> Course
    ensures { result ≡ course_of weight list }
{
    Course {
        weight: Credits(weight),
        list,
    }
}

// Course i out of the two columns.
pub fn course_in(weight: &[u32], list: &[u16], i: usize) -> Course
    requires { (i < length weight.now) × (i < length list.now) }
    ensures { result ≡ course_in weight.now list.now i }
{
    course_of(weight[i], list[i])
}

// Term j is the course's only one.
pub fn is_fixed(c: Course, j: usize) -> bool
    requires { j < 16 }
    ensures { result ≡ is_fixed c j }
{
    c.list == doors::power(j)
}

// The course lists term j and some other term.
pub fn is_open(c: Course, j: usize) -> bool
    requires { j < 16 }
    ensures { result ≡ is_open c j }
{
    doors::lists(c.list, j) & !is_fixed(c, j)
}

impl Year {
    // Course i with its weight and its list, or zeros where the largest year has no such course.
    pub fn course(self, i: usize) -> Course
        ensures { result ≡ course_at self i }
    {
        if i < Year::COURSES {
            return course_of(self.weight[i], self.list[i]);
        }
        course_of(0, 0)
    }
}
