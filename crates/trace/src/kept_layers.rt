// What a backward pass kept.
ghost use Rattle.std.specs.Prelude.{◌≤◌};
ghost use Rattle.passes.specs.Courses.{sheet_of, BackedOn};

use passes::Course;

// The layers of a backward pass from `end` on a course, four bytes to a word.
#[derive(Clone, Copy)]
pub struct Kept<'a> {
    pub course: &'a Course<'a>,
    pub words: &'a [u32],
    pub end: usize,
    pub ghost in_time: { end ≤ (sheet_of course.now).horizon },
    pub ghost backed: { BackedOn course.now end 0 words.now },
}
