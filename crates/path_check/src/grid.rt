// The grid of an accepted sheet, and the steps on it.
ghost use Rattle.std.specs.Prelude.{◌≡◌, suc, ◌+◌, ◌/◌, ◌%◌, ◌<◌, true, false, ℕ, get_or, eqb, length};
ghost use Rattle.deck.specs.Sheet.{read, grid_byte, free};
ghost use Rattle.deck.specs.Paths.{one_apart, next_to, may_leave, beside, may_step};
ghost use Rattle.deck.specs.PlanCheck.{follows};
ghost use Rattle.path_check.specs.Grids.{GridOf};

use sheet::AcceptedSheet;
use sheet_parts::GRID;

// The grid's bytes and its width stand beside the sheet, so that the sheet's directory is not read for every step.
#[derive(Clone, Copy)]
pub struct Grid<'a> {
    sheet: &'a [u8],
    bytes: &'a [u8],
    width: usize,
    ghost of_sheet: { GridOf (read sheet.now) width bytes.now },
    ghost has_columns: { 0 < width },
}

// Of two rows or columns, one follows the other.
#[tactic(auto, unfolding(deck::specs::Paths::one_apart))]
fn one_apart(a: usize, b: usize) -> bool
    ensures { result ≡ one_apart a b }
{
    a.abs_diff(b) == 1
}

impl<'a> Grid<'a> {
    pub fn new(sheet: AcceptedSheet<'a>) -> Self
        ensures { result.sheet ≡ sheet.entry.bytes }
    {
        Grid {
            sheet: sheet.bytes,
            bytes: sheet_parts::stretch(sheet.bytes, GRID),
            width: sheet.width(),
        }
    }

    // The grid byte of the place v, 0 past the grid.
    // Kept: 0 as in the definition `grid_byte`, which `may_leave` asks of the place that is left, whatever its number.
    fn byte(self, v: u16) -> u8
        ensures { result ≡ grid_byte (read self.entry.sheet.now) v }
    {
        self.bytes.get(usize::from(v)).map_or(0, |byte| *byte)
    }

    // v is a place of the grid that is not blocked.
    fn is_free(self, v: u16) -> bool
        ensures { result ≡ free (read self.entry.sheet.now) v }
    {
        self.bytes
            .get(usize::from(v))
            .is_some_and(|byte| *byte != 1)
    }

    // v is next to u in the same row or column.
    #[tactic(auto, unfolding(deck::specs::Paths::next_to))]
    fn next_to(self, u: u16, v: u16) -> bool
        ensures { result ≡ next_to self.entry.width u v }
    {
        let w = self.width;
        let (u, v) = (usize::from(u), usize::from(v));
        u / w == v / w && one_apart(u % w, v % w) || u % w == v % w && one_apart(u / w, v / w)
    }

    // A place u with the grid byte b may be left to v: a lane only to the north, east, south or west, any other place to every side.
    #[tactic(auto, unfolding(deck::specs::Paths::may_leave))]
    fn may_leave(self, b: u8, u: u16, v: u16) -> bool
        ensures { result ≡ may_leave self.entry.width b u v }
    {
        let w = self.width;
        let (u, v) = (usize::from(u), usize::from(v));
        match b {
            2 => v / w + 1 == u / w,
            3 => u % w + 1 == v % w,
            4 => u / w + 1 == v / w,
            5 => v % w + 1 == u % w,
            _ => true,
        }
    }

    // v is beside u, seen from u: next to it, and u may be left to it.
    #[tactic(auto, unfolding(deck::specs::Paths::beside))]
    fn is_beside(self, u: u16, v: u16) -> bool
        ensures { result ≡ beside (read self.entry.sheet.now) u v }
    {
        self.next_to(u, v) && self.may_leave(self.byte(u), u, v)
    }

    // A step may go from u to v.
    #[tactic(auto, unfolding(deck::specs::Paths::may_step))]
    fn may_step(self, u: u16, v: u16) -> bool
        ensures { result ≡ may_step (read self.entry.sheet.now) u v }
    {
        u == v || self.is_free(v) && self.is_beside(u, v)
    }

    // Each place of the path is a step from the one before.
    pub fn follows(self, path: &[u16]) -> bool
        ensures passed { result ≡ true → (t : ℕ) → t + 1 < length path.now → may_step (read self.entry.sheet.now) (get_or path.now t 0) (get_or path.now (t + 1) 0) ≡ true }
        ensures failed { result ≡ false → (t : ℕ) × (t + 1 < length path.now) × (may_step (read self.entry.sheet.now) (get_or path.now t 0) (get_or path.now (t + 1) 0) ≡ false) }
    {
        path.windows(2).all(|step| self.may_step(step[0], step[1]))
    }
}
