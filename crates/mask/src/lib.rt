// The mask of an accepted sheet: which places are free, and by which ways they may be left, on the padded grid.
#![tactic(auto)]

ghost use Rattle.std.specs.Prelude.{◌≡◌, true, cond, ◌+◌, ◌-◌, ◌≤◌, max, length, get_or, replicate, eqb};
ghost use Rattle.std.specs.List.{fold};
ghost use Rattle.deck.specs.Sheet.{read};
ghost use Rattle.bars.specs.Padded.{shade_of, MaskOf};
ghost use Rattle.layers.specs.Fill.{Filled};
ghost use Rattle.mask.specs.Mask.{Plain};

use bars::{CELLS, Layer};
use sheet::AcceptedSheet;

// x where the byte b is k, else y.
fn either(b: u8, k: u8, x: u8, y: u8) -> u8
    ensures { result ≡ cond (eqb b k) x y }
{
    if b == k { x } else { y }
}

// What the mask says of a grid byte: 0 blocked, 255 free, else the bits of the ways by which a lane may be left. Written without
// branches on the byte, so that the compiler turns a row into vector code; without lanes one test is enough. Kept: the flag, as in `mask_row`.
fn shade(b: u8, plain: bool) -> u8
    requires { plain ≡ true → b ≤ 1 }
    ensures { result ≡ shade_of b }
{
    if plain {
        return either(b, 1, 0, 255);
    }
    let west = either(b, 5, 230, 255);
    let south = either(b, 4, 244, west);
    let east = either(b, 3, 236, south);
    let north = either(b, 2, 229, east);
    either(b, 1, 0, north)
}

// One row of the mask, of these grid bytes, at the padded place `at`. Kept: the place beside the bytes, and an index from there: the clause
// says what stands in the whole mask, and the law of a list that is filled in order serves it. Kept: a flag, found once for the grid; the
// compiler takes its test out of the loop.
fn mask_row(row: &[u8], at: usize, plain: bool, mask: &mut Layer)
    requires { (at + length row.now ≤ 1156) × (plain ≡ true → Plain row.now) }
    ensures { Filled at (at + length row.now) (λ p. shade_of (get_or row.now (p - at) 0)) mask.old mask.new }
{
    for (x, b) in row.iter().enumerate() {
        mask[at + x] = shade(*b, plain);
    }
}

// The greatest of the bytes: without a branch on them, so that the compiler turns it into vector code.
fn greatest(bytes: &[u8]) -> u8
    ensures { result ≡ fold max 0 bytes.now }
{
    bytes.iter().fold(0, |most, b| most.max(*b))
}

// The grid's bytes.
fn grid_of<'a>(sheet: &AcceptedSheet<'a>) -> &'a [u8]
    ensures { result.now ≡ (read sheet.now.bytes.now).grid }
{
    let from = sheet.grid_offset();
    &sheet.bytes[from..from + sheet.area()]
}

// Makes zeros the mask of an accepted sheet: on the padded grid, 0 off the grid. In place, since a copy would cost a short path a
// measurable part of its time. Kept: rows at a product, here of the lent sheet; and `MaskOf`, here and where others ask for it, since the
// mask is an array that is filled in place.
pub fn fill(sheet: &AcceptedSheet, mask: &mut Layer)
    requires { mask.old ≡ replicate 1156 0 }
    ensures { MaskOf (read sheet.now.bytes.now) mask.new }
{
    let w = sheet.width();
    let grid = grid_of(sheet);
    let plain = greatest(grid) < 2;
    for y in 0..sheet.height() {
        let row = &grid[y * w..y * w + w];
        mask_row(row, y * (w + 2) + w + 3, plain, mask);
    }
}

// The mask of an accepted sheet.
pub fn mask_of(sheet: &AcceptedSheet) -> Layer
    ensures { MaskOf (read sheet.now.bytes.now) result }
{
    let mut mask = [0u8; CELLS];
    fill(sheet, &mut mask);
    mask
}
