// What the search goes by.
ghost use Rattle.std.specs.Prelude.{◌≡◌};
ghost use Rattle.deck.specs.Sheet.{read};
ghost use Rattle.deck.specs.Assignments.{table_of};
ghost use Rattle.bars.specs.Padded.{MaskOf};
ghost use Rattle.prices.specs.Square.{copied};
ghost use Rattle.scratch.specs.Bounded.{Bounded};

use bars::Layer;
use sheet::AcceptedSheet;

// An accepted sheet and its mask, the working copy of its table of finishes, and the lower bounds of its tasks.
#[derive(Clone, Copy)]
pub struct Given<'a> {
    pub sheet: &'a AcceptedSheet<'a>,
    pub mask: &'a Layer,
    pub table: &'a [u16; 144],
    pub bounds: &'a [u8],
    pub ghost masked: { MaskOf (read sheet.now.bytes.now) mask.now },
    pub ghost table_is: { copied (read sheet.now.bytes.now).count table.now ≡ table_of (read sheet.now.bytes.now) },
    pub ghost bounded: { Bounded (read sheet.now.bytes.now) bounds.now },
}
