// The assignments in order.
ghost use Rattle.planner.specs.Exports.{InOrderExport};

use numbers::number;

// The numbers: cause, how many assignments are listed.
#[unsafe(no_mangle)]
pub extern "C" fn planner_assignments_in_order(
    m: u8,
    table: &[u16],
    work: &mut [u32],
    lists: &mut [u8],
    numbers: &mut [u32; 2],
)
    ensures { InOrderExport m table.now work.old lists.old work.new lists.new numbers.new }
{
    *numbers = match in_order::in_order(m, table, work, lists) {
        Ok(count) => [0, count as u32],
        Err(cause) => [number(cause), 0],
    };
}
