// The causes for which the single-path call declines, in document 01's order.
#![tactic(auto)]

ghost use Rattle.std.specs.Prelude.{◌≡◌, ◌/◌, ◌<◌, length};
ghost use Rattle.deck.specs.Causes.{answer_unless};
ghost use Rattle.deck.specs.Sheet.{read};
ghost use Rattle.deck.specs.Calls.{good_tail, good_record, good_records, path_cause};

use deck::{Carrier, Cause, Task};
use sheet::AcceptedSheet;

// The last two words of a record of the kind: of a place constraint v is 0 and t at most H, of a move constraint v is on the
// grid and t below H.
fn good_tail(sheet: AcceptedSheet, kind: usize, v: usize, t: usize) -> bool
    ensures { result ≡ good_tail (read sheet.entry.bytes.now) kind v t }
{
    match kind {
        0 => v == 0 && t <= sheet.horizon(),
        _ => v < sheet.area() && t < sheet.horizon(),
    }
}

// The record k keeps the rules of cause 9.
// Kept: the list and a record's number, as the definition has them; a slice of five words would have to be said to be that record.
#[tactic(auto, unfolding(deck::specs::Calls::good_record))]
fn good_record(sheet: AcceptedSheet, records: &[u16], k: usize) -> bool
    requires { (k < 4096) × (k < length records.now / 5) }
    ensures { result ≡ good_record (read sheet.entry.bytes.now) records.now k }
{
    let word = |n: usize| usize::from(records[5 * k + n]);
    word(0) <= 1
        && word(1) < sheet.count()
        && word(2) < sheet.area()
        && good_tail(sheet, word(0), word(3), word(4))
}

// The list of records keeps the rules of cause 9.
#[tactic(auto, unfolding(deck::specs::Calls::good_records))]
fn good_records(sheet: AcceptedSheet, records: &[u16]) -> bool
    ensures { result ≡ good_records (read sheet.entry.bytes.now) records.now }
{
    let n = records.len() / 5;
    if records.len() % 5 != 0 || 4096 < n {
        return false;
    }
    (0..n).all(|k| good_record(sheet, records, k))
}

// The first cause that holds. `work` and `out` are the numbers of words lent.
#[tactic(auto, using(meaning::proofs::Dark::with_carriers), unfolding(deck::specs::Calls::path_cause))]
pub fn check(
    s: &[u8],
    i: Carrier,
    j: Task,
    work: usize,
    out: usize,
    records: &[u16],
) -> Result<(), Cause>
    ensures { result ≡ answer_unless (path_cause s.now i j work out records.now) tt }
{
    sheet_causes::check(s)?;
    let m = sheet::count(s);
    if m <= i.0 || m <= j.0 {
        return Err(Cause::BadNumber);
    }
    if !good_records(AcceptedSheet::new(s), records) {
        return Err(Cause::BadRecords);
    }
    let room = sheet::workspace(s);
    let words = sheet::horizon(s) + 1;
    if work < room {
        return Err(Cause::ShortWorkspace);
    }
    if out < words {
        return Err(Cause::WrongLength);
    }
    Ok(())
}
