// Mending the counts of a sheet after one changed cell: the lent sheet is checked, the water of the changed cell is followed once to see
// whether it comes back, and then the cell is taken out of the counts with its old code and put in with its new one.
#![tactic(auto)]

mod error;

ghost use Rattle.std.specs.Prelude.{◌≡◌, ◌*◌, ◌<◌, length};
ghost use Rattle.sheet.specs.Sheet.{SheetCounts};
ghost use Rattle.mend.specs.Mend.{MendPromise, MendCell, MendChange, ends};
ghost use Rattle.mend.specs.Reply.{mend_reply};

pub use crate::error::MendError;
use checking::check;
use mend_moves::{look_ahead, put_in, take_out};
use sheet::compass::is_code;
use sheet::shape::Sheet;

// Stores the new code of one cell and mends the counts, or refuses and leaves both as they were lent.
pub fn mend(
    rows: usize,
    cols: usize,
    grid: &mut [u8],
    counts: &mut [u32],
    place: usize,
    code: u8,
) -> Result<(), MendError>
    ensures { MendPromise rows cols grid.old counts.old place code (ends (mend_reply result) grid.new counts.new) }
{
    check(rows, cols, grid, counts)?;
    mend_cell(Sheet { rows, cols }, grid, counts, place, code)
}

// The same where the lent sheet is right.
fn mend_cell(
    sheet: Sheet,
    codes: &mut [u8],
    counts: &mut [u32],
    place: usize,
    code: u8,
) -> Result<(), MendError>
    requires codes_len { length codes.old ≡ sheet.rows * sheet.cols }
    requires counts_len { length counts.old ≡ sheet.rows * sheet.cols }
    requires sheet_counts { SheetCounts sheet.rows sheet.cols codes.old counts.old }
    ensures { MendCell sheet.rows sheet.cols codes.old counts.old place code (ends (mend_reply result) codes.new counts.new) }
{
    if sheet.cells() <= place {
        return Err(MendError::Place);
    }
    if !is_code(code) {
        return Err(MendError::NewCode);
    }
    change(sheet, codes, counts, place, code)
}

// The same where place and new code are right too.
fn change(
    sheet: Sheet,
    codes: &mut [u8],
    counts: &mut [u32],
    place: usize,
    code: u8,
) -> Result<(), MendError>
    requires codes_len { length codes.old ≡ sheet.rows * sheet.cols }
    requires counts_len { length counts.old ≡ sheet.rows * sheet.cols }
    requires sheet_counts { SheetCounts sheet.rows sheet.cols codes.old counts.old }
    requires place_bound { place < sheet.rows * sheet.cols }
    ensures { MendChange sheet.rows sheet.cols codes.old counts.old place code (ends (mend_reply result) codes.new counts.new) }
{
    if codes[place] == code {
        return Ok(());
    }
    if let Some(round) = look_ahead(sheet, codes, place, code) {
        return Err(MendError::Loop {
            place: round.first,
            length: round.length,
        });
    }
    take_out(sheet, codes, counts, place);
    put_in(sheet, codes, counts, place, code);
    Ok(())
}
