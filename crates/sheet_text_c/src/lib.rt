//! The listing for C.
#![tactic(auto)]

ghost use Rattle.sheet_text.specs.Sheets.{ListedNumber, checked};

/// For C: the listing of a file, its length or the number of the decline as a negative.
#[unsafe(no_mangle)]
pub extern "C" fn widgulp_listing(file: &[u8], out: &mut [u8]) -> i64
    ensures { ListedNumber (checked file.now) out.old result out.new }
{
    sheet_text::widgulp_listing(file, out)
}
