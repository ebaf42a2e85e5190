// Tables compared, a list applied, tables saved and read back. A host lends tables and clocks as the bytes in which they lie, little-endian,
// without a gap; bytes that are missing read as 0, and nothing is written past an end.
ghost use Rattle.std.specs.Prelude.{◌≡◌, length};
ghost use Rattle.kernel.specs.Told.{code_of};
ghost use Rattle.compare.specs.Laid.{kept_of, tables_put, clock_put};
ghost use Rattle.compare.specs.Saved.{save_code, saved};
ghost use Rattle.host.specs.Comparing.{compared_bytes, list_bytes, entries_kept, applied_bytes, load_answer, loaded_tables, loaded_clock};

use compare::applying::apply;
use compare::comparing::compare;
use compare::laying::{kept_of, put_kept};
use compare::saving::{load, save};
use kernel::refusals::Refusal;

// The list of what differs, from its beginning on, and how many entries it has; at a refusal nothing is written.
#[unsafe(no_mangle)]
pub extern "C" fn nil_compare_bytes(
    first: &[u8],
    first_clock: &[u8],
    second: &[u8],
    second_clock: &[u8],
    list: &mut [u32],
    entries: &mut usize,
) -> u8
    ensures code { result ≡ (compared_bytes first.now first_clock.now second.now second_clock.now (length list.old)).code }
    ensures list { list.new ≡ list_bytes first.now first_clock.now second.now second_clock.now list.old }
    ensures entries { entries.new ≡ entries_kept (compared_bytes first.now first_clock.now second.now second_clock.now (length list.old)) entries.old }
{
    let a = kept_of(first, first_clock);
    let b = kept_of(second, second_clock);
    match compare(a, b, list) {
        Ok(count) => {
            *entries = count as usize;
            0
        }
        Err(why) => why as u8,
    }
}

// Stores what each entry of a list has as new, makes the words anew, and gives how many entries name no field.
#[unsafe(no_mangle)]
pub extern "C" fn nil_apply_bytes(tables: &mut [u8], clock: &mut [u8], list: &[u32]) -> usize
    ensures passed { result ≡ (applied_bytes tables.old clock.old list.now).passed }
    ensures tables { tables.new ≡ tables_put (applied_bytes tables.old clock.old list.now).kept tables.old }
    ensures clock { clock.new ≡ clock_put (applied_bytes tables.old clock.old list.now).kept clock.old }
{
    let a = kept_of(tables, clock);
    let done = apply(a, list);
    put_kept(done.kept, tables, clock);
    done.passed
}

// A file of saved tables: 0; or 16 and nothing written.
#[unsafe(no_mangle)]
pub extern "C" fn nil_save_bytes(tables: &[u8], clock: &[u8], file: &mut [u8]) -> u8
    ensures code { result ≡ save_code file.old }
    ensures file { file.new ≡ saved (kept_of tables.now clock.now) file.old }
{
    let a = kept_of(tables, clock);
    match save(a, file) {
        Ok(()) => 0,
        Err(why) => why as u8,
    }
}

// What a file of saved tables has, put where it is asked for; or a refusal and nothing written.
fn load_into(file: &[u8], tables: &mut [u8], clock: &mut [u8]) -> Result<(), Refusal>
    ensures code { code_of result ≡ load_answer file.now tables.old clock.old }
    ensures tables { tables.new ≡ loaded_tables file.now tables.old clock.old }
    ensures clock { clock.new ≡ loaded_clock file.now tables.old clock.old }
{
    let kept = load(file)?;
    if tables.len() < 1572 || clock.len() < 8 {
        return Err(Refusal::Room);
    }
    put_kept(kept, tables, clock);
    Ok(())
}

// What a file of saved tables has: 0; or a refusal and nothing written.
#[unsafe(no_mangle)]
pub extern "C" fn nil_load_bytes(file: &[u8], tables: &mut [u8], clock: &mut [u8]) -> u8
    ensures code { result ≡ load_answer file.now tables.old clock.old }
    ensures tables { tables.new ≡ loaded_tables file.now tables.old clock.old }
    ensures clock { clock.new ≡ loaded_clock file.now tables.old clock.old }
{
    match load_into(file, tables, clock) {
        Ok(()) => 0,
        Err(why) => why as u8,
    }
}
