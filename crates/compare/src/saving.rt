// Tables and their clock as a file: a head, which is the layout's number and a checksum, and the bytes as they lie.
ghost use Rattle.std.specs.Prelude.{◌≡◌};
ghost use Rattle.kernel.specs.Told.{code_of};
ghost use Rattle.compare.specs.Laid.{blank_kept};
ghost use Rattle.compare.specs.Told.{told_loaded};
ghost use Rattle.compare.specs.Saved.{save_code, saved, load_code, read_anyway, loaded};

use crate::bytes::{get_number, put_number};
use crate::cells::{CELL_COUNT, Kept};
use crate::checksum::checksum;
use crate::laying::{blank_kept, kept_of, put_places};
use kernel::refusals::Refusal;

// The number of the layout of what a host keeps and passes. It rises with every change of a struct of the boundary.
pub const LAYOUT: u32 = 3;

// The head, the tables' 1572 bytes, the clock's 8.
const HEAD: usize = 8;

const TABLES_END: usize = HEAD + 1572;

pub const FILE_LENGTH: usize = TABLES_END + 8;

// The file in front of the slice, whose rest stays; nothing is written where it has no room.
#[tactic(auto, unfolding(crate::specs::Saved::saved))]
pub fn save(a: Kept, file: &mut [u8]) -> Result<(), Refusal>
    ensures code { code_of result ≡ save_code file.old }
    ensures file { file.new ≡ saved a file.old }
{
    if file.len() < FILE_LENGTH {
        return Err(Refusal::Room);
    }
    put_places(a, CELL_COUNT, file, 8);
    let sum = checksum(&file[HEAD..FILE_LENGTH]);
    put_number(file, 0, 4, LAYOUT);
    put_number(file, 4, 4, sum);
    Ok(())
}

// Why a file is refused: fewer than 4 bytes or another layout, too few bytes, too many, a checksum that is not the bytes' own.
#[tactic(auto, unfolding(crate::specs::Saved::load_code))]
fn judge_file(file: &[u8]) -> Result<(), Refusal>
    ensures { code_of result ≡ load_code file.now }
{
    if file.len() < 4 {
        return Err(Refusal::Version);
    }
    if get_number(file, 0, 4) != LAYOUT {
        return Err(Refusal::Version);
    }
    if file.len() < FILE_LENGTH {
        return Err(Refusal::Cut);
    }
    if FILE_LENGTH < file.len() {
        return Err(Refusal::Length);
    }
    if get_number(file, 4, 4) == checksum(&file[HEAD..FILE_LENGTH]) {
        Ok(())
    } else {
        Err(Refusal::Value)
    }
}

// What the bytes behind the head say, whatever head there is; nothing where they are too few.
#[tactic(auto, unfolding(crate::specs::Saved::read_anyway))]
pub fn read_anyway(file: &[u8]) -> Kept
    ensures { result ≡ read_anyway file.now }
{
    if file.len() < FILE_LENGTH {
        blank_kept()
    } else {
        kept_of(&file[HEAD..TABLES_END], &file[TABLES_END..FILE_LENGTH])
    }
}

#[tactic(auto, unfolding(crate::specs::Saved::loaded))]
pub fn load(file: &[u8]) -> Result<Kept, Refusal>
    ensures { told_loaded blank_kept result ≡ loaded file.now }
{
    judge_file(file)?;
    Ok(read_anyway(file))
}
