// What packing tests before it writes a byte: rows 9 and 7, record by record.
ghost use Rattle.std.specs.Prelude.{◌≡◌};
ghost use Rattle.silences.specs.Packing.{record_fault};
ghost use Rattle.packing.specs.Judging.{fault_of};

use answers::Refusal;
use silences::{Address, RECORD_WORDS, is_above};

// "a ring number to pack is above 65,535": the largest ring number.
const MOST_RING_NUMBER: u32 = 65535;

// "9 also for a ceiling above 65,535": the largest ceiling.
const MOST_CEILING: u32 = 65535;

// Tests each record, "9 before 7". One to three words left over are no record.
pub fn judge(words: &[u32]) -> Result<(), Refusal>
    ensures { fault_of result ≡ record_fault words.now }
{
    let mut last = None;
    for (i, record) in words.chunks_exact(RECORD_WORDS).enumerate() {
        if MOST_RING_NUMBER < record[1] || MOST_CEILING < record[3] {
            return Err(Refusal::NumberInRecord(i));
        }
        let address = Address {
            cell: record[0],
            ring_number: record[1] as u16,
            start: record[2],
        };
        if !is_above(last, address) {
            return Err(Refusal::NotAbove(i));
        }
        last = Some(address);
    }
    Ok(())
}
