// Snapshots: a state handed on as one string of bytes, and whether a state is valid.
ghost use Rattle.std.specs.Prelude.{◌≡◌, length};
ghost use Rattle.lent.specs.Memory.{lent, moment, chip_in};
ghost use Rattle.lent.specs.Looked.{answered};
ghost use Rattle.snapshot.specs.Snapshot.{snapshot_of};
ghost use Rattle.snapshot.specs.Asked.{valid_refusal, valid_answer, write_refusal, written_out, read_refusal, memory_read};

use lent::memory::{Lent, LentMut};
use refusal::{told, told_into};
use restore::read_snapshot;
use restore::validity::see_valid;
use save::write_snapshot;
use time::Time;

// Whether a record's state is valid at a time.
#[tactic(auto, using(crate::proofs::Answered::placed), unfolding(snapshot::specs::Asked::valid_answer))]
#[unsafe(no_mangle)]
pub extern "C" fn flash_validate(record: &[u8], seconds: u64, fraction: u64, valid: &mut u8) -> u32
    ensures number { result ≡ valid_refusal «record».now (moment seconds fraction) }
    ensures valid { valid.new ≡ answered result (valid_answer «record».now (moment seconds fraction)) valid.old }
{
    told_into(see_valid(record, Time(seconds, fraction)), valid)
}

// The snapshot, at the beginning of the output, and its length.
#[unsafe(no_mangle)]
pub extern "C" fn flash_write_snapshot(
    record: &[u8],
    array: &[u8],
    charges: &[u64],
    out: &mut [u8],
    len: &mut u64,
) -> u32
    ensures number { result ≡ write_refusal (length out.old) (lent «record».now array.now charges.now) }
    ensures out { out.new ≡ written_out result (lent «record».now array.now charges.now) out.old }
    ensures len { len.new ≡ answered result (length (snapshot_of (chip_in (lent «record».now array.now charges.now)))) len.old }
{
    let lent = Lent {
        record,
        array,
        charges,
    };
    told_into(write_snapshot(lent, out).map(|length| length as u64), len)
}

// A snapshot taken into lent memory, or refused and nothing changed.
#[unsafe(no_mangle)]
pub extern "C" fn flash_read_snapshot(
    bytes: &[u8],
    record: &mut [u8],
    array: &mut [u8],
    charges: &mut [u64],
    seconds: u64,
    fraction: u64,
) -> u32
    ensures number { result ≡ read_refusal (moment seconds fraction) bytes.entry.now (lent «record».old array.old charges.old) }
    ensures left { lent «record».new array.new charges.new ≡ memory_read result bytes.entry.now (lent «record».old array.old charges.old) }
{
    let mut memory = LentMut {
        record,
        array,
        charges,
    };
    told(read_snapshot(bytes, &mut memory, Time(seconds, fraction)))
}
