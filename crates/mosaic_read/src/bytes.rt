// Numbers of a string of bytes, big-endian, and where a record begins.
ghost use Rattle.std.specs.Prelude.{◌≡◌, ◌+◌, ◌<◌, ◌≤◌, length};
ghost use Rattle.mosaic_read.specs.Records.{two_at, four_at, start_of};
ghost use Rattle.mosaic_read.specs.Method.{WholeBefore};

use crate::record::BorderRecord;

// The number in the two bytes at i.
pub fn two_at(bytes: &[u8], i: usize) -> usize
    requires { i + 2 ≤ length bytes.now }
    ensures value { result ≡ two_at bytes.now i }
    ensures upper_bound { result < 65536 }
{
    usize::from(u16::from_be_bytes([bytes[i], bytes[i + 1]]))
}

// The number in the four bytes at i.
pub fn four_at(bytes: &[u8], i: usize) -> u32
    requires { i + 4 ≤ length bytes.now }
    ensures { result ≡ four_at bytes.now i }
{
    u32::from_be_bytes([bytes[i], bytes[i + 1], bytes[i + 2], bytes[i + 3]])
}

// Where record t begins: past each of the records before it.
pub fn start_of(records: &[u8], t: usize) -> usize
    requires { WholeBefore records.now t }
    ensures { result ≡ start_of records.now t }
{
    let mut start = 0;
    for _ in 0..t {
        start = BorderRecord::at(records, start).end();
    }
    start
}
