// The records of the replay programs, and how their cells are printed.
#![tactic(auto)]

ghost use Rattle.std.specs.Prelude.{◌≡◌, ◌+◌, ◌*◌, ◌<◌, ◌≤◌, length, get_or};

use std::cmp::min;
use std::fmt::Display;
use std::io;
use std::io::{BufWriter, Read, Write};

pub fn wide(b: u8) -> usize
    ensures same { result ≡ b }
    ensures small { result ≤ 255 }
{
    usize::from(b)
}

// A byte as the number of an edition.
pub fn edition(b: u8) -> u32
    ensures { result ≡ b }
{
    u32::from(b)
}

// Two bytes as a number, the lower first.
pub fn pair(low: u8, high: u8) -> usize
    ensures same { result ≡ low + 256 * high }
    ensures small { result < 65536 }
{
    wide(low) + 256 * wide(high)
}

// The same of the two that stand at an index.
pub fn pair_at(records: &[u8], at: usize) -> usize
    requires { at + 2 ≤ length records.now }
    ensures same { result ≡ get_or records.now at 0 + 256 * get_or records.now (at + 1) 0 }
    ensures small { result < 65536 }
{
    pair(records[at], records[at + 1])
}

// How many pixels a picture of such sides has.
pub fn area(height: u8, width: u8) -> usize
    ensures same { result ≡ height * width }
    ensures small { result ≤ 65025 }
{
    wide(height) * wide(width)
}

// Where a record ends that has so many bytes from `body` on; a cut one ends with the records.
pub fn record_end(records: &[u8], body: usize, size: usize) -> usize
    requires { body ≤ length records.now }
    ensures above { body ≤ result }
    ensures within { result ≤ length records.now }
    ensures whole { body + size ≤ length records.now → result ≡ body + size }
    ensures cut { length records.now < body + size → result ≡ length records.now }
{
    body + min(size, records.len() - body)
}

// Where the picture ends that stands after one or two bytes from an index on.
pub fn picture_end(records: &[u8], at: usize, lead: usize) -> usize
    requires { (at < length records.now) × (lead ≤ 2) }
    ensures above { at < result }
    ensures within { result ≤ length records.now }
    ensures whole { at + lead + 3 + get_or records.now (at + lead) 0 * get_or records.now (at + lead + 1) 0 ≤ length records.now → result ≡ at + lead + 3 + get_or records.now (at + lead) 0 * get_or records.now (at + lead + 1) 0 }
    ensures cut { length records.now < at + lead + 3 + get_or records.now (at + lead) 0 * get_or records.now (at + lead + 1) 0 → result ≡ length records.now }
{
    if records.len() - at < lead + 3 {
        return records.len();
    }
    let start = at + lead;
    record_end(records, start + 3, area(records[start], records[start + 1]))
}

// A kind of record: a head of so many bytes, and a body.
pub trait Record<const HEAD: usize> {
    // Prints what stands before all records.
    fn begin<W: Write>(_out: &mut W) -> io::Result<()> {
        Ok(())
    }

    // How long a body is, by the head and what follows it.
    fn size(head: &[u8; HEAD], tail: &[u8]) -> usize;

    // Prints what is said of a record.
    fn print<W: Write>(out: &mut W, head: &[u8; HEAD], body: &[u8]) -> io::Result<()>;
}

// Prints what is said of each record. A cut body ends with the records; where they have no whole head more, no record is left.
pub fn print_records<W: Write, K: Record<HEAD>, const HEAD: usize>(
    out: &mut W,
    records: &[u8],
) -> io::Result<()>
    requires { (0 < HEAD) × (HEAD ≤ 255) }
{
    let mut rest = records;
    while let Some((head, tail)) = rest.split_first_chunk::<HEAD>() {
        let (body, next) = tail.split_at(record_end(tail, 0, K::size(head, tail)));
        K::print(out, head, body)?;
        rest = next;
    }
    Ok(())
}

// Prints what is said of all records that are read.
pub fn replay<K: Record<HEAD>, const HEAD: usize>(
    rt: &impl AllocGlobal,
    mut input: impl Read + Drop,
    output: impl Write + Drop,
) -> io::Result<()>
    requires { (0 < HEAD) × (HEAD ≤ 255) }
{
    let mut records = Vec::new(rt.alloc());
    input.read_to_end(&mut records)?;
    let mut out = BufWriter::new(rt.alloc(), output)?;
    K::begin(&mut out)?;
    print_records::<_, K, HEAD>(&mut out, &records)?;
    out.flush()
}

// Each after a space.
pub fn print_all<W: Write, T: Display>(out: &mut W, items: &[T]) -> io::Result<()> {
    for item in items {
        write!(out, " {item}")?;
    }
    Ok(())
}

// A colon and the first n items, or all where there are fewer, each after a space.
pub fn print_first<W: Write, T: Display>(out: &mut W, items: &[T], n: usize) -> io::Result<()> {
    out.write_all(b" :")?;
    print_all(out, &items[..min(n, items.len())])
}
