// One record of queue code, and its layout in 16 bytes: making, reading and writing it.
ghost use Rattle.std.specs.Prelude.{◌≡◌, ◌≢◌, true, false, Some, MatchOption};
ghost use Rattle.std.specs.Range.{range_inclusive_end, range_inclusive_exhausted, range_inclusive_start};
ghost use Rattle.code.specs.Lawful.{argument_range, record_lawful};

use crate::target::Target;
use records::Operation;
use std::ops::RangeInclusive;

/// An operation, the node that it works out, its argument, and where its word goes.
#[derive(Clone, Copy, Debug)]
pub struct Record {
    pub operation: Operation,
    pub node: u16,
    pub argument: i32,
    pub target: Target,
    ghost lawful: { record_lawful operation node argument ≡ true },
}

impl Record {
    ghost use Rattle.code.specs.Layout.{decode, layout, record_of};

    /// A record, if the argument is one that the operation may have.
    pub fn new(operation: Operation, node: u16, argument: i32, target: Target) -> Option<Record>
        ensures { result ≡ record_of operation node argument target }
    {
        if !argument_range(operation).contains(&argument) {
            return None;
        }
        Some(Record {
            operation,
            node,
            argument,
            target,
        })
    }

    /// The record that 16 bytes hold; none if there are not 16 or they are laid out otherwise.
    pub fn read(bytes: &[u8]) -> Option<Record>
        ensures value { result ≡ decode bytes.now }
        ensures the_record_of_that_layout { MatchOption result ((x : Record) → layout x ≢ bytes.now) (λ x. layout x ≡ bytes.now) }
    {
        Record::from_fields(bytes)
    }

    // Takes the fields out of the row of bytes.
    fn from_fields(bytes: &[u8]) -> Option<Record>
        ensures { result ≡ decode bytes.now }
    {
        let &[
            number,
            count,
            n0,
            n1,
            a0,
            a1,
            a2,
            a3,
            p0,
            p1,
            q0,
            q1,
            r0,
            r1,
            s0,
            s1,
        ]: &[u8; 16] = bytes.try_into().ok()?;
        let fields = [
            u16::from_le_bytes([p0, p1]),
            u16::from_le_bytes([q0, q1]),
            u16::from_le_bytes([r0, r1]),
            u16::from_le_bytes([s0, s1]),
        ];
        Record::new(
            Operation::try_from(number).ok()?,
            u16::from_le_bytes([n0, n1]),
            i32::from_le_bytes([a0, a1, a2, a3]),
            Target::new(count, fields)?,
        )
    }

    /// The 16 bytes of the record.
    pub fn write(&self) -> [u8; 16]
        ensures value { result ≡ layout self.now }
        ensures reads_back { decode result ≡ Some self.now }
    {
        self.to_fields()
    }

    // Puts the fields in a row.
    fn to_fields(&self) -> [u8; 16]
        ensures { result ≡ layout self.now }
    {
        let [n0, n1] = self.node.to_le_bytes();
        let [a0, a1, a2, a3] = self.argument.to_le_bytes();
        let [p, q, r, s] = self.target.fields();
        let [p0, p1] = p.to_le_bytes();
        let [q0, q1] = q.to_le_bytes();
        let [r0, r1] = r.to_le_bytes();
        let [s0, s1] = s.to_le_bytes();
        let operation = u8::from(self.operation);
        let count = self.target.count_byte();
        [
            operation, count, n0, n1, a0, a1, a2, a3, p0, p1, q0, q1, r0, r1, s0, s1,
        ]
    }
}

// The arguments that the operation may have.
fn argument_range(operation: Operation) -> RangeInclusive<i32>
    ensures ends { (range_inclusive_start result, range_inclusive_end result) ≡ argument_range operation }
    ensures whole { range_inclusive_exhausted result ≡ false }
{
    match operation {
        Operation::Input => 0..=63,
        Operation::Literal => i32::MIN..=i32::MAX,
        _ => 0..=0,
    }
}
