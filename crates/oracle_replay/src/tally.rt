// How many records were replayed, and how many of the Rust's answers are ours.
use crate::record::Seen;
use std::fmt;

#[derive(Clone, Copy, Default)]
pub(crate) struct Tally {
    records: u32,
    values: u32,
    payloads: u32,
    leasts: u32,
}

impl Tally {
    // With one record more. (It stops at the largest number, which no list reaches.)
    pub(crate) fn with(self, seen: Seen) -> Tally {
        Tally {
            records: self.records.saturating_add(1),
            values: self.values.saturating_add(u32::from(seen.values)),
            payloads: self.payloads.saturating_add(u32::from(seen.payload)),
            leasts: self.leasts.saturating_add(u32::from(seen.least)),
        }
    }
}

impl fmt::Display for Tally {
    fn fmt<W: fmt::Write>(&self, f: &mut fmt::Formatter<W>) -> fmt::Result {
        let Tally {
            records,
            values,
            payloads,
            leasts,
        } = *self;
        write!(
            f,
            " records={records} unpacked={values} packed={payloads} least={leasts}"
        )
    }
}
