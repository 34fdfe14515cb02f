// Ranges of memory in flat arrays: those that the rules of a transaction look at.
ghost use Rattle.std.specs.Prelude.{◌≡◌, true, ◌≤◌, ◌<◌, drop};
ghost use Rattle.std.specs.Iterator.Adapters.{take_source, take_count, zip_first, zip_second};
ghost use Rattle.std.specs.Slice.Iter.{iter_rest};
ghost use Rattle.layout.specs.{memory_len, max_records, max_write};
ghost use Rattle.recovery.specs.Lists.{any};
ghost use Rattle.transaction.specs.Flat.{empty_ranges};
ghost use Rattle.transaction.specs.View.{ranges_of};
ghost use Rattle.transaction.specs.Rules.{records_ok, same_ranges, meets, reach, ranges_size};
ghost use Rattle.transaction.specs.Steps.{pushed_range};

use layout::{MAX_RECORDS, REDO_LEN};
use redolog::record::in_range;
use std::iter::{Take, Zip};
use std::slice::Iter;

// Ranges, oldest first: the i-th is the len[i] bytes from addr[i] on. Laid out as C does it: the arrays stand side by side, with a count. A host may
// hand in any bytes: what `ok` finds stands in the contracts of those that need it, and not in the type.
#[repr(C)]
#[derive(Clone, Copy)]
pub struct Ranges {
    pub count: u8,
    pub addr: [u16; MAX_RECORDS],
    pub len: [u8; MAX_RECORDS],
}

impl Ranges {
    pub(crate) fn empty() -> Self
        ensures { result ≡ empty_ranges }
    {
        Ranges {
            count: 0,
            addr: [0; MAX_RECORDS],
            len: [0; MAX_RECORDS],
        }
    }

    // The address and the length of each. A count above MAX_RECORDS adds none.
    fn iter(&self) -> Take<Zip<Iter<'_, u16>, Iter<'_, u8>>>
        ensures addr_value { iter_rest (zip_first (take_source result)) ≡ self.now.addr }
        ensures len_value { iter_rest (zip_second (take_source result)) ≡ self.now.len }
        ensures count_value { take_count result ≡ self.now.count }
    {
        self.addr.iter().zip(&self.len).take(self.count as usize)
    }

    // At most MAX_RECORDS, and each keeps the range rule.
    pub(crate) fn ok(self) -> bool
        ensures { result ≡ records_ok (ranges_of self) }
    {
        self.count as usize <= MAX_RECORDS
            && self.iter().all(|(a, l)| in_range(*a as usize, *l as usize))
    }

    // Whether the other ranges are as many, and the same one by one.
    pub(crate) fn same_ranges(self, other: Ranges) -> bool
        ensures { result ≡ same_ranges (ranges_of self) (ranges_of other) }
    {
        let n = MAX_RECORDS.min(self.count as usize);
        self.count == other.count
            && self.addr[..n] == other.addr[..n]
            && self.len[..n] == other.len[..n]
    }

    // Whether one has a byte in common with the len bytes from addr on.
    pub(crate) fn meets(self, addr: usize, len: usize) -> bool
        requires { (addr ≤ memory_len) × (len ≤ max_write) }
        ensures { result ≡ any (meets addr len) (ranges_of self) }
    {
        self.iter().any(|(a, l)| {
            let from = *a as usize;
            from < addr + len && addr < from + *l as usize
        })
    }

    // How far the bytes from a place on lie in these ranges, each looked at once.
    pub(crate) fn reach(self, from: usize) -> usize
        ensures { result ≡ reach from (ranges_of self) }
    {
        self.iter().fold(from, |at, (a, l)| {
            let start = *a as usize;
            if start <= at {
                at.max(start + *l as usize)
            } else {
                at
            }
        })
    }

    // The bytes that redo records of these ranges take in the log, from a place on.
    pub(crate) fn size(self, from: usize) -> usize
        requires { (records_ok (ranges_of self) ≡ true) × (from ≤ self.count) }
        ensures { result ≡ ranges_size (drop from (ranges_of self)) }
    {
        let n = self.count as usize;
        self.len[from..n]
            .iter()
            .map(|l| REDO_LEN + *l as usize)
            .sum()
    }

    // One range more.
    pub(crate) fn push(mut self, addr: u16, len: u8) -> Self
        requires { self.count < max_records }
        ensures { result ≡ pushed_range self addr len }
    {
        let k = self.count as usize;
        self.addr[k] = addr;
        self.len[k] = len;
        self.count += 1;
        self
    }
}
