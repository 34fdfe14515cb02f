// The 64 bytes of a record, numbers highest byte first.
ghost use Rattle.std.specs.Prelude.{◌≡◌};
ghost use Rattle.report.specs.Record.{record_of, data_of, ids_count, ids_of};

use redolog::TxId;
use redolog::number::{be16, be32};

pub const RECORD_LEN: usize = 64;

// Where a record's data stands, and how many bytes it has room for.
const DATA: usize = 24;

const MAX_DATA: usize = 40;

// The most ids of a record, two bytes each: as many as the data has room for.
pub const IDS: usize = 20;

// The call is a byte, since not every byte is a call (`Call::try_from`).
#[derive(Clone, Copy)]
pub struct Record {
    pub call: u8,
    pub name: u8,
    pub id: TxId,
    pub addr: usize,
    pub len: usize,
    pub groups: usize,
    pub allowed: usize,
}

// All zero, which is no call, where the bytes are not 64: no `Option`, since `record_of` tells a record of any bytes.
#[tactic(auto, unfolding(crate::specs::Record::record_of))]
pub fn read_record(b: &[u8]) -> Record
    ensures { result ≡ record_of b.now }
{
    if b.len() != RECORD_LEN {
        return Record {
            call: 0,
            name: 0,
            id: TxId(0),
            addr: 0,
            len: 0,
            groups: 0,
            allowed: 0,
        };
    }
    Record {
        call: b[0],
        name: b[1],
        id: TxId(be16(b, 2)),
        addr: be32(b, 4) as usize,
        len: be32(b, 8) as usize,
        groups: be32(b, 12) as usize,
        allowed: be32(b, 16) as usize,
    }
}

// The data bytes; a count above 40 counts as 40.
#[tactic(auto, unfolding(crate::specs::Record::data_of))]
pub fn data_of(b: &[u8]) -> &[u8]
    ensures { result.now ≡ data_of b.now }
{
    if b.len() != RECORD_LEN {
        return &b[..0];
    }
    let count = usize::from(b[1]).min(MAX_DATA);
    &b[DATA..DATA + count]
}

// How many ids the record has: a count above 20 counts as 20.
#[tactic(auto, unfolding(crate::specs::Record::ids_count))]
pub fn ids_count(b: &[u8]) -> usize
    ensures { result ≡ ids_count b.now }
{
    if b.len() != RECORD_LEN {
        return 0;
    }
    usize::from(b[1]).min(IDS)
}

// All that the data has room for. Zeros, where the bytes are not 64.
#[tactic(auto, using(crate::proofs::Ids::ids_none, crate::proofs::Ids::ids_is, crate::proofs::Ids::laid_end))]
pub fn ids_of(b: &[u8]) -> [u16; IDS]
    ensures { result ≡ ids_of b.now }
{
    let mut ids = [0u16; IDS];
    if b.len() != RECORD_LEN {
        return ids;
    }
    for i in 0..IDS {
        ids[i] = be16(b, DATA + 2 * i);
    }
    ids
}
