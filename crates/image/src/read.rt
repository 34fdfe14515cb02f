// Reading an image where it stands. What restart looks at more than once is taken out: the counters, the keys, and where each transaction
// begins. Each reader looks at the front of the slice that it is handed.
ghost use Rattle.std.specs.Prelude.{true, List, ◌≡◌, ◌≤◌, length, drop};
ghost use Rattle.std.proofs.Math.Option.{some};
ghost use Rattle.redolog.specs.Number.{be16, be32};
ghost use Rattle.layout.specs.{max_txs, max_records, tx_head_len};
ghost use Rattle.recovery.specs.Group.{Write};
ghost use Rattle.recovery.specs.Replay.{undo_all, lay_bytes};
ghost use Rattle.image.specs.Content.{Saved};
ghost use Rattle.image.specs.Reading.{undo_here, first_undo, read_undos, read_tx, read_txs};
ghost use Rattle.image.specs.Keys.{no_head};
ghost use Rattle.image.specs.Heads.{undo_size, undos_end, tx_span, ruled_span, ruled, listed_of, blank_heads, heads_of, undo_places, undos_read};

use crate::Counters;
use crate::keys::distinct;
use layout::{MAX_RECORDS, MAX_TXS, MEMORY_LEN, TX_HEAD_LEN, TXS_START, UNDO_HEAD_LEN};
use redolog::number::{be16, be32};
use redolog::record::in_range;
use redolog::stores::copy;
use redolog::{Csn, TxId};
use transaction::Key;

// The key of a transaction, and where it begins, counted from the first one.
#[derive(Clone, Copy)]
pub struct TxHead {
    pub key: Key,
    pub at: usize,
}

impl TxHead {
    // What an unused slot holds.
    fn empty() -> Self
        ensures { result ≡ no_head }
    {
        TxHead {
            key: Key {
                id: TxId(0),
                csn: Csn(0),
            },
            at: 0,
        }
    }
}

// The counters, and the heads of the transactions in the first count slots.
#[derive(Clone, Copy)]
pub struct Heads {
    pub counters: Counters,
    pub txs: [TxHead; MAX_TXS],
}

impl Heads {
    // As a disk without an image has it.
    #[tactic(auto, unfolding(crate::specs::Heads::blank_heads))]
    pub fn blank() -> Self
        ensures { result ≡ blank_heads }
    {
        Heads {
            counters: Counters {
                logend: 0,
                ondisk: Csn(0),
                assigned: Csn(0),
                lastid: TxId(0),
                count: 0,
            },
            txs: [TxHead::empty(); MAX_TXS],
        }
    }
}

// The bytes of an undo record.
#[tactic(auto, unfolding(crate::specs::Heads::undo_size, crate::specs::Reading::undo_here))]
fn undo_size(s: &[u8]) -> Option<usize>
    ensures { result ≡ undo_size s.now }
{
    if s.len() < UNDO_HEAD_LEN {
        return None;
    }
    let addr = be16(s, 0);
    let len = s[2] as usize;
    if !in_range(addr as usize, len) {
        return None;
    }
    let end = UNDO_HEAD_LEN + len;
    if s.len() < end {
        return None;
    }
    Some(end)
}

// Where the n undo records after a transaction's head end.
fn undos_end(s: &[u8], n: usize) -> Option<usize>
    requires { tx_head_len ≤ length s.now }
    ensures { result ≡ undos_end (read_undos n (drop tx_head_len s.now)) }
{
    let mut at = TX_HEAD_LEN;
    // Each record has its own length, and no iterator steps by what it reads.
    for _ in 0..n {
        at += undo_size(&s[at..])?;
    }
    Some(at)
}

// The bytes of a transaction.
#[tactic(auto, using(crate::proofs::TxReadings::span_of), unfolding(crate::specs::Reading::read_tx))]
fn tx_size(s: &[u8]) -> Option<usize>
    ensures { result ≡ tx_span (read_tx s.now) }
{
    if s.len() < TX_HEAD_LEN {
        return None;
    }
    let n = s[7] as usize;
    if MAX_RECORDS < n {
        return None;
    }
    undos_end(s, n)
}

// The key of the transaction whose head stands there.
fn read_key(s: &[u8]) -> Key
    requires { tx_head_len ≤ length s.now }
    ensures id_value { result.id.0 ≡ be16 s.now 0 }
    ensures csn_value { result.csn.0 ≡ be32 s.now 3 }
{
    Key {
        id: TxId(be16(s, 0)),
        csn: Csn(be32(s, 3)),
    }
}

// The bytes of a transaction that keeps the rules.
fn ruled_size(s: &[u8], last: Key) -> Option<usize>
    ensures { result ≡ ruled_span last.id.0 last.csn.0 (read_tx s.now) }
{
    let size = tx_size(s)?;
    let key = read_key(s);
    if !key.head_ok(s[2], last) {
        return None;
    }
    Some(size)
}

// The first n transactions, if they keep the rules.
fn list_txs(s: &[u8], n: usize, last: Key) -> Option<[TxHead; MAX_TXS]>
    requires { n ≤ max_txs }
    ensures { result ≡ listed_of (ruled last.id.0 last.csn.0 (read_txs n s.now)) }
{
    let mut txs = [TxHead::empty(); MAX_TXS];
    let mut at: usize = 0;
    for tx in &mut txs[..n] {
        let size = ruled_size(&s[at..], last)?;
        let key = read_key(&s[at..]);
        *tx = TxHead { key, at };
        at += size;
    }
    Some(txs)
}

// The image at the front of s, if it keeps the rules. Its memory stands between the counters and the transactions.
pub fn read_heads(s: &[u8]) -> Option<Heads>
    ensures { result ≡ heads_of s.now }
{
    if s.len() < TXS_START {
        return None;
    }
    let counters = Counters {
        logend: be16(s, 0),
        ondisk: Csn(be32(s, 2)),
        assigned: Csn(be32(s, 6)),
        lastid: TxId(be16(s, 10)),
        count: s[12],
    };
    if !counters.ok() {
        return None;
    }
    let n = counters.count as usize;
    let last = Key {
        id: counters.lastid,
        csn: counters.assigned,
    };
    let txs = list_txs(&s[TXS_START..], n, last)?;
    if !distinct(&txs[..n]) {
        return None;
    }
    Some(Heads { counters, txs })
}

// Where each of a transaction's n undo records begins.
fn undo_places(s: &[u8], n: usize) -> [usize; MAX_RECORDS]
    requires { (n ≤ max_records) × ((us : List Write) × (read_undos n (drop tx_head_len s.now) ≡ some us)) }
    ensures { result ≡ undo_places (read_undos n (drop tx_head_len s.now)) }
{
    let mut places = [0usize; MAX_RECORDS];
    let mut at = TX_HEAD_LEN;
    for place in &mut places[..n] {
        *place = at;
        at += UNDO_HEAD_LEN + s[at + 2] as usize;
    }
    places
}

// Lays an undo record into memory.
#[tactic(auto, using(crate::proofs::Readings::here_within, crate::proofs::Readings::here_ranged), unfolding(crate::specs::Reading::undo_here))]
fn lay_undo(s: &[u8], memory: &mut [u8; MEMORY_LEN])
    requires { undo_here s.now ≡ true }
    ensures { memory.new ≡ lay_bytes (first_undo s.now) memory.old }
{
    let addr = be16(s, 0) as usize;
    let len = s[2] as usize;
    copy(memory, addr, &s[UNDO_HEAD_LEN..UNDO_HEAD_LEN + len]);
}

// Lays a transaction's undo records into memory, the newest first.
#[tactic(auto, using(crate::proofs::TxReadings::few_records))]
pub fn lay_back(s: &[u8], memory: &mut [u8; MEMORY_LEN])
    requires { (t : Saved) × (read_tx s.now ≡ some t) }
    ensures { memory.new ≡ undo_all lay_bytes (undos_read (read_tx s.now)) memory.old }
{
    let n = s[7] as usize;
    let places = undo_places(s, n);
    for at in places[..n].iter().rev() {
        lay_undo(&s[*at..], memory);
    }
}
