// Writing an image. Each writer stores its bytes from an offset on; those of lists return where they end.
ghost use Rattle.std.specs.Prelude.{◌≡◌, true, ◌+◌, ◌<◌, ◌≤◌, length};
ghost use Rattle.std.proofs.lemmas.List.Edits.{sets};
ghost use Rattle.layout.specs.{image_len, counters_len, undo_head_len};
ghost use Rattle.transaction.specs.View.{ranges_of, writes_of};
ghost use Rattle.transaction.specs.Rules.{records_ok};
ghost use Rattle.image.specs.Rules.{keeps_rules};
ghost use Rattle.image.specs.Content.{saved_of, saved_in};
ghost use Rattle.image.specs.Format.{head_bytes, encode_undo, encode_undos, encode_tx, encode_txs, encode_image, undos_size, tx_size, txs_size, image_size};

use crate::{Counters, Image};
use layout::{COUNTERS_LEN, MAX_WRITE, MEMORY_LEN, TX_HEAD_LEN, TXS_START, UNDO_HEAD_LEN};
use redolog::number::{put16, put32};
use redolog::stores::copy;
use transaction::Tx;
use transaction::records::Records;

fn put_undo(b: &mut [u8], at: usize, addr: u16, src: &[u8])
    requires src_len_bound { length src.now < 256 }
    requires src_in_bounds { at + (undo_head_len + length src.now) ≤ length b.old }
    ensures { b.new ≡ sets b.old at (encode_undo (record { addr = addr; bytes = src.now })) }
{
    put16(b, at, addr);
    b[at + 2] = src.len() as u8;
    copy(b, at + UNDO_HEAD_LEN, src);
}

#[tactic(auto, using(transaction::proofs::RangeLaws::counted))]
fn put_undos(b: &mut [u8], at: usize, undo: Records) -> usize
    requires ranges_value { records_ok (ranges_of undo.ranges) ≡ true }
    requires undo_in_bounds { at + undos_size (writes_of undo) ≤ length b.old }
    ensures value { result ≡ at + undos_size (writes_of undo) }
    ensures b_after { b.new ≡ sets b.old at (encode_undos (writes_of undo)) }
{
    // Ranges are laid out as C does it, an array for each field: an index goes over all of them.
    let ranges = undo.ranges;
    let mut o = at;
    for i in 0..ranges.count as usize {
        let len = ranges.len[i] as usize;
        let from = i * MAX_WRITE;
        put_undo(b, o, ranges.addr[i], &undo.bytes[from..from + len]);
        o += UNDO_HEAD_LEN + len;
    }
    o
}

fn put_tx(b: &mut [u8], at: usize, t: Tx) -> usize
    requires ranges_value { records_ok (ranges_of t.undo.ranges) ≡ true }
    requires t_in_bounds { at + tx_size (saved_of t) ≤ length b.old }
    ensures value { result ≡ at + tx_size (saved_of t) }
    ensures b_after { b.new ≡ sets b.old at (encode_tx (saved_of t)) }
{
    put16(b, at, t.id.0);
    b[at + 2] = t.status;
    put32(b, at + 3, t.csn.0);
    b[at + 7] = t.undo.ranges.count;
    put_undos(b, at + TX_HEAD_LEN, t.undo)
}

#[tactic(auto, using(crate::proofs::Rules::image_count))]
fn put_txs(b: &mut [u8], at: usize, image: Image) -> usize
    requires image_value { keeps_rules image ≡ true }
    requires count_in_bounds { at + txs_size (saved_in image.txs image.count) ≤ length b.old }
    ensures value { result ≡ at + txs_size (saved_in image.txs image.count) }
    ensures b_after { b.new ≡ sets b.old at (encode_txs (saved_in image.txs image.count)) }
{
    let txs = &image.txs[..image.count as usize];
    let mut o = at;
    for t in txs {
        o = put_tx(b, o, *t);
    }
    o
}

fn put_head(b: &mut [u8], c: Counters)
    requires { counters_len ≤ length b.old }
    ensures { b.new ≡ sets b.old 0 (head_bytes c.logend c.ondisk.0 c.assigned.0 c.lastid.0 c.count) }
{
    put16(b, 0, c.logend);
    put32(b, 2, c.ondisk.0);
    put32(b, 6, c.assigned.0);
    put16(b, 10, c.lastid.0);
    b[12] = c.count;
}

// Stores the image with this memory into the front of b, and returns how many bytes it uses. What stands past them stays.
pub fn encode(b: &mut [u8], image: Image, memory: &[u8; MEMORY_LEN]) -> usize
    requires image_value { keeps_rules image ≡ true }
    requires image_len { image_len ≤ length b.old }
    ensures value { result ≡ image_size image }
    ensures b_after { b.new ≡ sets b.old 0 (encode_image image memory.now) }
{
    let counters = Counters {
        logend: image.logend,
        ondisk: image.ondisk,
        assigned: image.assigned,
        lastid: image.lastid,
        count: image.count,
    };
    put_head(b, counters);
    copy(b, COUNTERS_LEN, memory);
    put_txs(b, TXS_START, image)
}
