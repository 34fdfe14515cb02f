// Calls that leave the disk alone.
ghost use Rattle.std.specs.Prelude.{◌≡◌, length};
ghost use Rattle.store.specs.Calls.{begin_of, write_of, read_of, read_answer_of, savepoint_of, go_back_of, precommit_of, abort_of, settle_of};
ghost use Rattle.luppaneth.specs.Reply.{reply_of};

use crate::Reply;
use redolog::TxId;
use store::State;

#[unsafe(no_mangle)]
pub extern "C" fn luppaneth_begin(state: State, memory: &[u8], tail: &[u8]) -> Reply
    ensures { result ≡ reply_of (begin_of state memory.now tail.now) }
{
    state.begin(memory, tail).into()
}

#[unsafe(no_mangle)]
pub extern "C" fn luppaneth_write(
    state: State,
    memory: &mut [u8],
    tail: &[u8],
    id: u16,
    addr: usize,
    bytes: &[u8],
) -> Reply
    ensures value { result ≡ reply_of (write_of state memory.old tail.now (record { 0 = id }) addr bytes.now).result }
    ensures memory_after { memory.new ≡ (write_of state memory.old tail.now (record { 0 = id }) addr bytes.now).memory }
{
    state.write(memory, tail, TxId(id), addr, bytes).into()
}

// The length of the part that is read: the part is memory[addr..addr + that]. 0 if refused.
#[unsafe(no_mangle)]
pub extern "C" fn luppaneth_read(
    state: State,
    memory: &[u8],
    tail: &[u8],
    id: u16,
    addr: usize,
    len: usize,
) -> usize
    ensures { result ≡ length (read_of state memory.now tail.now (record { 0 = id }) addr len) }
{
    state.read(memory, tail, TxId(id), addr, len).len()
}

#[unsafe(no_mangle)]
pub extern "C" fn luppaneth_read_answer(
    state: State,
    memory: &[u8],
    tail: &[u8],
    id: u16,
    addr: usize,
    len: usize,
) -> Reply
    ensures { result ≡ reply_of (read_answer_of state memory.now tail.now (record { 0 = id }) addr len) }
{
    state.read_answer(memory, tail, TxId(id), addr, len).into()
}

#[unsafe(no_mangle)]
pub extern "C" fn luppaneth_savepoint(
    state: State,
    memory: &[u8],
    tail: &[u8],
    id: u16,
    name: u8,
) -> Reply
    ensures { result ≡ reply_of (savepoint_of state memory.now tail.now (record { 0 = id }) name) }
{
    state.savepoint(memory, tail, TxId(id), name).into()
}

#[unsafe(no_mangle)]
pub extern "C" fn luppaneth_go_back(
    state: State,
    memory: &mut [u8],
    tail: &[u8],
    id: u16,
    name: u8,
) -> Reply
    ensures value { result ≡ reply_of (go_back_of state memory.old tail.now (record { 0 = id }) name).result }
    ensures memory_after { memory.new ≡ (go_back_of state memory.old tail.now (record { 0 = id }) name).memory }
{
    state.go_back(memory, tail, TxId(id), name).into()
}

#[unsafe(no_mangle)]
pub extern "C" fn luppaneth_precommit(
    state: State,
    memory: &[u8],
    tail: &mut [u8],
    id: u16,
) -> Reply
    ensures value { result ≡ reply_of (precommit_of state memory.now tail.old (record { 0 = id })).result }
    ensures tail_after { tail.new ≡ (precommit_of state memory.now tail.old (record { 0 = id })).tail }
{
    state.precommit(memory, tail, TxId(id)).into()
}

#[unsafe(no_mangle)]
pub extern "C" fn luppaneth_abort(
    state: State,
    memory: &mut [u8],
    tail: &mut [u8],
    id: u16,
) -> Reply
    ensures value { result ≡ reply_of (abort_of state memory.old tail.old (record { 0 = id })).result }
    ensures memory_after { memory.new ≡ (abort_of state memory.old tail.old (record { 0 = id })).memory }
    ensures tail_after { tail.new ≡ (abort_of state memory.old tail.old (record { 0 = id })).tail }
{
    state.abort(memory, tail, TxId(id)).into()
}

#[unsafe(no_mangle)]
pub extern "C" fn luppaneth_settle(state: State, memory: &[u8], tail: &[u8], id: u16) -> Reply
    ensures { result ≡ reply_of (settle_of state memory.now tail.now (record { 0 = id })) }
{
    state.settle(memory, tail, TxId(id)).into()
}
