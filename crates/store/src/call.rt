// The calls. Each is handed the state by value and gives it back, with its answer beside it. A state is long: it stands first in what is given back,
// so that the compiler moves it whole, and a call is judged by its extents. The calls stay apart: one function over what judges and what steps, two
// closures, would hand the state on by value twice more. A refusal returns early: a match whose two arms make the value costs a copy of a state.
ghost use Rattle.std.specs.Prelude.{◌≡◌};
ghost use Rattle.store.specs.Answer.{of_begun, of_precommitted, of_returned};
ghost use Rattle.store.specs.Calls.{begin_of, write_of, read_of, read_answer_of, savepoint_of, go_back_of, precommit_of, abort_of, settle_of};

use crate::State;
use layout::refusal::Refusal;
use redolog::{Csn, TxId};

// The state after a call, and the call's value or why it is refused.
#[derive(Clone, Copy)]
pub struct Returned<T> {
    pub state: State,
    pub result: Result<T, Refusal>,
}

impl State {
    pub fn begin(mut self, memory: &[u8], tail: &[u8]) -> Returned<TxId>
        ensures { of_begun result ≡ begin_of self memory.now tail.now }
    {
        let judged = self.extents().begin_number(memory.len(), tail);
        if let Err(refusal) = judged {
            return Returned {
                state: self,
                result: Err(refusal),
            };
        }
        let id = TxId(self.lastid.0 + 1);
        let s = self.begin_step();
        Returned {
            state: s,
            result: Ok(id),
        }
    }

    pub fn write(
        mut self,
        memory: &mut [u8],
        tail: &[u8],
        id: TxId,
        addr: usize,
        bytes: &[u8],
    ) -> Returned<()>
        ensures result_value { of_returned result ≡ (write_of self memory.old tail.now id addr bytes.now).result }
        ensures memory_after { memory.new ≡ (write_of self memory.old tail.now id addr bytes.now).memory }
    {
        let judged = self
            .extents()
            .choose_write(memory.len(), tail, id, addr, bytes.len());
        let chosen = match judged {
            Ok(chosen) => chosen,
            Err(refusal) => {
                return Returned {
                    state: self,
                    result: Err(refusal),
                };
            }
        };
        let memory = memory.as_mut_array().unwrap();
        let s = self.write_step(memory, chosen, addr, bytes);
        Returned {
            state: s,
            result: Ok(()),
        }
    }

    // The part of memory itself, of bytes that the transaction has read or written; an empty part if refused, or if one is not.
    pub fn read<'a>(
        self,
        memory: &'a [u8],
        tail: &[u8],
        id: TxId,
        addr: usize,
        len: usize,
    ) -> &'a [u8]
        ensures { result.now ≡ read_of self memory.now tail.now id addr len }
    {
        let seen = self.extents();
        let Ok(chosen) = seen.choose_read(memory.len(), tail, id, addr, len) else {
            return &memory[0..0];
        };
        if !seen.covers(chosen, addr, len) {
            return &memory[0..0];
        }
        &memory[addr..addr + len]
    }

    // Read's sister: the number that read refuses with, or the hold is taken.
    pub fn read_answer(
        mut self,
        memory: &[u8],
        tail: &[u8],
        id: TxId,
        addr: usize,
        len: usize,
    ) -> Returned<()>
        ensures { of_returned result ≡ read_answer_of self memory.now tail.now id addr len }
    {
        let judged = self
            .extents()
            .choose_answer(memory.len(), tail, id, addr, len);
        let chosen = match judged {
            Ok(chosen) => chosen,
            Err(refusal) => {
                return Returned {
                    state: self,
                    result: Err(refusal),
                };
            }
        };
        let s = self.read_step(chosen, addr, len);
        Returned {
            state: s,
            result: Ok(()),
        }
    }

    // A savepoint where the transaction's writes stand; one of that name moves.
    pub fn savepoint(mut self, memory: &[u8], tail: &[u8], id: TxId, name: u8) -> Returned<()>
        ensures { of_returned result ≡ savepoint_of self memory.now tail.now id name }
    {
        let judged = self
            .extents()
            .choose_savepoint(memory.len(), tail, id, name);
        let chosen = match judged {
            Ok(chosen) => chosen,
            Err(refusal) => {
                return Returned {
                    state: self,
                    result: Err(refusal),
                };
            }
        };
        let s = self.savepoint_step(chosen, name);
        Returned {
            state: s,
            result: Ok(()),
        }
    }

    // Writes the old bytes of every write since a savepoint, the newest first.
    pub fn go_back(mut self, memory: &mut [u8], tail: &[u8], id: TxId, name: u8) -> Returned<()>
        ensures result_value { of_returned result ≡ (go_back_of self memory.old tail.now id name).result }
        ensures memory_after { memory.new ≡ (go_back_of self memory.old tail.now id name).memory }
    {
        let judged = self.extents().choose_go_back(memory.len(), tail, id, name);
        let chosen = match judged {
            Ok(chosen) => chosen,
            Err(refusal) => {
                return Returned {
                    state: self,
                    result: Err(refusal),
                };
            }
        };
        let memory = memory.as_mut_array().unwrap();
        let s = self.go_back_step(memory, chosen, name);
        Returned {
            state: s,
            result: Ok(()),
        }
    }

    pub fn precommit(mut self, memory: &[u8], tail: &mut [u8], id: TxId) -> Returned<Csn>
        ensures result_value { of_precommitted result ≡ (precommit_of self memory.now tail.old id).result }
        ensures tail_after { tail.new ≡ (precommit_of self memory.now tail.old id).tail }
    {
        let judged = self.extents().choose_precommit(memory.len(), &*tail, id);
        let chosen = match judged {
            Ok(chosen) => chosen,
            Err(refusal) => {
                return Returned {
                    state: self,
                    result: Err(refusal),
                };
            }
        };
        let csn = Csn(self.assigned.0 + 1);
        let s = self.precommit_step(tail, chosen);
        Returned {
            state: s,
            result: Ok(csn),
        }
    }

    pub fn abort(mut self, memory: &mut [u8], tail: &mut [u8], id: TxId) -> Returned<()>
        ensures result_value { of_returned result ≡ (abort_of self memory.old tail.old id).result }
        ensures memory_after { memory.new ≡ (abort_of self memory.old tail.old id).memory }
        ensures tail_after { tail.new ≡ (abort_of self memory.old tail.old id).tail }
    {
        let judged = self.extents().choose_running(memory.len(), &*tail, id);
        let chosen = match judged {
            Ok(chosen) => chosen,
            Err(refusal) => {
                return Returned {
                    state: self,
                    result: Err(refusal),
                };
            }
        };
        let memory = memory.as_mut_array().unwrap();
        let s = self.abort_step(memory, tail, chosen);
        Returned {
            state: s,
            result: Ok(()),
        }
    }

    pub fn settle(mut self, memory: &[u8], tail: &[u8], id: TxId) -> Returned<()>
        ensures { of_returned result ≡ settle_of self memory.now tail.now id }
    {
        let judged = self.extents().choose_settle(memory.len(), tail, id);
        let chosen = match judged {
            Ok(chosen) => chosen,
            Err(refusal) => {
                return Returned {
                    state: self,
                    result: Err(refusal),
                };
            }
        };
        let s = self.drop_step(chosen);
        Returned {
            state: s,
            result: Ok(()),
        }
    }
}
