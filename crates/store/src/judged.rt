// What a call is told that no number refuses: by its admission, and by its own numbers.
ghost use Rattle.std.specs.Prelude.{◌<◌, ◌≤◌};
ghost use Rattle.layout.specs.{log_len, max_txs};

// Where the tail's groups end, and the log room used.
#[derive(Clone, Copy)]
pub(crate) struct Admitted {
    pub end: usize,
    pub room: usize,
    ghost room_within: { room ≤ log_len },
}

// Where the transaction stands, besides.
#[derive(Clone, Copy)]
pub(crate) struct Chosen {
    pub slot: usize,
    pub admitted: Admitted,
    ghost slot_within: { slot < max_txs },
}
