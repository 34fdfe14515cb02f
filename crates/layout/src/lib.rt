// Sizes, offsets, counts and statuses of documents 01 and 02, each said once. The same numbers for the definitions: specs/Lib.antt.
#![tactic(auto)]

pub mod refusal;

// The buffers that are lent.
pub const MEMORY_LEN: usize = 4096;

pub const TAIL_LEN: usize = 16384;

pub const DISK_LEN: usize = 33691;

// The pages of memory (document 02, A.5: drawers).
pub const PAGE_LEN: usize = 256;

pub const PAGES: usize = 16;

// The parts of a disk: the pointer byte at offset 0, images A and B, the log. A pointer byte of 0 names no image.
pub const IMAGE_A: usize = 1;

pub const IMAGE_B: usize = 8654;

pub const IMAGE_LEN: usize = 8653;

pub const LOG_START: usize = 17307;

pub const LOG_LEN: usize = 16384;

// Form two (document 02, A.9), beside form one: its length, image B, its two log areas, and the highest number of an area; form one's log is area 0.
pub const DISK_LEN_2: usize = 50077;

pub const IMAGE_B_2: usize = 8655;

pub const AREA_1: usize = 17309;

pub const AREA_2: usize = 33693;

pub const LAST_AREA: u8 = 2;

// Which form a disk has.
#[derive(Clone, Copy)]
pub enum Form {
    One,
    Two,
}

pub const NAMES_A: u8 = 1;

pub const NAMES_B: u8 = 2;

// An image: its counters, the memory bytes, and each transaction with its undo records.
pub const COUNTERS_LEN: usize = 13;

pub const TXS_START: usize = 4109;

pub const TX_HEAD_LEN: usize = 8;

pub const UNDO_HEAD_LEN: usize = 3;

// Log records: the first and last byte of each kind, and its length; a redo record has its new bytes besides.
pub const REDO: u8 = 1;

pub const COMMIT: u8 = 2;

pub const ABORT: u8 = 3;

pub const REDO_LEN: usize = 7;

pub const COMMIT_LEN: usize = 8;

pub const ABORT_LEN: usize = 4;

// At most so many transactions, records of one, and bytes of a record.
pub const MAX_TXS: usize = 8;

pub const MAX_RECORDS: usize = 16;

pub const MAX_WRITE: usize = 32;

// At most so many savepoints of a transaction (document 02, A.7).
pub const MAX_SAVEPOINTS: usize = 4;

// What a transaction is.
pub const RUNNING: u8 = 1;

pub const COMMITTING: u8 = 2;
