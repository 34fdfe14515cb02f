// Step 1: what all that is read of a disk starts from. Nothing is stored.
ghost use Rattle.std.specs.Prelude.{◌≡◌};
ghost use Rattle.layout.specs.Parts.{image_at};
ghost use Rattle.disk.specs.Open.{load_of, open_of};
ghost use Rattle.disk.specs.Heads.{heads_named, handed_on, opened_of};

use image::read::{Heads, read_heads};
use layout::refusal::Refusal;
use layout::{
    COUNTERS_LEN, DISK_LEN, IMAGE_A, IMAGE_B, IMAGE_LEN, LOG_LEN, LOG_START, MEMORY_LEN, NAMES_A,
    NAMES_B, TXS_START,
};
use redolog::stores::fill_zero;

// The heads of the image, the bytes of its transactions, and the log from the image's place on.
#[derive(Clone, Copy)]
pub struct Opened<'a> {
    pub heads: Heads,
    pub txs: &'a [u8],
    pub log: &'a [u8],
}

// Where the image stands that a pointer byte of 1 or 2 names. It stays the number that the disk has.
fn image_at(pointer: u8) -> usize
    ensures { result ≡ image_at pointer }
{
    if pointer == NAMES_A { IMAGE_A } else { IMAGE_B }
}

// The image that a pointer byte names, or none.
fn load(disk: &[u8; DISK_LEN], pointer: u8, memory: &mut [u8; MEMORY_LEN]) -> Option<Heads>
    ensures value { result ≡ heads_named pointer disk.now }
    ensures memory_after { memory.new ≡ (load_of pointer disk.now).memory }
{
    if pointer == 0 {
        fill_zero(memory);
        return Some(Heads::blank());
    }
    let from = image_at(pointer);
    memory.copy_from_slice(&disk[from + COUNTERS_LEN..from + TXS_START]);
    read_heads(&disk[from..from + IMAGE_LEN])
}

// Memory becomes the image's, zero if refused; what it held doesn't matter.
pub fn open<'a>(
    disk: &'a [u8; DISK_LEN],
    memory: &mut [u8; MEMORY_LEN],
) -> Result<Opened<'a>, Refusal>
    ensures value { handed_on result ≡ opened_of disk.now }
    ensures memory_after { memory.new ≡ (open_of disk.now).memory }
{
    let pointer = disk[0];
    if NAMES_B < pointer {
        fill_zero(memory);
        return Err(Refusal::BadPointer);
    }
    let Some(heads) = load(disk, pointer, memory) else {
        fill_zero(memory);
        return Err(Refusal::BadImage);
    };
    let image = image_at(pointer);
    let from = LOG_START + heads.counters.logend as usize;
    let to = LOG_START + LOG_LEN;
    Ok(Opened {
        heads,
        txs: &disk[image + TXS_START..image + IMAGE_LEN],
        log: &disk[from..to],
    })
}
