// Checkpoint: the image goes into the slot that the pointer byte doesn't name, then the pointer byte.
ghost use Rattle.std.specs.Prelude.{◌≡◌, ◌+◌, ◌<◌, ◌≤◌, min, length, take, get_or};
ghost use Rattle.layout.specs.{disk_len, image_len};
ghost use Rattle.redolog.specs.Stores.{apply};
ghost use Rattle.store.specs.Answer.{of_stored};
ghost use Rattle.store.specs.State.{image_of};
ghost use Rattle.store.specs.Checkpoint.{stores_at, image_stores, checkpoint_of};

use crate::State;
use crate::stored::{Stored, cut_off, refused};
use image::Image;
use image::write::encode;
use layout::{IMAGE_A, IMAGE_B, IMAGE_LEN, NAMES_A, NAMES_B};
use redolog::stores::copy_up;

// An image into the slot that starts at an offset, then its name into the pointer byte, as far as stores are allowed; how many were made.
fn store_at(disk: &mut [u8], at: usize, name: u8, image: &[u8], allowed: usize) -> usize
    requires { (0 < length disk.old) × (at + length image.now ≤ length disk.old) }
    ensures value { result ≡ min allowed (length (stores_at at name image.now)) }
    ensures disk_after { disk.new ≡ apply (take allowed (stores_at at name image.now)) disk.old }
{
    let made = copy_up(disk, at, image, allowed);
    if made == allowed {
        return made;
    }
    disk[0] = name;
    made + 1
}

// An image into A if the pointer byte is 0 or 2, else into B.
fn store_image(disk: &mut [u8], image: &[u8], allowed: usize) -> usize
    requires { (length disk.old ≡ disk_len) × (length image.now ≤ image_len) }
    ensures value { result ≡ min allowed (length (image_stores (get_or disk.old 0 0) image.now)) }
    ensures disk_after { disk.new ≡ apply (take allowed (image_stores (get_or disk.old 0 0) image.now)) disk.old }
{
    let (at, name) = match disk[0] {
        0 | NAMES_B => (IMAGE_A, NAMES_A),
        _ => (IMAGE_B, NAMES_B),
    };
    store_at(disk, at, name, image, allowed)
}

// What an image has of the state.
impl From<State> for Image {
    ghost from_gives = { λ state image. image ≡ image_of state };

    fn from(state: State) -> Image {
        let txs = state.txs;
        Image {
            logend: state.logend,
            ondisk: state.ondisk,
            assigned: state.assigned,
            lastid: state.lastid,
            count: state.count,
            txs,
        }
    }
}

impl State {
    pub fn checkpoint(
        mut self,
        disk: &mut [u8],
        memory: &mut [u8],
        tail: &mut [u8],
        allowed: usize,
    ) -> Stored
        ensures result_value { of_stored result ≡ (checkpoint_of self disk.old memory.old tail.old allowed).result }
        ensures disk_after { disk.new ≡ (checkpoint_of self disk.old memory.old tail.old allowed).disk }
        ensures memory_after { memory.new ≡ (checkpoint_of self disk.old memory.old tail.old allowed).memory }
        ensures tail_after { tail.new ≡ (checkpoint_of self disk.old memory.old tail.old allowed).tail }
    {
        let admitted = self.extents().admit_disk(disk.len(), memory.len(), &*tail);
        if let Err(refusal) = admitted {
            return refused(refusal, self);
        }
        let mut bytes: [u8; IMAGE_LEN] = [0; IMAGE_LEN];
        let lent = memory.as_array().unwrap();
        let size = encode(&mut bytes, Image::from(self), lent);
        let stores = store_image(disk, &bytes[..size], allowed);
        if stores <= size {
            return cut_off(memory, tail, stores);
        }
        Stored {
            state: self,
            result: Ok(()),
            stores,
        }
    }
}
