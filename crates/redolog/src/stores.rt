// Stores of single bytes, counted: of a call that may make so many, the first ones of its list.
ghost use Rattle.std.specs.Prelude.{◌≡◌, ◌+◌, ◌-◌, ◌≤◌, min, length, take, replicate};
ghost use Rattle.std.proofs.lemmas.List.Edits.{sets};
ghost use Rattle.redolog.specs.Stores.{apply, copies, clears, shifted};

// All of src, from at on. No `copy_from_slice`: most copies are of a write's few bytes, for which its call takes longer than a loop of wide moves.
pub fn copy(b: &mut [u8], at: usize, src: &[u8])
    requires { at + length src.now ≤ length b.old }
    ensures { b.new ≡ sets b.old at src.now }
{
    for (i, x) in src.iter().enumerate() {
        b[at + i] = *x;
    }
}

// One value throughout. It has a name of its own, as `copy` has: other crates' contracts and edits rest on both.
pub fn fill(b: &mut [u8], value: u8)
    ensures { b.new ≡ replicate (length b.old) value }
{
    b.fill(value);
}

pub fn fill_zero(b: &mut [u8])
    ensures { b.new ≡ replicate (length b.old) 0 }
{
    fill(b, 0);
}

// What stands from n on moves to the front, with zeros after it. With n = 0 no byte is touched.
pub fn shift_down(b: &mut [u8], n: usize)
    ensures { b.new ≡ shifted n b.old }
{
    if n == 0 {
        return;
    }
    let gone = n.min(b.len());
    let keep = b.len() - gone;
    b.copy_within(gone.., 0);
    b[keep..].fill(0);
}

// Stores src upward from at on, as far as stores are allowed, and returns how many were made.
#[tactic(auto, using(crate::proofs::StoreLaws::length_copies, crate::proofs::StoreLaws::take_min, crate::proofs::StoreLaws::copies_cut))]
pub fn copy_up(b: &mut [u8], at: usize, src: &[u8], allowed: usize) -> usize
    requires { at + length src.now ≤ length b.old }
    ensures value { result ≡ min allowed (length (copies at src.now)) }
    ensures b_after { b.new ≡ apply (take allowed (copies at src.now)) b.old }
{
    let made = allowed.min(src.len());
    copy(b, at, &src[..made]);
    made
}

// Stores zeros from the last byte of b down to low, as far as stores are allowed, and returns how many were made.
#[tactic(auto, using(crate::proofs::StoreLaws::length_clears, crate::proofs::StoreLaws::clears_cut))]
pub fn clear_down(b: &mut [u8], low: usize, allowed: usize) -> usize
    ensures value { result ≡ min allowed (length (clears low (length b.old - low))) }
    ensures b_after { b.new ≡ apply (take allowed (clears low (length b.old - low))) b.old }
{
    let end = b.len();
    if end <= low {
        return 0;
    }
    let there = end - low;
    let n = allowed.min(there);
    // In one piece: the highest n bytes are the first n downward.
    let from = end - n;
    fill_zero(&mut b[from..from + n]);
    n
}
