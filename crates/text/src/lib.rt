// Numbers in decimal, for every text that is put into a lent buffer.
#![tactic(auto)]

ghost use Rattle.std.specs.Prelude.{◌+◌, ◌≤◌, length};
ghost use Rattle.text.specs.{decimal, Put};

// n in decimal from at on. Returns where it ends.
#[tactic(auto, using(crate::proofs::Decimal::decimal_one, crate::proofs::Decimal::length_more, crate::proofs::Putting::put_one))]
pub fn put_decimal(out: &mut [u8], at: usize, n: u32) -> usize
    requires { at + length (decimal n) ≤ length out.old }
    ensures { Put out.old at (decimal n) result out.new }
{
    if n < 10 {
        out[at] = b'0' + n as u8;
        return at + 1;
    }
    let end = put_decimal(out, at, n / 10);
    out[end] = b'0' + (n % 10) as u8;
    end + 1
}
