// Lines of text: a name, a number in decimal or a word, a line feed.
ghost use Rattle.std.specs.Prelude.{◌≡◌, ◌+◌, ◌≤◌, length};
ghost use Rattle.text.specs.{Put};
ghost use Rattle.listing.specs.Lines.{line, found_text, stop_text};
ghost use Rattle.listing.specs.Listing.{text_len};

use redolog::stop::Stop;
use redolog::stores::copy;
use store::State;
use text::put_decimal;

// A line from at on. Returns where it ends.
pub(crate) fn put_line(out: &mut [u8], at: usize, name: &[u8], n: u32) -> usize
    requires { at + length (line name.now n) ≤ length out.old }
    ensures { Put out.old at (line name.now n) result out.new }
{
    copy(out, at, name);
    let end = put_decimal(out, at + name.len(), n);
    out[end] = 10;
    end + 1
}

// The first five lines of a restart that was done. Returns where they end.
pub(crate) fn put_found(out: &mut [u8], pointer: u8, state: State, undone: usize) -> usize
    requires { (length out.old ≡ text_len) × (undone ≤ 4096) }
    ensures { Put out.old 0 (found_text pointer state.logend state.ondisk.0 state.lastid.0 undone) result out.new }
{
    let mut at = put_line(out, 0, b"pointer=", pointer as u32);
    at = put_line(out, at, b"end=", state.logend as u32);
    at = put_line(out, at, b"csn=", state.ondisk.0);
    at = put_line(out, at, b"id=", state.lastid.0 as u32);
    put_line(out, at, b"undone=", undone as u32)
}

// A text from at on. Returns where it ends.
fn put_text(out: &mut [u8], at: usize, text: &[u8]) -> usize
    requires { at + length text.now ≤ length out.old }
    ensures { Put out.old at text.now result out.new }
{
    copy(out, at, text);
    at + text.len()
}

// The sixth line. Returns where it ends.
pub(crate) fn put_stop(out: &mut [u8], at: usize, stop: Stop) -> usize
    requires { at + 10 ≤ length out.old }
    ensures { Put out.old at (stop_text stop) result out.new }
{
    match stop {
        Stop::Full => put_text(out, at, b"stop=full\n"),
        Stop::Zero => put_text(out, at, b"stop=zero\n"),
        Stop::Torn => put_text(out, at, b"stop=torn\n"),
    }
}
