// Why a log ends where it does.
ghost use Rattle.std.specs.Prelude.{◌≡◌, drop};
ghost use Rattle.redolog.specs.Stop.{stop_of};

// Nothing is left of it; a zero byte; a record or group that is broken or unfinished.
#[derive(Clone, Copy, PartialEq, Eq)]
pub enum Stop {
    Full,
    Zero,
    Torn,
}

// By what is left of the log from a place on.
#[tactic(auto, using(crate::proofs::StopLaws::stops_from))]
pub fn stop_at(s: &[u8], at: usize) -> Stop
    ensures { result ≡ stop_of (drop at s.now) }
{
    match s.get(at) {
        None => Stop::Full,
        Some(0) => Stop::Zero,
        Some(_) => Stop::Torn,
    }
}
