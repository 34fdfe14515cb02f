// The calls of a stream, each with its number (docs/STREAM.md).
ghost use Rattle.report.specs.Call.{Names};

#[derive(Clone, Copy, PartialEq, Eq)]
pub enum Call {
    Begin,
    Write,
    Read,
    // Read's sister.
    CheckRead,
    Precommit,
    Abort,
    Flush,
    Settle,
    Checkpoint,
    Restart,
    PowerFails,
    Damage,
    KeepCopy,
    Equal,
    FirstGroups,
    OnePage,
    SetSavepoint,
    GoBack,
    Outcomes,
}

// A number that is no call.
#[derive(Clone, Copy, PartialEq, Eq)]
pub struct UnknownCall(pub u8);

impl TryFrom<u8> for Call {
    type Error = UnknownCall;

    ghost try_from_gives = { Names };

    fn try_from(number: u8) -> Result<Self, UnknownCall> {
        Ok(match number {
            1 => Call::Begin,
            2 => Call::Write,
            3 => Call::Read,
            4 => Call::CheckRead,
            5 => Call::Precommit,
            6 => Call::Abort,
            7 => Call::Flush,
            8 => Call::Settle,
            9 => Call::Checkpoint,
            10 => Call::Restart,
            11 => Call::PowerFails,
            12 => Call::Damage,
            13 => Call::KeepCopy,
            14 => Call::Equal,
            15 => Call::FirstGroups,
            16 => Call::OnePage,
            17 => Call::SetSavepoint,
            18 => Call::GoBack,
            19 => Call::Outcomes,
            _ => return Err(UnknownCall(number)),
        })
    }
}
