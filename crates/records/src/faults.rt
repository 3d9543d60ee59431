ghost use Rattle.std.specs.Prelude.{◌≡◌};
ghost use Rattle.records.specs.declared.faults.RecordFault.TheVariants.{Bytes};
ghost use Rattle.records.specs.declared.faults.Refusal.TheVariants.{LogFault};
ghost use Rattle.records.specs.declared.faults.SessionFault.TheVariants.{Read};

// Where a record stands: the log's core and the offset in that log.
#[derive(Clone, Copy, PartialEq, Eq, Debug)]
pub struct Location {
    pub core: u8,
    pub offset: usize,
}

// Layer 1: the bytes are no record.
#[derive(Clone, Copy, PartialEq, Eq, Debug)]
pub enum ByteFault {
    Cut(Location),
    Mark(Location),
}

// Layer 2: the record breaks a rule of its log.
#[derive(Clone, Copy, PartialEq, Eq, Debug)]
pub enum RecordFault {
    Bytes(ByteFault),
    BadHead(Location),
    BadArc(Location),
    BadEnd(Location),
}

// Layer 3: the logs do not fit together.
#[derive(Clone, Copy, PartialEq, Eq, Debug)]
pub enum SessionFault {
    Read(RecordFault),
    Source(Location),
}

// Why a call is refused: 8 bad setting, 9 log fault.
#[derive(Clone, Copy, PartialEq, Eq, Debug)]
pub enum Refusal {
    BadSetting,
    LogFault(SessionFault),
}

impl From<ByteFault> for RecordFault {
    ghost from_gives = { λ e r. r ≡ Bytes e };

    fn from(e: ByteFault) -> RecordFault {
        RecordFault::Bytes(e)
    }
}

impl From<RecordFault> for SessionFault {
    ghost from_gives = { λ e r. r ≡ Read e };

    fn from(e: RecordFault) -> SessionFault {
        SessionFault::Read(e)
    }
}

impl From<SessionFault> for Refusal {
    ghost from_gives = { λ e r. r ≡ LogFault e };

    fn from(e: SessionFault) -> Refusal {
        Refusal::LogFault(e)
    }
}
