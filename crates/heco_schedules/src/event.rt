ghost use Rattle.std.specs.Prelude.{◌≡◌};
ghost use Rattle.heco_schedules.specs.Standings.{is_open, is_finished};

/// Where a gate stands.
#[derive(Clone, Copy, Debug, Drop, PartialEq, Eq)]
pub enum Stage {
    Open,
    Claimed(u8),
    Done,
}

impl Stage {
    pub fn is_open(self) -> bool
        ensures { result ≡ is_open self }
    {
        match self {
            Stage::Open => true,
            Stage::Claimed(_) | Stage::Done => false,
        }
    }

    pub fn is_finished(self) -> bool
        ensures { result ≡ is_finished self }
    {
        match self {
            Stage::Open | Stage::Claimed(_) => false,
            Stage::Done => true,
        }
    }
}

/// What a worker does with a gate.
#[derive(Clone, Copy, Debug, Drop, PartialEq, Eq)]
pub enum Event {
    Claim { worker: u8, gate: u32 },
    Finish { worker: u8 },
}

/// Why an event is not legal.
#[derive(Clone, Copy, Debug, Drop, PartialEq, Eq)]
pub enum StepErr {
    NoWorker,
    NoGate,
    NotIdle { gate: u32 },
    Taken { worker: u8 },
    Done,
    NotReady { wire: u32 },
    NotBusy,
}
