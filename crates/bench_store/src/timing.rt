// Rounds of work, how long they took, and the best of them.
use std::io;
use std::time::Instant;

// The nanoseconds since a moment.
pub fn since(rt: &HostRuntime, start: Instant) -> io::Result<u64> {
    Ok(u64::try_from(start.elapsed(rt)?.as_nanos()).unwrap_or(u64::MAX))
}

// How much is done.
#[derive(Clone, Copy)]
pub struct Pace {
    // Whether the time is printed.
    pub timed: bool,
    // How often a list of calls is made.
    pub lists: u32,
    // How many versions of each entry the large store of the calls holds.
    pub versions: u32,
    // How many rounds a workload has; the best is told.
    pub rounds: u32,
    // After so many nanoseconds a round of reads or of collects is long enough.
    pub least: u64,
    // How many batches a round of saves has, and a round of collects at most.
    pub batches: u32,
}

impl Pace {
    pub const SHORT: Pace = Pace {
        timed: false,
        lists: 10,
        versions: 2,
        rounds: 1,
        least: 0,
        batches: 1,
    };

    pub const LONG: Pace = Pace {
        timed: true,
        lists: 50_000,
        versions: 60,
        rounds: 40,
        least: 5_000_000,
        batches: 600,
    };
}

// What was done in a round: so many operations in so many nanoseconds. The sum of what they answered is printed, so that none can be left
// out, and so that every side is seen to answer the same.
#[derive(Clone, Copy)]
pub struct Round {
    pub nanos: u64,
    pub operations: u64,
    pub sum: u64,
}

impl Round {
    // A round before its first operation.
    pub const NONE: Round = Round {
        nanos: 0,
        operations: 0,
        sum: 0,
    };

    // So many operations, and the sum of what they answered.
    pub fn of(operations: u64, sum: u64) -> Round {
        Round {
            nanos: 0,
            operations,
            sum,
        }
    }

    // The round with an operation more, which answered this.
    pub fn with(self, answer: u64) -> Round {
        Round {
            nanos: self.nanos,
            operations: self.operations.wrapping_add(1),
            sum: self.sum.wrapping_add(answer),
        }
    }

    // This round, or another that took less time for each operation.
    pub fn or_better(self, other: Round) -> Round {
        let own = self.nanos.wrapping_mul(other.operations);
        let others = other.nanos.wrapping_mul(self.operations);
        if others < own { other } else { self }
    }

    // This round and a batch more.
    pub fn and(self, batch: Round) -> Round {
        Round {
            nanos: self.nanos.wrapping_add(batch.nanos),
            operations: self.operations.wrapping_add(batch.operations),
            sum: self.sum.wrapping_add(batch.sum),
        }
    }

    // The round with the time since a moment.
    pub fn since(self, rt: &HostRuntime, start: Instant) -> io::Result<Round> {
        let nanos = since(rt, start)?;
        Ok(Round { nanos, ..self })
    }
}
