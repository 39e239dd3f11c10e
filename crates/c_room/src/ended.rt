//! What is said at the end of the lanes.
ghost use Rattle.std.specs.Prelude.{◌≡◌, cond};
ghost use Rattle.c_room.specs.Reports.{counted};

use crate::status::Status;
use link_sink::Outcome;
use track_sink::TrackOutcome;

/// What is counted at the end.
#[derive(Clone, Copy, Drop)]
pub struct EndCounts {
    /// How many columns there were; of lanes that may lose bits how many epochs.
    pub columns: u64,
    /// 1 where the lanes were aligned; of lanes that may lose bits in how many epochs they were.
    pub aligned: u64,
}

impl EndCounts {
    /// Those of columns.
    pub(crate) fn of_columns(outcome: Outcome) -> EndCounts
        ensures columns { result.columns ≡ outcome.columns }
        ensures aligned { result.aligned ≡ cond outcome.aligned 1 0 }
    {
        EndCounts {
            columns: outcome.columns,
            aligned: u64::from(outcome.aligned),
        }
    }

    /// Those of epochs.
    pub(crate) fn of_epochs(outcome: TrackOutcome) -> EndCounts
        ensures columns { result.columns ≡ outcome.epochs }
        ensures aligned { result.aligned ≡ outcome.aligned }
    {
        EndCounts {
            columns: outcome.epochs,
            aligned: outcome.aligned,
        }
    }
}

/// What an end answers: its status, and what is counted where it is `Done`.
#[derive(Clone, Copy, Drop)]
pub struct Ended {
    pub status: Status,
    pub counts: EndCounts,
}

impl Ended {
    /// Nothing was ended.
    pub fn refused(status: Status) -> Ended
        ensures status { result.status ≡ status }
        ensures counts { result.counts ≡ counted 0 0 }
    {
        Ended {
            status,
            counts: EndCounts {
                columns: 0,
                aligned: 0,
            },
        }
    }
}
