// Which turns are refused, and how the ledger counts the others.
ghost use Rattle.std.specs.Prelude.{◌≡◌, ◌+◌, ◌*◌, ◌<◌, ◌≤◌, slice_index_or};
ghost use Rattle.std.specs.Result.{result_err};
ghost use Rattle.records.specs.Format.{end_size};
ghost use Rattle.records.specs.Settings.{least_begun};
ghost use Rattle.recorder.specs.Sound.{no_log};
ghost use Rattle.recorder.specs.Refusals.{book, touched, barred, code, counted_in, started};

use crate::ledger::{Ledger, Log};
use cores::acting::cell_exists;
use cores::interface::Request;
use records::settings::CheckedSizes;
use reducers::interface::AccessKind;

// Why a call does nothing.
#[derive(Clone, Copy, PartialEq, Eq, Debug)]
pub enum Refusal {
    NoSuchCore,
    Halted,
    CountSpent,
    NoSuchCell,
    LogFull,
    BadSetting,
}

// A cell that is read or written; an exchange counts as a write.
#[derive(Clone, Copy)]
pub struct Touch {
    pub cell: u16,
    pub kind: AccessKind,
}

// What a request does to the cells, none if nothing.
pub(crate) fn touch_of(request: Request) -> Option<Touch>
    ensures { result ≡ touched request }
{
    match request {
        Request::Halt | Request::Local => None,
        Request::Read { cell } => Some(Touch {
            cell,
            kind: AccessKind::Read,
        }),
        Request::Write { cell, .. } | Request::Exchange { cell, .. } => Some(Touch {
            cell,
            kind: AccessKind::Write,
        }),
    }
}

impl Ledger {
    // A ledger of empty logs.
    pub(crate) fn new(sizes: CheckedSizes) -> Ledger
        requires few { sizes.cores ≤ 4 }
        requires room { 0 < sizes.cores → least_begun ≤ sizes.log_bytes }
        ensures { book result ≡ started sizes }
    {
        Ledger {
            sizes,
            logs: [Log::EMPTY; 4],
            position: 0,
        }
    }

    // Whether core `j` may go on with `request`, or why not.
    pub(crate) fn admit(&self, j: usize, request: Request) -> Result<(), Refusal>
        requires { j < self.now.sizes.cores }
        ensures { code (result_err result) ≡ barred (book self.now) j request }
    {
        let sizes = self.sizes.get();
        let log = self.logs[j];
        if request == Request::Halt {
            return Err(Refusal::Halted);
        }
        if log.instructions == 65535 {
            return Err(Refusal::CountSpent);
        }
        if !cell_exists(request, sizes.cells) {
            return Err(Refusal::NoSuchCell);
        }
        // one arc from each other core must fit, whatever the reducer will answer
        let free = sizes.free_behind(log.end);
        if touch_of(request).is_some() && free < 7 * (sizes.cores - 1) {
            return Err(Refusal::LogFull);
        }
        Ok(())
    }

    // Counts one more instruction of core `j`, whose log now has so many arcs and its end record there.
    pub(crate) fn count(&mut self, j: usize, arcs: u16, end: usize)
        requires inside { j < self.old.sizes.cores }
        requires unspent { (slice_index_or self.old.logs j no_log).instructions < 65535 }
        requires behind { 6 + 7 * arcs ≤ end }
        requires room { end + end_size ≤ self.old.sizes.log_bytes }
        ensures { book self.new ≡ counted_in (book self.old) j arcs end }
    {
        let instructions = self.logs[j].instructions + 1;
        self.logs[j] = Log {
            instructions,
            arcs,
            end,
        };
        self.position += 1;
    }
}
