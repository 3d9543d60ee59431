ghost use Rattle.std.specs.Prelude.{◌≡◌, ◌≤◌};
ghost use Rattle.records.specs.Settings.{fits_from, fits, settled_from, settled, can_begin as may_begin, free_behind, no_sizes, passed_by};

use crate::format::END_SIZE;
use std::marker::Model;

// The least bytes of a log that is opened, and of one that is begun.
pub const LEAST_OPENED: usize = 12;

pub const LEAST_BEGUN: usize = 12;

// The sizes of a session: its cores, its cells, and the bytes of each core's log.
#[derive(Clone, Copy, Default)]
pub struct Sizes {
    pub cores: usize,
    pub cells: usize,
    pub log_bytes: usize,
}

impl Sizes {
    // Whether they are in range, with at least so many bytes a log, and a store of so many bytes holds all logs.
    #[inline(always)]
    fn fit_from(self, least: usize, store_bytes: usize) -> bool
        ensures { result ≡ fits_from least store_bytes self }
    {
        (1..=4).contains(&self.cores)
            && (1..=256).contains(&self.cells)
            && (least..=16384).contains(&self.log_bytes)
            && self.cores * self.log_bytes <= store_bytes
    }

    // Whether they are in range and a store of so many bytes holds all logs.
    #[inline(always)]
    pub fn fit(self, store_bytes: usize) -> bool
        ensures { result ≡ fits store_bytes self }
    {
        self.fit_from(LEAST_OPENED, store_bytes)
    }

    // How many bytes of a log are free behind its end record, which stands at `end`; 0 where there is no room for it.
    #[inline(always)]
    pub fn free_behind(self, end: usize) -> usize
        ensures { result ≡ free_behind self end }
    {
        self.log_bytes.saturating_sub(end).saturating_sub(END_SIZE)
    }
}

// Whether the sizes are in range, with at least so many bytes a log, and the buffers are long enough for them.
#[inline(always)]
fn hold_from(sizes: Sizes, least: usize, cores: usize, cells: usize, store_bytes: usize) -> bool
    ensures { result ≡ settled_from least sizes cores cells store_bytes }
{
    sizes.fit_from(least, store_bytes) && sizes.cores <= cores && sizes.cells <= cells
}

// The same for logs to be opened.
#[inline(always)]
pub fn buffers_hold(sizes: Sizes, cores: usize, cells: usize, store_bytes: usize) -> bool
    ensures { result ≡ settled sizes cores cells store_bytes }
{
    hold_from(sizes, LEAST_OPENED, cores, cells, store_bytes)
}

// The same for a recording to begin.
#[inline(always)]
pub fn can_begin(sizes: Sizes, cores: usize, cells: usize, store_bytes: usize) -> bool
    ensures { result ≡ may_begin sizes cores cells store_bytes }
{
    hold_from(sizes, LEAST_BEGUN, cores, cells, store_bytes)
}

// The sizes of a session that was begun or opened, all 0 before any. Their ranges were tested then, and need be no more.
#[derive(Clone, Copy)]
pub struct CheckedSizes {
    sizes: Sizes,
}

impl Model for CheckedSizes {
    ghost use Rattle.std.specs.Prelude.{◌≡◌, true};
    ghost use Rattle.records.specs.declared.settings.Sizes.{Sizes};
    ghost use Rattle.records.specs.Settings.{none_or_in_range};

    ghost Value = { Sizes };

    ghost view = { λ s. s.sizes };

    ghost inverse = { λ z. record { sizes = z } };

    ghost invariant = { λ s. none_or_in_range s.sizes ≡ true };
}

impl CheckedSizes {
    // Before any session.
    pub fn none() -> CheckedSizes
        ensures { result ≡ no_sizes }
    {
        CheckedSizes {
            sizes: Sizes::default(),
        }
    }

    // Of a recording that begins; none where that is refused.
    pub fn to_begin(
        sizes: Sizes,
        cores: usize,
        cells: usize,
        store_bytes: usize,
    ) -> Option<CheckedSizes>
        ensures { result ≡ passed_by (may_begin sizes cores cells store_bytes) sizes }
    {
        if !can_begin(sizes, cores, cells, store_bytes) {
            return None;
        }
        Some(CheckedSizes { sizes })
    }

    // Of a recording that is opened; none where that is refused.
    pub fn to_open(
        sizes: Sizes,
        cores: usize,
        cells: usize,
        store_bytes: usize,
    ) -> Option<CheckedSizes>
        ensures { result ≡ passed_by (settled sizes cores cells store_bytes) sizes }
    {
        if !buffers_hold(sizes, cores, cells, store_bytes) {
            return None;
        }
        Some(CheckedSizes { sizes })
    }

    // The sizes alone, in range where there are any.
    #[inline(always)]
    pub fn get(self) -> Sizes
        ensures same { result ≡ self }
        ensures few { result.cores ≤ 4 }
    {
        self.sizes
    }

    // Whether there is a session, and the buffers are long enough for it.
    #[inline(always)]
    pub fn held_by(self, cores: usize, cells: usize, store_bytes: usize) -> bool
        ensures { result ≡ settled self cores cells store_bytes }
    {
        let Sizes {
            cores: used,
            cells: shared,
            log_bytes,
        } = self.sizes;
        used != 0 && used <= cores && shared <= cells && used * log_bytes <= store_bytes
    }
}

// What a log's head must say: the log's core, and the cores and cells of the session.
#[derive(Clone, Copy, PartialEq, Eq, Debug)]
pub struct Heading {
    pub core: u8,
    pub cores: u8,
    pub cells: u16,
}
