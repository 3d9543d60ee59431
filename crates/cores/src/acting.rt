// What a request does to the cells and to its core.
ghost use Rattle.std.specs.Prelude.{◌≡◌, slice_index, slice_set};
ghost use Rattle.cores.specs.Acting.{within};
ghost use Rattle.cores.specs.Memory.{brought, stored};

use crate::interface::{Core, Request};

// Whether the request names no cell at or above `cell_count`.
#[inline(always)]
pub fn cell_exists(request: Request, cell_count: usize) -> bool
    ensures { result ≡ within request cell_count }
{
    match request {
        Request::Halt | Request::Local => true,
        Request::Read { cell } | Request::Write { cell, .. } | Request::Exchange { cell, .. } => {
            usize::from(cell) < cell_count
        }
    }
}

// Acts on the cells, and gives the number that the request brings. A cell that is not there brings 0 and is not stored to.
#[inline(always)]
pub fn act(request: Request, cells: &mut [u16]) -> u16
    ensures brings { result ≡ brought request cells.old }
    ensures stores { cells.new ≡ stored request cells.old }
{
    match request {
        Request::Halt | Request::Local => 0,
        Request::Read { cell } => number_in(cells, cell),
        Request::Write { cell, number } => {
            store(cells, cell, number);
            0
        }
        Request::Exchange { cell, number } => {
            let old = number_in(cells, cell);
            store(cells, cell, number);
            old
        }
    }
}

// Carries out what a core requests: memory acts, and the core is told the number that this brings, which is the answer.
#[inline(always)]
pub fn carry_out<K: Core>(core: &mut K, text: &[u8], request: Request, cells: &mut [u16]) -> u16
    ensures brings { result ≡ brought request cells.old }
    ensures stores { cells.new ≡ stored request cells.old }
    ensures tells { K.state core.new ≡ K.after text.now (K.state core.old) result }
{
    let number = act(request, cells);
    core.tell(text, number);
    number
}

#[inline(always)]
fn number_in(cells: &[u16], cell: u16) -> u16
    ensures { result ≡ slice_index cells.now cell }
{
    cells.get(usize::from(cell)).copied().unwrap_or(0)
}

#[inline(always)]
fn store(cells: &mut [u16], cell: u16, number: u16)
    ensures { cells.new ≡ slice_set cells.old cell number }
{
    let at = usize::from(cell);
    // the library's `get_mut` does not say what the slice ends as
    if at < cells.len() {
        cells[at] = number;
    }
}
