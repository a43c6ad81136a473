// The memory of stores: cells that a line of text names.

use crate::desk::Desk;
use crate::stops::Stop;
use crate::text::read;
use std::io::{BufRead, Write};
use std::str::FromStr;

// Makes a memory of n cells, 0 but for those that the words after the third of the present line name.
pub(crate) fn fill<R: BufRead, W: Write, T: FromStr + Copy + Drop>(
    desk: &Desk<R, W>,
    memory: &mut Vec<T>,
    n: u32,
    zero: T,
) -> Result<(), Stop>
where
    T::Err: Drop,
{
    memory.clear();
    memory.resize(n as usize, zero)?;
    put_cells(desk.text()?, memory.as_mut_slice()).map_err(|expected| desk.stop(expected))
}

fn put_cells<T: FromStr + Copy + Drop>(line: &str, memory: &mut [T]) -> Result<(), &'static str>
where
    T::Err: Drop,
{
    for cell in line.split(' ').skip(3) {
        put_cell(cell, memory)?;
    }
    Ok(())
}

// Makes one cell, written i=v.
fn put_cell<T: FromStr + Copy + Drop>(cell: &str, memory: &mut [T]) -> Result<(), &'static str>
where
    T::Err: Drop,
{
    let (place, value) = cell.split_once('=').ok_or("a cell, as 1=7")?;
    let i: u32 = read(Some(place), "a cell, as 1=7")?;
    let v: T = read(Some(value), "a cell with a value that it can hold")?;
    let slot = memory.get_mut(i as usize).ok_or("a cell of the store")?;
    *slot = v;
    Ok(())
}
