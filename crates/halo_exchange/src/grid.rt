//! Rectangles of cells, and one step of them.
use crate::ranks::GRID_SIDE;
use std::alloc::{AllocError, Global};

/// A square of cells whose first cell stands at (x, y) of the grid: row by row from the north, each row from the west.
#[derive(Drop)]
pub struct Block {
    x: u64,
    y: u64,
    rows: Vec<Vec<u64>>,
}

/// The cells around a block: the rows to its north and south, and the columns to its west and east.
#[derive(Drop)]
pub struct Halo {
    pub north: Vec<u64>,
    pub south: Vec<u64>,
    pub west: Vec<u64>,
    pub east: Vec<u64>,
}

/// What a cell is at the start.
fn first_value(x: u64, y: u64) -> u64 {
    x.wrapping_mul(0x9e37_79b9_7f4a_7c15) ^ y.wrapping_mul(0xc2b2_ae3d_27d4_eb4f)
}

/// What a cell is a step later. The four sides count differently, so that none stands for another.
fn next_value(cell: u64, north: u64, south: u64, west: u64, east: u64) -> u64 {
    let sides = north
        .wrapping_add(south.wrapping_mul(3))
        .wrapping_add(west.wrapping_mul(7))
        .wrapping_add(east.wrapping_mul(11));
    cell.wrapping_mul(5).wrapping_add(sides)
}

/// The cell at this place of a row, or another one behind its end.
fn at(cells: &[u64], place: usize, other: u64) -> u64 {
    cells.get(place).copied().unwrap_or(other)
}

/// A row at the start, from the cell at x on.
fn first_row(alloc: Global, x: u64, y: u64, width: u64) -> Result<Vec<u64>, AllocError> {
    let mut row = Vec::new(alloc);
    for right in 0..width {
        row.push(first_value(x.wrapping_add(right), y))?;
    }
    Ok(row)
}

/// A row a step later, between the rows to its north and south, and the cells to its west and east.
fn next_row(
    alloc: Global,
    row: &[u64],
    north: &[u64],
    south: &[u64],
    west: u64,
    east: u64,
) -> Result<Vec<u64>, AllocError> {
    let mut next = Vec::new(alloc);
    let mut left = west;
    for (x, cell) in row.iter().enumerate() {
        let right = at(row, x + 1, east);
        next.push(next_value(*cell, at(north, x, 0), at(south, x, 0), left, right))?;
        left = *cell;
    }
    Ok(next)
}

impl Block {
    /// The block at the start whose first cell stands at (x, y) of the grid.
    pub fn first(alloc: Global, x: u64, y: u64, side: u64) -> Result<Block, AllocError> {
        let mut rows = Vec::new(alloc);
        for down in 0..side {
            let row = first_row(alloc, x, y.wrapping_add(down), side)?;
            rows.push(row)?;
        }
        Ok(Block { x, y, rows })
    }

    /// The block a step later.
    pub fn next(&self, alloc: Global, halo: &Halo) -> Result<Block, AllocError> {
        let mut rows = Vec::new(alloc);
        let mut north = halo.north.as_slice();
        for (y, row) in self.rows.iter().enumerate() {
            let south = match self.rows.get(y + 1) {
                Some(row) => row.as_slice(),
                None => halo.south.as_slice(),
            };
            let west = at(&halo.west, y, 0);
            let east = at(&halo.east, y, 0);
            let next = next_row(alloc, row, north, south, west, east)?;
            rows.push(next)?;
            north = row.as_slice();
        }
        Ok(Block {
            x: self.x,
            y: self.y,
            rows,
        })
    }

    /// The first row.
    pub fn north(&self) -> &[u64] {
        match self.rows.first() {
            Some(row) => row.as_slice(),
            None => &[],
        }
    }

    /// The last row.
    pub fn south(&self) -> &[u64] {
        match self.rows.last() {
            Some(row) => row.as_slice(),
            None => &[],
        }
    }

    /// The first column.
    pub fn west(&self, alloc: Global) -> Result<Vec<u64>, AllocError> {
        let mut column = Vec::new(alloc);
        for row in &self.rows {
            column.push(row.first().copied().unwrap_or(0))?;
        }
        Ok(column)
    }

    /// The last column.
    pub fn east(&self, alloc: Global) -> Result<Vec<u64>, AllocError> {
        let mut column = Vec::new(alloc);
        for row in &self.rows {
            column.push(row.last().copied().unwrap_or(0))?;
        }
        Ok(column)
    }

    /// The sum of all cells, each times the number of its place, so that it tells where a cell stands.
    pub fn checksum(&self) -> u64 {
        let mut sum = 0u64;
        for (down, row) in self.rows.iter().enumerate() {
            let y = self.y.wrapping_add(down as u64);
            sum = sum.wrapping_add(row_checksum(row, self.x, y));
        }
        sum
    }

    /// How many cells of a part differ from those that this block has in their places.
    pub fn differing(&self, part: &Block) -> u64 {
        let mut count = 0u64;
        for (down, row) in part.rows.iter().enumerate() {
            let y = part.y.wrapping_sub(self.y).wrapping_add(down as u64);
            let own = match self.rows.get(y as usize) {
                Some(own) => own.as_slice(),
                None => &[],
            };
            count = count.wrapping_add(row_differing(own, row, part.x.wrapping_sub(self.x)));
        }
        count
    }
}

/// The sum of the cells of a row, each times the number of its place.
fn row_checksum(row: &[u64], x: u64, y: u64) -> u64 {
    let first = y.wrapping_mul(GRID_SIDE).wrapping_add(x);
    let mut sum = 0u64;
    for (right, cell) in row.iter().enumerate() {
        let place = first.wrapping_add(right as u64).wrapping_mul(2);
        sum = sum.wrapping_add(cell.wrapping_mul(place.wrapping_add(1)));
    }
    sum
}

/// How many cells of a part of a row differ from those of the row, in which the part begins at x.
fn row_differing(row: &[u64], part: &[u64], x: u64) -> u64 {
    let mut count = 0u64;
    for (right, cell) in part.iter().enumerate() {
        let place = x.wrapping_add(right as u64);
        if row.get(place as usize).copied() != Some(*cell) {
            count = count.wrapping_add(1);
        }
    }
    count
}
