// The weights of a list of cells of any kind, or the first cell that has none.
ghost use Rattle.std.specs.Prelude.{◌≡◌, ◌≤◌, ◌++◌, map, length, take, drop, IfOk, MatchResult, unsigned_abs};
ghost use Rattle.std.specs.List.{AllByRecursion};
ghost use Rattle.words.specs.Refusals.{refusal_of};
ghost use Rattle.cells.specs.Readings.{weight_or_0, cell_row, weigh_row, Weighed};

use crate::cell::Cell;
use words::{Refusal, check_room};

// Refuses the first cell that has no weight, with its place and its fault.
pub fn check_cells<C: Cell>(cells: &[C]) -> Result<(), Refusal>
    ensures refused { refusal_of result ≡ cell_row 0 (map C.Cell.reading cells.now) }
{
    // A rule of the project: a loop with the place, and the first fault ends it. The search over bytes is its twin, below where there are cells.
    for (place, cell) in cells.iter().enumerate() {
        cell.read().map_err(|fault| Refusal::At { place, fault })?;
    }
    Ok(())
}

// Writes the weight of each cell into the front of the buffer, and 0 for a cell that has none.
fn write_weights<C: Cell>(cells: &[C], weights: &mut [i8])
    requires room { length cells.now ≤ length weights.old }
    ensures { weights.new ≡ map (λ cell. weight_or_0 (C.Cell.reading cell)) cells.now ++ drop (length cells.now) weights.old }
{
    // By the place: after `weights.iter_mut().zip(cells)` nothing is known of what was written, so `returns` stays open. Messages are written likewise: one
    // function for both would have to say what a closure gives at each place.
    for (place, cell) in cells.iter().enumerate() {
        weights[place] = cell.read().unwrap_or(0);
    }
}

// Writes the weights of the cells into the front of the buffer, and answers how many they are.
pub fn weigh<C: Cell>(cells: &[C], weights: &mut [i8]) -> Result<usize, Refusal>
    ensures refused { refusal_of result ≡ weigh_row (map C.Cell.reading cells.now) (length weights.old) }
    ensures written { MatchResult result (λ n. (n ≡ length cells.now) × Weighed (map C.Cell.reading cells.now) (take n weights.new) × (drop n weights.new ≡ drop n weights.old)) (λ _. weights.new ≡ weights.old) }
    ensures bound { IfOk result (λ n. n ≤ length weights.old) }
    ensures small { IfOk result (λ n. AllByRecursion (λ w. unsigned_abs w ≤ 127) (take n weights.new)) }
{
    check_room(weights.len(), cells.len())?;
    check_cells(cells)?;
    write_weights(cells, weights);
    Ok(cells.len())
}
