//! What is known of cells from outside.
ghost use Rattle.std.specs.Prelude.{◌≡◌, ℕ, List};
ghost use Rattle.section_queues.specs.Facts.{is_in};

use notebook::CellId;

/// What is known of cells: which ones are evaluated, and which ones show a fault. A cell has failed
/// where it is both.
pub trait CellFacts {
    /// The evaluated cells.
    ghost evaluated_cells: { Self → List ℕ };

    /// The cells that show a fault, also where that doesn't count any more.
    ghost faulty_cells: { Self → List ℕ };

    /// Whether the cell is evaluated: true exactly where it is among the evaluated ones.
    fn evaluated(&self, cell: CellId) -> bool
        ensures { result ≡ is_in cell (evaluated_cells self.now) };

    /// Whether the cell shows a fault: true exactly where it is among those that do.
    fn failed(&self, cell: CellId) -> bool
        ensures { result ≡ is_in cell (faulty_cells self.now) };
}
