//! The places of things on the page, in pixels. A place past the largest number is at it.

ghost use Rattle.std.specs.Prelude.{◌≡◌, ℕ, ◌<◌, ◌≤◌};
ghost use Rattle.pt_chart.specs.Page.{above, height_of, row_or_end, width_of, x_of, y_of};

/// The distance between two rows.
const ROW: u64 = 32;
/// The number of rows after which the names of the processes are repeated.
pub(crate) const BLOCK: usize = 40;
/// The room for these names.
const NAMES: u64 = 40;
/// The distance between two columns.
const COLUMN: u64 = 180;
/// The room for the stamps of the events.
const STAMPS: u64 = 74;
/// The room above the first row.
const TOP: u64 = 152;
/// The room below the last row.
const BOTTOM: u64 = 16;
/// The width of the legend.
const LEGEND: u64 = 250;

/// The measures of a page.
#[derive(Clone, Copy)]
pub(crate) struct Page {
    /// The room for labels that are wider than the last column.
    pub beside: usize,
    /// The number of processes.
    pub columns: usize,
    /// The number of events.
    pub events: usize,
    /// The number of their rows, and of those in which letters in flight end.
    pub rows: usize,
}

/// The middle of a column.
pub(crate) fn x(column: usize) -> u64
    ensures { result ≡ x_of column }
{
    COLUMN
        .saturating_mul(column as u64)
        .saturating_add(STAMPS + COLUMN / 2)
}

/// The middle of a row.
pub(crate) fn y(row: usize) -> u64
    ensures { result ≡ y_of row }
{
    ROW.saturating_mul(row as u64)
        .saturating_add(NAMES.saturating_mul((row / BLOCK) as u64))
        .saturating_add(TOP)
}

/// A height above another one.
pub(crate) fn above(y: u64, by: u64) -> u64
    ensures { result ≡ above y by }
{
    y.saturating_sub(by)
}

impl Page {
    /// The height at which the lines of live processes end.
    pub(crate) fn end(&self) -> u64
        ensures { result ≡ y_of self.now.rows }
    {
        y(self.rows)
    }

    /// The middle of a row, or the height at which all lines end.
    pub(crate) fn row_or_end(&self, row: Option<usize>) -> u64
        ensures { result ≡ row_or_end self.now row }
    {
        match row {
            Some(row) => y(row),
            None => self.end(),
        }
    }

    /// The width of the page, which has room for all columns.
    pub(crate) fn width(&self) -> u64
        ensures width { result ≡ width_of self.now }
        ensures covers { (column : ℕ) → column < self.now.columns → x_of column ≤ result }
    {
        COLUMN
            .saturating_mul(self.columns as u64)
            .saturating_add(STAMPS)
            .saturating_add(self.beside as u64)
            .max(LEGEND)
    }

    /// The height of the page, which has room for all rows.
    pub(crate) fn height(&self) -> u64
        ensures height { result ≡ height_of self.now }
        ensures covers { (row : ℕ) → row < self.now.rows → y_of row ≤ result }
    {
        self.end().saturating_add(BOTTOM)
    }
}
