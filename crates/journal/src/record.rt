// A record of the log, and where it lies.
ghost use Rattle.std.specs.Prelude.{◌≡◌, take};
ghost use Rattle.journal.specs.Links.{place_of};

// One change of one cell, with changes of type C. Records are numbered from 1 in the order of writing.
#[derive(Clone, Copy, Debug, PartialEq, Eq)]
pub struct Record<C> {
    pub cell: u16,
    // the cell's record before this one, or 0
    pub next: u32,
    // the record that a jump leads to, past all that this one reaches over, or 0
    pub skip: u32,
    // how many of the cell's records this one reaches over, itself included
    pub length: u32,
    // the oldest record that it reaches over
    pub foot: u32,
    pub change: C,
    // the changes of all that it reaches over, oldest first, as one change
    pub fold: C,
}

// The place of record `number` in the log. The only rule of where a record lies.
pub fn place_of(number: usize) -> usize
    ensures { result ≡ place_of number }
{
    number.saturating_sub(1)
}

// Records 1 to `count` in order, or all where there are fewer: those before the place of the next one.
pub fn first_records<C>(records: &[Record<C>], count: u32) -> &[Record<C>]
    ensures { result.now ≡ take count records.now }
{
    &records[..place_of(count as usize + 1).min(records.len())]
}

// The cell that a record belongs to. In this crate and in `volume` nothing else reads the field.
pub fn cell_of<C>(r: &Record<C>) -> u16
    ensures { result ≡ r.now.cell }
{
    r.cell
}
