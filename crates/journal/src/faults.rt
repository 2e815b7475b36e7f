// What is found wrong with the links of a cell.
use thiserror::Error;

// A link: its cell and the record that holds it, 0 for the head. A length that would pass 65,535: the cell and the record below the new one.
// A cell number that is too high: the record that has it.
#[derive(Clone, Copy, Debug, PartialEq, Eq, Error)]
pub enum LadderFault {
    #[error("cell {cell}, record {record} (bad link)")]
    Link { cell: u16, record: u32 },
    #[error("cell {cell}, length at record {record} (length above 65535)")]
    Length { cell: u16, record: u32 },
    #[error("cell number at record {record} (cell number too high)")]
    Cell { record: u32 },
}
