use crate::faults::FileFault;
use crate::forms::{write_header, write_record_at};
use crate::header::{Handed, load_header, read_header};
use crate::items::{Item, Items, nth_answer};
use crate::records::record_at;
use crate::states::state_after;
use kind::bank_map::BankMap;
use kind::tally::Tally;

// Two cells, and two records: cell 0 by 5, cell 1 by -2.
const SAVED: [u8; 28] = [
    0x54, 1, 2, 0, 2, 0, 0, 0, 0, 0, 0, 0, 0, 0, 5, 0, 0, 0, 0, 0, 0, 0, 1, 0, 0xfe, 0xff, 0xff,
    0xff,
];

// The number of a refusal, or 0.
fn refusal<T: Drop>(r: Result<T, FileFault>) -> u8 {
    r.err().map_or(0, |fault| fault.number())
}

// The worked file with one byte changed.
fn with(at: usize, byte: u8) -> [u8; 28] {
    let mut file = SAVED;
    if at < 28 {
        file[at] = byte;
    }
    file
}

fn state(file: &[u8], cell: u32, moment: u32) -> i32 {
    state_after::<Tally>(file, cell, moment).unwrap_or_else(|fault| 1000 + fault.number() as i32)
}

#[test]
fn reads_the_states(rt: HostRuntime) {
    assert_eq!(rt; state(&SAVED, 0, 0), 0);
    assert_eq!(rt; state(&SAVED, 0, 1), 5);
    assert_eq!(rt; state(&SAVED, 1, 1), 0);
    assert_eq!(rt; state(&SAVED, 0, 2), 5);
    assert_eq!(rt; state(&SAVED, 1, 2), -2);
    assert_eq!(rt; state(&SAVED, 1, 99), -2);
}

#[test]
fn refuses_headers_in_order(rt: HostRuntime) {
    assert_eq!(rt; refusal(read_header::<Tally>(&SAVED)), 0);
    assert_eq!(rt; refusal(read_header::<Tally>(&SAVED[0..7])), 5);
    assert_eq!(rt; refusal(read_header::<BankMap>(&SAVED)), 6);
    assert_eq!(rt; refusal(read_header::<Tally>(&with(1, 2))), 7);
    assert_eq!(rt; refusal(read_header::<Tally>(&with(2, 0))), 8);
    assert_eq!(rt; refusal(read_header::<Tally>(&with(6, 1))), 9);
    assert_eq!(rt; refusal(read_header::<Tally>(&SAVED[0..27])), 10);
}

#[test]
fn refuses_what_does_not_go_into_a_load(rt: HostRuntime) {
    assert_eq!(rt;
        refusal(load_header::<Tally>(&SAVED, Handed { cells: 2, room: 2 })),
        0
    );
    assert_eq!(rt;
        refusal(load_header::<Tally>(&SAVED, Handed { cells: 3, room: 2 })),
        8
    );
    assert_eq!(rt;
        refusal(load_header::<Tally>(&SAVED, Handed { cells: 2, room: 1 })),
        9
    );
}

#[test]
fn refuses_records(rt: HostRuntime) {
    assert_eq!(rt; state(&with(22, 2), 0, 1), 5);
    assert_eq!(rt; state(&with(22, 2), 0, 2), 1015);
    assert_eq!(rt; state(&with(18, 1), 1, 2), 1016);
    assert_eq!(rt; state(&with(18, 1), 0, 2), 5);
    assert_eq!(rt; refusal(record_at(&SAVED, 4, 2)), 0);
    assert_eq!(rt; refusal(record_at(&SAVED, 4, 3)), 10);
    assert_eq!(rt; refusal(record_at(&SAVED, 4, 0)), 10);
}

// 1 for a header, the cell and 2 for a record, 9 for the end, or the refusal.
fn mark(r: Result<Item, FileFault>) -> u32 {
    match r {
        Ok(Item::Header(_)) => 1,
        Ok(Item::Record(saved)) => saved.cell as u32 + 2,
        Ok(Item::End) => 9,
        Err(fault) => 100 + fault.number() as u32,
    }
}

// What five calls of the item reader give.
fn five(file: &[u8]) -> [u32; 5] {
    let mut items = Items::new(file);
    let mut marks = [0; 5];
    for m in &mut marks {
        *m = mark(items.next_item());
    }
    marks
}

#[test]
fn gives_items_in_turn(rt: HostRuntime) {
    assert_eq!(rt; five(&SAVED), [1, 2, 3, 9, 9]);
    assert_eq!(rt; five(&with(12, 7)), [1, 115, 115, 115, 115]);
    assert_eq!(rt; five(&with(0, 0x50)), [106, 106, 106, 106, 106]);
    assert_eq!(rt; mark(nth_answer(&SAVED, 2)), 3);
}

#[test]
fn writes_the_file(rt: HostRuntime) {
    let mut out = [7; 30];
    assert!(rt; write_header('T', 2, 2, &mut out));
    assert!(rt; write_record_at::<Tally>(1, 0, 0, &5, &mut out));
    assert!(rt; write_record_at::<Tally>(2, 0, 1, &-2, &mut out));
    assert!(rt; !write_record_at::<Tally>(3, 0, 1, &-2, &mut out));
    assert!(rt; !write_header('\u{154}', 2, 2, &mut out));
    assert!(rt; out[0..28] == SAVED[0..28]);
    assert_eq!(rt; out[28], 7);
}
