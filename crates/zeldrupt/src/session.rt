// What a script works on: memory of the kind that was formatted last, and files.
use crate::answer::Answer;
use crate::fault::Fault;
use crate::memory::{Memory, Sizes};
use file::faults::FileFault;
use file::header::any_header;
use file::items::{Item, Items};
use file::letters::BoardKind;
use file::records::SavedRecord;
use kind::bank_map::BankMap;
use kind::block::Block;
use kind::tally::Tally;
use script::command::{Command, Spoken};
use script::hexadecimal;
use script::line::Words;
use script::notation::Notation;
use std::alloc::Global;
use std::fs;
use volume::recalls::recall_any;

#[derive(Drop)]
enum Store {
    Blocks(Memory<Block>),
    Tallies(Memory<Tally>),
    Maps(Memory<BankMap>),
}

#[derive(Drop)]
pub struct Session {
    heap: Global,
    // none where nothing is formatted
    store: Option<Store>,
}

// Appends the bytes that a word writes, two digits each.
fn push_bytes(heap: Global, word: &str, bytes: &mut Vec<u8>) -> Result<(), Fault> {
    let mut more = vec![in heap; 0u8; word.len() / 2]?;
    hexadecimal::read_exact(word, &mut more)?;
    bytes.extend_from_slice(&more)?;
    Ok(())
}

impl Session {
    pub fn new(heap: Global) -> Session {
        Session { heap, store: None }
    }

    // Memory of zero bytes takes the place of what was there, also where its format is refused.
    fn fresh<K: Notation, F: FnOnce(Memory<K>) -> Store>(
        &mut self,
        sizes: Sizes,
        wrap: F,
    ) -> Result<Answer, Fault>
        requires { F.IsAlwaysCallable wrap }
    {
        let mut memory = Memory::<K>::new(self.heap, sizes)?;
        let answer = memory.format();
        self.store = Some(wrap(memory));
        answer
    }

    fn format(&mut self, kind: &str, sizes: Sizes) -> Result<Answer, Fault> {
        match kind {
            "block" => self.fresh::<Block, _>(sizes, Store::Blocks),
            "tally" => self.fresh::<Tally, _>(sizes, Store::Tallies),
            "map" => self.fresh::<BankMap, _>(sizes, Store::Maps),
            _ => Err(Fault::Kind),
        }
    }

    fn bytes(&self, rt: &HostRuntime, path: &str, words: &str) -> Result<Answer, Fault> {
        let mut bytes: Vec<u8> = Vec::new(self.heap);
        for word in Words::of(words) {
            push_bytes(self.heap, word, &mut bytes)?;
        }
        fs::write(rt, path, bytes.as_slice())?;
        Ok(Answer::Bytes(bytes.len()))
    }

    fn dump(&self, rt: &HostRuntime, path: &str) -> Result<Answer, Fault> {
        let bytes = fs::read(rt, path)?;
        Ok(Answer::Text(hexadecimal::render(self.heap, bytes.as_slice())?))
    }

    // The items of a file, a line each. The reader gives an end again and again, so the loop has a bound of its own, above any
    // number of records.
    fn items(&self, rt: &HostRuntime, path: &str) -> Result<Answer, Fault> {
        let bytes = fs::read(rt, path)?;
        let mut items = Items::new(bytes.as_slice());
        let mut text = String::new(self.heap);
        for number in 0..u32::MAX {
            match items.next_item() {
                Ok(Item::Header(h)) => {
                    write!(
                        text,
                        "header {}, cells {}, count {}",
                        h.letter, h.cells, h.count
                    )?;
                }
                Ok(Item::Record(SavedRecord { next, cell, change })) => {
                    let change = hexadecimal::render(self.heap, change)?;
                    write!(
                        text,
                        "\n  record {number}: next {next}, cell {cell}, change {change}"
                    )?;
                }
                Ok(Item::End) => {
                    text.push_str("\n  end")?;
                    break;
                }
                Err(fault @ FileFault::Cell(n)) => {
                    write!(text, "\n  refused {}: record {n}", fault.number())?;
                    break;
                }
                Err(fault) => return Err(Fault::File(fault)),
            }
        }
        Ok(Answer::Text(text))
    }

    // The form of a cell's state at a moment, from a file of the kind that its letter names. Its parameters are the command's own.
    fn recall(
        &self,
        rt: &HostRuntime,
        path: &str,
        cell: u32,
        moment: u32,
        area: Option<u32>,
    ) -> Result<Answer, Fault> {
        let file = fs::read(rt, path)?;
        let header = any_header(file.as_slice())?;
        let kind = BoardKind::try_from(header.letter)?;
        let mut out = vec![in self.heap; 0u8; area.unwrap_or(256).min(256) as usize]?;
        recall_any(file.as_slice(), cell, moment, &mut out)?;
        out.truncate(kind.width());
        Ok(Answer::Form(hexadecimal::render(self.heap, out.as_slice())?))
    }

    // The text of what a command answers.
    pub fn answer(&mut self, rt: &HostRuntime, command: Spoken<'_>) -> Result<String, Fault> {
        Ok(self.run(rt, command)?.into_text(self.heap)?)
    }

    fn run(&mut self, rt: &HostRuntime, command: Spoken<'_>) -> Result<Answer, Fault> {
        match command {
            Command::Format {
                kind,
                cells,
                capacity,
                heads,
            } => {
                let heads = heads.unwrap_or(cells);
                self.format(
                    kind,
                    Sizes {
                        cells,
                        capacity,
                        heads,
                    },
                )
            }
            Command::Bytes { path, hex } => self.bytes(rt, path, hex),
            Command::Dump { path } => self.dump(rt, path),
            Command::Items { path } => self.items(rt, path),
            Command::Recall {
                path,
                cell,
                moment,
                area,
            } => self.recall(rt, path, cell, moment, area),
            // a line for each kind: a trait of these commands would be one method that hands them on
            other => match self.store.as_mut().ok_or(Fault::Unformatted)? {
                Store::Blocks(memory) => memory.answer(rt, other),
                Store::Tallies(memory) => memory.answer(rt, other),
                Store::Maps(memory) => memory.answer(rt, other),
            },
        }
    }
}
