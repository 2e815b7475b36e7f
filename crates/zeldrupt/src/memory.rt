// Memory of one kind, and the commands on it. It is lent to a volume for each call; nothing else touches a volume.
use crate::answer::Answer;
use crate::fault::Fault;
use crate::lists::list;
use file::records::file_length;
use journal::record::{Record, place_of};
use kind::Kind;
use script::arguments::unsigned;
use script::command::{Command, Field, Spoken};
use script::error::ScriptError;
use script::notation::Notation;
use std::alloc::Global;
use std::fs;
use volume::Volume;

// The most cells, heads, records or states of an image that the tool makes.
const LIMIT: u32 = 100000;

// The most bytes of a save's area.
const MOST_BYTES: usize = 100000000;

// How many cells, records and heads a volume is lent.
#[derive(Clone, Copy, Debug, PartialEq, Eq)]
pub struct Sizes {
    pub cells: u32,
    pub capacity: u32,
    pub heads: u32,
}

// The rows that a volume is lent.
#[derive(Drop)]
struct Rows<K: Kind> {
    cells: Vec<K::State>,
    heads: Vec<u32>,
    records: Vec<Record<K::Change>>,
    count: u32,
}

#[derive(Drop)]
pub struct Memory<K: Notation> {
    heap: Global,
    rows: Rows<K>,
    image: Vec<K::State>,
    work: Vec<u32>,
}

impl<K: Kind> Rows<K> {
    // A volume over them, for one call.
    fn volume(&mut self) -> Volume<'_, '_, '_, '_, K> {
        Volume::over(
            &mut self.cells,
            &mut self.heads,
            &mut self.records,
            &mut self.count,
        )
    }
}

fn zero_record<K: Notation>() -> Record<K::Change> {
    Record {
        cell: 0,
        next: 0,
        skip: 0,
        length: 0,
        foot: 0,
        change: K::zero_change(),
        fold: K::zero_change(),
    }
}

// Puts another value in one field of a record.
fn damage<K: Notation>(
    r: &mut Record<K::Change>,
    field: Field,
    value: &str,
) -> Result<(), ScriptError> {
    match field {
        Field::Cell => {
            r.cell = u16::try_from(unsigned(value)?).map_err(|_| ScriptError::Number)?;
        }
        Field::Next => r.next = unsigned(value)?,
        Field::Skip => r.skip = unsigned(value)?,
        Field::Length => r.length = unsigned(value)?,
        Field::Foot => r.foot = unsigned(value)?,
        Field::Change => r.change = K::parse_change(value)?,
        Field::Fold => r.fold = K::parse_change(value)?,
    }
    Ok(())
}

// Puts a value at a place of a row.
fn set<T: Copy>(row: &mut [T], at: u32, value: T) -> Result<(), Fault> {
    *row.get_mut(at as usize).ok_or(Fault::Place)? = value;
    Ok(())
}

impl<K: Notation> Memory<K> {
    // Memory of zero bytes alone.
    pub fn new(heap: Global, sizes: Sizes) -> Result<Memory<K>, Fault> {
        if sizes.cells > LIMIT || sizes.capacity > LIMIT || sizes.heads > LIMIT {
            return Err(Fault::Large);
        }
        Ok(Memory {
            heap,
            rows: Rows {
                cells: vec![in heap; K::zero_state(); sizes.cells as usize]?,
                heads: vec![in heap; 0u32; sizes.heads as usize]?,
                records: vec![in heap; zero_record::<K>(); sizes.capacity as usize]?,
                count: 0,
            },
            image: vec![in heap; K::zero_state(); sizes.cells as usize]?,
            work: Vec::new(heap),
        })
    }

    pub fn format(&mut self) -> Result<Answer, Fault> {
        self.rows.volume().format()?;
        Ok(Answer::Formatted)
    }

    fn write(&mut self, cell: u32, state: &str) -> Result<Answer, Fault> {
        let state = K::parse_state(state)?;
        Ok(Answer::Count(self.rows.volume().write(cell, &state)?))
    }

    fn read(&mut self, cell: u32) -> Result<Answer, Fault> {
        let mut place = K::origin();
        self.rows.volume().read(cell, &mut place)?;
        Ok(Answer::State(K::show_state(self.heap, &place)?))
    }

    fn span(&mut self, cell: u32, from: u32, to: u32) -> Result<Answer, Fault> {
        let mut place = K::unit();
        let steps = self.rows.volume().span(cell, from, to, &mut place)?;
        let change = K::show_change(self.heap, &place)?;
        Ok(Answer::Change { change, steps })
    }

    fn revert(&mut self, moment: u32) -> Result<Answer, Fault> {
        Ok(Answer::Count(self.rows.volume().revert(moment)?))
    }

    fn check(&mut self, length: Option<u32>) -> Result<Answer, Fault> {
        let length = length.map_or(self.rows.cells.len(), |n| n as usize);
        if length > LIMIT as usize {
            return Err(Fault::Large);
        }
        self.work = vec![in self.heap; 0u32; length]?;
        self.rows.volume().check(&mut self.work)?;
        Ok(Answer::Sound)
    }

    fn roll(&mut self, from: u32, to: u32) -> Result<Answer, Fault> {
        self.rows.volume().roll(&mut self.image, from, to)?;
        Ok(Answer::Rolled)
    }

    fn replay(&mut self, moment: u32) -> Result<Answer, Fault> {
        self.rows.volume().replay(&mut self.image, moment)?;
        Ok(Answer::Replayed)
    }

    // Writes the volume's file to a path, through an area of just its length or of the length that is asked for.
    fn save(&mut self, rt: &HostRuntime, path: &str, area: Option<u32>) -> Result<Answer, Fault> {
        let whole = file_length::<K>(self.rows.count.min(LIMIT));
        let length = area.map_or(whole, |n| n as usize);
        if length > MOST_BYTES {
            return Err(Fault::Large);
        }
        let mut bytes = vec![in self.heap; 0u8; length]?;
        let n = self.rows.volume().save(&mut bytes)?;
        bytes.truncate(n);
        fs::write(rt, path, bytes.as_slice())?;
        Ok(Answer::Saved(n))
    }

    fn load(&mut self, rt: &HostRuntime, path: &str) -> Result<Answer, Fault> {
        let file = fs::read(rt, path)?;
        Ok(Answer::Count(self.rows.volume().load(file.as_slice())?))
    }

    fn image_live(&mut self) -> Result<Answer, Fault> {
        self.image = self.rows.cells.clone()?;
        Ok(Answer::Copied)
    }

    fn image_set(&mut self, at: u32, state: &str) -> Result<Answer, Fault> {
        set(&mut self.image, at, K::parse_state(state)?)?;
        Ok(Answer::Set)
    }

    fn image_length(&mut self, length: u32) -> Result<Answer, Fault> {
        if length > LIMIT {
            return Err(Fault::Large);
        }
        self.image.resize(length as usize, K::zero_state())?;
        Ok(Answer::States(length))
    }

    fn poke_cell(&mut self, cell: u32, state: &str) -> Result<Answer, Fault> {
        set(&mut self.rows.cells, cell, K::parse_state(state)?)?;
        Ok(Answer::Poked)
    }

    fn poke_head(&mut self, cell: u32, record: u32) -> Result<Answer, Fault> {
        set(&mut self.rows.heads, cell, record)?;
        Ok(Answer::Poked)
    }

    fn poke_count(&mut self, count: u32) -> Answer {
        self.rows.count = count;
        Answer::Poked
    }

    fn poke_record(&mut self, number: u32, field: Field, value: &str) -> Result<Answer, Fault> {
        if number == 0 {
            return Err(Fault::Place);
        }
        let record = self.rows.records.get_mut(place_of(number as usize));
        damage::<K>(record.ok_or(Fault::Place)?, field, value)?;
        Ok(Answer::Poked)
    }

    // The first `count` records, a line each.
    fn log(&self) -> Result<Answer, Fault> {
        let most = self.rows.records.len().min(self.rows.count as usize);
        let mut text = format!(in self.heap; "{most} records")?;
        for (i, r) in self.rows.records.iter().take(most).enumerate() {
            let number = i + 1;
            let change = K::show_change(self.heap, &r.change)?;
            let fold = K::show_change(self.heap, &r.fold)?;
            write!(
                text,
                "\n  {number}: cell {}, next {}, skip {}, length {}, foot {}, change {change}, fold {fold}",
                r.cell, r.next, r.skip, r.length, r.foot
            )?;
        }
        Ok(Answer::Text(text))
    }

    fn numbers(&self, row: &[u32]) -> Result<Answer, Fault> {
        Ok(Answer::Text(list(self.heap, row, |n| n.to_string(self.heap))?))
    }

    fn states(&self, row: &[K::State]) -> Result<Answer, Fault> {
        Ok(Answer::Text(list(self.heap, row, |s| K::show_state(self.heap, s))?))
    }

    pub fn answer(&mut self, rt: &HostRuntime, command: Spoken<'_>) -> Result<Answer, Fault> {
        match command {
            Command::Save { path, area } => self.save(rt, path, area),
            Command::Load { path } => self.load(rt, path),
            Command::Write { cell, state } => self.write(cell, state),
            Command::Read { cell } => self.read(cell),
            Command::Span { cell, from, to } => self.span(cell, from, to),
            Command::Revert { moment } => self.revert(moment),
            Command::Check { work } => self.check(work),
            Command::Roll { from, to } => self.roll(from, to),
            Command::Replay { moment } => self.replay(moment),
            Command::Work => self.numbers(&self.work),
            Command::Image => self.states(&self.image),
            Command::ImageLive => self.image_live(),
            Command::ImageSet { cell, state } => self.image_set(cell, state),
            Command::ImageLength { length } => self.image_length(length),
            Command::Log => self.log(),
            Command::Cells => self.states(&self.rows.cells),
            Command::Heads => self.numbers(&self.rows.heads),
            Command::Count => Ok(Answer::Number(self.rows.count)),
            Command::PokeCell { cell, state } => self.poke_cell(cell, state),
            Command::PokeHead { cell, record } => self.poke_head(cell, record),
            Command::PokeCount { count } => Ok(self.poke_count(count)),
            Command::PokeRecord {
                record,
                field,
                value,
            } => self.poke_record(record, field, value),
            // the session answers these itself
            _ => Err(Fault::Unformatted),
        }
    }
}
