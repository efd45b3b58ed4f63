use crate::row::Object;
use rows_text::{Page, number_at, unescaped};
use std::alloc::{AllocError, Global};
use vod_deck::{MemDeck, Room};
use vod_io::{MemSink, MemSource};
use vod_log::Log;
use vod_program::{Status, vod};

/// The calls of each object that fail.
#[derive(Drop)]
struct Fails {
    design: Vec<u64>,
    script: Vec<u64>,
    device: Vec<u64>,
    out: Vec<u64>,
    err: Vec<u64>,
}

impl Fails {
    fn none(alloc: Global) -> Fails {
        Fails {
            design: Vec::new(alloc),
            script: Vec::new(alloc),
            device: Vec::new(alloc),
            out: Vec::new(alloc),
            err: Vec::new(alloc),
        }
    }

    fn of(&mut self, object: Object) -> &mut Vec<u64> {
        match object {
            Object::Design => &mut self.design,
            Object::Script => &mut self.script,
            Object::Device => &mut self.device,
            Object::Out => &mut self.out,
            Object::Err => &mut self.err,
        }
    }
}

/// What the next call is handed, and the device of the last one.
#[derive(Drop)]
pub struct Table {
    design: Vec<u8>,
    script: Vec<u8>,
    bytes: Vec<u8>,
    fails: Fails,
    crash: Option<u64>,
    last: Option<MemDeck>,
}

/// The room of a device, for a long recording.
const ROOM: Room = Room {
    bytes: 400_000,
    said: 4_000,
    calls: 1_000,
};

/// The room of a sink.
const MOST_TAKEN: usize = 65_536;

impl Table {
    pub fn new(alloc: Global) -> Table {
        Table {
            design: Vec::new(alloc),
            script: Vec::new(alloc),
            bytes: Vec::new(alloc),
            fails: Fails::none(alloc),
            crash: None,
            last: None,
        }
    }

    pub fn set_design(&mut self, alloc: Global, text: &str) -> Result<(), AllocError> {
        self.design = unescaped(alloc, text.as_bytes())?;
        Ok(())
    }

    /// The script, of which `counted N` is one of N vectors that each change the input `d`.
    pub fn set_script(&mut self, alloc: Global, text: &str) -> Result<(), AllocError> {
        self.script = match text.strip_prefix("counted ") {
            Some(count) => counted(alloc, number_at(count.as_bytes()).0)?,
            None => unescaped(alloc, text.as_bytes())?,
        };
        Ok(())
    }

    pub fn set_device(&mut self, alloc: Global, text: &str) -> Result<(), AllocError> {
        self.bytes = unescaped(alloc, text.as_bytes())?;
        Ok(())
    }

    pub fn turn(&mut self, place: u64, mask: u64) {
        let Ok(mask) = u8::try_from(mask) else {
            return;
        };
        if let Ok(place) = usize::try_from(place)
            && let Some(byte) = self.bytes.get_mut(place)
        {
            *byte ^= mask;
        }
    }

    pub fn set_fails(
        &mut self,
        alloc: Global,
        object: Object,
        text: &str,
    ) -> Result<(), AllocError> {
        let mut numbers = Vec::new(alloc);
        for word in text.split(' ') {
            numbers.push(number_at(word.as_bytes()).0)?;
        }
        *self.fails.of(object) = numbers;
        Ok(())
    }

    pub fn set_crash(&mut self, calls: u64) {
        self.crash = Some(calls);
    }

    /// Makes the call, and says how it ended.
    pub fn call(&mut self, alloc: Global, words: &str) -> Result<String, AllocError> {
        let mut texts = Vec::new(alloc);
        for word in words.split_whitespace() {
            texts.push(word.to_string(alloc)?)?;
        }
        let fails = std::mem::replace(&mut self.fails, Fails::none(alloc));
        let crash = self.crash.take();
        let Fails {
            design,
            script,
            device,
            out,
            err,
        } = fails;
        let mut design = MemSource::new(self.design.clone()?, design);
        let mut script = MemSource::new(self.script.clone()?, script);
        let mut out = MemSink::new(alloc, MOST_TAKEN, out).map_err(|_| AllocError)?;
        let mut err = MemSink::new(alloc, MOST_TAKEN, err).map_err(|_| AllocError)?;
        let mut deck = MemDeck::new(alloc, self.bytes.clone()?, ROOM, device, crash).map_err(
            |_| AllocError,
        )?;
        let status = vod(
            alloc,
            &texts,
            &mut design,
            &mut script,
            &mut deck,
            &mut out,
            &mut err,
        );
        let page = page_of(alloc, status, out.taken(), err.taken(), &deck)?;
        self.bytes = deck.bytes().to_vec(alloc)?;
        self.last = Some(deck);
        Ok(page)
    }

    /// What the outcome of a pick holds and has said.
    pub fn left(&self, alloc: Global, pick: u64) -> Result<String, AllocError> {
        match &self.last {
            Some(deck) => outcome_of(alloc, deck, pick),
            None => "no call yet".to_string(alloc),
        }
    }
}

fn page_of(
    alloc: Global,
    status: Status,
    out: &[u8],
    err: &[u8],
    deck: &MemDeck,
) -> Result<String, AllocError> {
    let mut page = Page::new(String::new(alloc));
    page.put_shown(&status.code());
    page.put("; out ");
    page.put_lines(out);
    page.put("; err ");
    page.put_lines(err);
    page.put("; said ");
    page.put_lines(deck.said());
    page.put("; file ");
    page.put_shown(&deck.bytes().len());
    page.finish()
}

fn outcome_of(alloc: Global, deck: &MemDeck, pick: u64) -> Result<String, AllocError> {
    let left = deck.outcome(alloc, pick).map_err(|_| AllocError)?;
    let mut page = Page::new(String::new(alloc));
    page.put("said ");
    page.put_lines(left.said.as_slice());
    let mut after = MemDeck::new(alloc, left.bytes, ROOM, Vec::new(alloc), None).map_err(
        |_| AllocError,
    )?;
    match Log::open(alloc, &mut after) {
        Ok(log) => {
            page.put("; holds ");
            page.put_shown(&log.counts().vectors);
        }
        Err(_) => page.put("; no log"),
    }
    page.finish()
}

/// A script of so many vectors, of which each changes the data input `d`.
fn counted(alloc: Global, vectors: u64) -> Result<Vec<u8>, AllocError> {
    let mut script = String::new(alloc);
    for time in 0..vectors {
        script.push_str(format!(in alloc; "{} d={}\n", time + 1, (time + 1) % 2)?.as_str())?;
    }
    script.as_bytes().to_vec(alloc)
}
