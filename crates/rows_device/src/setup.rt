//! What a form in memory begins with.

use crate::bytes::{Names, add_word, bytes_in};
use crate::words::{Stop, count, halves, number};
use std::alloc::Global;
use vod_deck::Room;

/// The bytes of a form, the calls that fail, its room, and the call before which it stops.
#[derive(Drop)]
pub struct Setup {
    pub bytes: Vec<u8>,
    pub fails: Vec<u64>,
    pub room: Room,
    pub stop: Option<u64>,
    /// The source of a design.
    pub design: Vec<u8>,
}

/// What the calls of a row are made with.
#[derive(Clone, Copy)]
pub struct Context<'r> {
    pub alloc: Global,
    pub names: &'r Names,
    pub setup: &'r Setup,
}

impl Context<'_> {
    /// The bytes of the words of a text.
    pub fn bytes_in(&self, text: &str) -> Result<Vec<u8>, Stop> {
        bytes_in(self.alloc, self.names, text)
    }
}

#[derive(Clone, Copy)]
enum Key {
    Fails,
    Room,
    Stop,
    Design,
}

fn key_of(word: &str) -> Option<Key> {
    match word {
        "fails" => Some(Key::Fails),
        "room" => Some(Key::Room),
        "stop" => Some(Key::Stop),
        "design" => Some(Key::Design),
        _ => None,
    }
}

impl Setup {
    /// What some words say: `fails=N,N`, `room=BYTES/SAID/CALLS`, `stop=N`, `design=BYTES`, and bytes.
    pub fn read(alloc: Global, names: &Names, words: &[&str]) -> Result<Setup, Stop> {
        let mut setup = Setup {
            bytes: Vec::new(alloc),
            fails: Vec::new(alloc),
            room: Room {
                bytes: 0,
                said: 0,
                calls: 0,
            },
            stop: None,
            design: Vec::new(alloc),
        };
        for word in words {
            setup.add(alloc, names, word)?;
        }
        Ok(setup)
    }

    fn add(&mut self, alloc: Global, names: &Names, word: &str) -> Result<(), Stop> {
        let (name, value) = halves(word, '=');
        match key_of(name) {
            Some(Key::Fails) => add_numbers(value, &mut self.fails)?,
            Some(Key::Room) => self.room = room(alloc, value)?,
            Some(Key::Stop) => self.stop = Some(number(value)?),
            Some(Key::Design) => add_word(alloc, names, value, &mut self.design)?,
            None => add_word(alloc, names, word, &mut self.bytes)?,
        }
        Ok(())
    }
}

fn add_numbers(list: &str, numbers: &mut Vec<u64>) -> Result<(), Stop> {
    for word in list.split(',') {
        numbers.push(number(word)?)?;
    }
    Ok(())
}

fn room(alloc: Global, word: &str) -> Result<Room, Stop> {
    let parts: Vec<&str> = word.split('/').collect(alloc)?;
    let [bytes, said, calls] = parts.as_slice() else {
        return Err(Stop::Unknown);
    };
    Ok(Room {
        bytes: count(bytes)?,
        said: count(said)?,
        calls: count(calls)?,
    })
}
