//! Feeds, each once.
ghost use Rattle.std.specs.Prelude.{◌≡◌, ◌<◌, ◌^◌, [], length, replicate, All, IfOk, OnOk};
ghost use Rattle.vod_fanout.specs.FanOut.{fan_out};
ghost use Rattle.vod_readers.specs.Collected.{is_new, marked, fed, marks_after, feeds_after};

use std::alloc::{AllocError, Global};
use vod_fanout::{FanOut, Feed};

/// The feeds so far, and a mark for each source: 1 more than its last reader, or 0.
#[derive(Drop)]
pub struct Collected {
    marks: Vec<u32>,
    feeds: Vec<Feed>,
}

impl Collected {
    /// No feed of so many sources.
    pub fn new(alloc: Global, sources: u32) -> Result<Collected, AllocError>
        ensures marks { IfOk result (λ c. c.marks.items ≡ replicate sources 0) }
        ensures feeds { IfOk result (λ c. c.feeds.items ≡ []) }
    {
        let marks = vec![in alloc; 0; sources as usize]?;
        Ok(Collected {
            marks,
            feeds: Vec::new(alloc),
        })
    }

    /// Adds the sources of a reader, each once.
    pub fn add_all(&mut self, reader: u32, sources: &[u32]) -> Result<(), AllocError>
        requires { reader < 2 ^ 25 }
        ensures marks { OnOk result (self.new.marks.items ≡ marks_after reader self.old.marks.items sources.now) }
        ensures feeds { OnOk result (self.new.feeds.items ≡ feeds_after reader self.old.marks.items self.old.feeds.items sources.now) }
    {
        for source in sources {
            self.add(reader, *source)?;
        }
        Ok(())
    }

    // Adds one source of a reader, where it is new.
    fn add(&mut self, reader: u32, source: u32) -> Result<(), AllocError>
        requires { reader < 2 ^ 25 }
        ensures marks { OnOk result (self.new.marks.items ≡ marked reader self.old.marks.items source) }
        ensures feeds { OnOk result (self.new.feeds.items ≡ fed reader self.old.marks.items self.old.feeds.items source) }
    {
        if is_new(self.marks.as_slice(), reader, source) {
            self.feeds.push(Feed { source, reader })?;
            self.marks[source as usize] = reader + 1;
        }
        Ok(())
    }

    /// The table of these feeds.
    pub fn table(self, alloc: Global, sources: u32) -> Result<FanOut, AllocError>
        requires { All (λ f. f.source < sources) self.feeds.items }
        ensures made { IfOk result (λ t. t ≡ fan_out sources self.feeds.items) }
        ensures size { IfOk result (λ t. length t ≡ sources) }
    {
        if self.feeds.len() > u32::MAX as usize {
            return Err(AllocError);
        }
        let table = FanOut::new(alloc, sources, self.feeds.as_slice())?;
        Ok(table)
    }
}

// Whether a source of a reader is new.
fn is_new(marks: &[u32], reader: u32, source: u32) -> bool
    requires { reader < 2 ^ 25 }
    ensures { result ≡ is_new reader marks.now source }
{
    match marks.get(source as usize) {
        None => false,
        Some(mark) => *mark != reader + 1,
    }
}
