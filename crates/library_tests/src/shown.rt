//! Shows what outputs in memory took, as text that a test compares.
use meson::ports::memory::{Event, MemOutputs};
use std::alloc::{AllocError, Global};

// Where a byte goes.
#[derive(Clone, Copy, PartialEq, Eq)]
enum Stream {
    Output,
    Log,
    Fault,
}

impl Stream {
    // The mark before bytes that go there.
    fn mark(self) -> &'static str {
        match self {
            Stream::Output => "⟦put⟧",
            Stream::Log => "⟦log⟧",
            Stream::Fault => "⟦fault⟧",
        }
    }
}

// The text of the first events, and where the last byte went.
#[derive(Drop)]
struct Showing {
    text: Vec<u8>,
    stream: Stream,
}

impl Showing {
    // Adds the mark of an output that is opened or closed.
    fn add_mark(&mut self, word: &str, name: &[u8]) -> Result<(), AllocError> {
        self.text.extend_from_slice("⟦".as_bytes())?;
        self.text.extend_from_slice(word.as_bytes())?;
        self.text.extend_from_slice(name)?;
        self.text.extend_from_slice("⟧".as_bytes())?;
        self.stream = Stream::Output;
        Ok(())
    }

    // Adds a byte, and a mark before it if the last byte went elsewhere.
    fn add_byte(&mut self, stream: Stream, byte: u8) -> Result<(), AllocError> {
        if stream != self.stream {
            self.text.extend_from_slice(stream.mark().as_bytes())?;
            self.stream = stream;
        }
        self.text.push(byte)?;
        Ok(())
    }

    fn add(&mut self, event: Event<&[u8]>) -> Result<(), AllocError> {
        match event {
            Event::Open(name) => self.add_mark("open ", name),
            Event::Close(name) => self.add_mark("close ", name),
            Event::Byte(_, byte) => self.add_byte(Stream::Output, byte),
            Event::Log(byte) => self.add_byte(Stream::Log, byte),
            Event::Fault(byte) => self.add_byte(Stream::Fault, byte),
        }
    }
}

/// Returns the events in order. The bytes of outputs, of the log and of fault lines are as they are. `⟦open NAME⟧` and `⟦close NAME⟧` mark
/// the begin and the end of an output, and `⟦log⟧`, `⟦fault⟧` and `⟦put⟧` each change between the log, fault lines and the open output.
pub fn shown(alloc: Global, out: &MemOutputs) -> Result<String, AllocError> {
    let mut showing = Showing {
        text: Vec::new(alloc),
        stream: Stream::Output,
    };
    for at in 0..out.event_count() {
        if let Some(event) = out.event(at) {
            showing.add(event)?;
        }
    }
    String::from_utf8_lossy(alloc, &showing.text)
}
