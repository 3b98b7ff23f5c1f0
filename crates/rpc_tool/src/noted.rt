//! Streams whose failures are noted.
use crate::run_notes::InputNotes;
use crate::watch::Watch;
use std::io;
use std::io::{Read, Write};

/// A reader, with notes of what it gave.
#[derive(Drop)]
pub struct NotedReader<I> {
    reader: I,
    pub notes: InputNotes,
}

impl<I: Read> NotedReader<I> {
    /// Nothing was read yet. What is read is given to the watch.
    pub fn new(reader: I, watch: Option<Watch>) -> NotedReader<I> {
        NotedReader {
            reader,
            notes: InputNotes {
                was_read: false,
                failure: None,
                watch,
            },
        }
    }
}

impl<I: Read> Read for NotedReader<I> {
    ghost remaining = { λ noted. I.remaining noted.reader };

    fn read(&mut self, room: &mut [u8]) -> io::Result<usize> {
        self.notes.was_read = true;
        match self.reader.read(room) {
            Ok(count) => {
                if let Some(watch) = &mut self.notes.watch {
                    watch.take(&room[..count]);
                }
                Ok(count)
            }
            Err(error) => {
                self.notes.failure = Some(error);
                Err(error)
            }
        }
    }
}

/// A writer, with a note of why it failed.
#[derive(Drop)]
pub struct NotedWriter<W> {
    writer: W,
    pub failure: Option<io::Error>,
}

impl<W: Write> NotedWriter<W> {
    /// Nothing was written yet.
    pub fn new(writer: W) -> NotedWriter<W> {
        NotedWriter {
            writer,
            failure: None,
        }
    }
}

impl<W: Write> Write for NotedWriter<W> {
    ghost contents = { λ noted. W.contents noted.writer };

    fn write(&mut self, bytes: &[u8]) -> io::Result<usize> {
        match self.writer.write(bytes) {
            Ok(count) => Ok(count),
            Err(error) => {
                self.failure = Some(error);
                Err(error)
            }
        }
    }

    fn flush(&mut self) -> io::Result<()> {
        match self.writer.flush() {
            Ok(()) => Ok(()),
            Err(error) => {
                self.failure = Some(error);
                Err(error)
            }
        }
    }
}
