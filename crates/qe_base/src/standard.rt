//! The source and the sink of a program: its standard streams.

ghost use Rattle.std.specs.Prelude.{◌≡◌};

use crate::{Failed, Sink, Source};
use std::io;
use std::io::{Printer, Read, Write};

/// A source over a reader, such as standard input.
#[derive(Drop)]
pub struct StdSource<R: Read> {
    reader: R,
    faults: u64,
}

impl<R: Read> StdSource<R> {
    /// The standard input of a runtime.
    pub fn new<I: Input<Reader = R>>(rt: &I) -> Self
        ensures { ⟦<StdSource<R> as Source>⟧.faults result ≡ 0 }
    {
        StdSource {
            reader: rt.reader(),
            faults: 0,
        }
    }
}

impl<R: Read> Source for StdSource<R> {
    ghost left = { λ s. R.remaining s.reader };

    ghost faults = { λ s. s.faults };

    fn read(&mut self, into: &mut [u8]) -> Result<usize, Failed> {
        match self.reader.read(into) {
            Ok(count) => Ok(count),
            Err(_) => {
                self.faults = self.faults.saturating_add(1);
                Err(Failed)
            }
        }
    }
}

/// A sink over a writer, such as standard output. A writer that takes nothing of a piece has failed.
#[derive(Drop)]
pub struct StdSink<W: Write> {
    writer: W,
    faults: u64,
}

impl<'a, P: Print> StdSink<Printer<'a, P>> {
    /// The standard output of a runtime.
    pub fn new(rt: &'a P) -> Self
        ensures { ⟦<StdSink<Printer<'a, P>> as Sink>⟧.faults result ≡ 0 }
    {
        StdSink {
            writer: io::writer(rt),
            faults: 0,
        }
    }
}

impl<W: Write> Sink for StdSink<W> {
    ghost holds = { λ s. W.contents s.writer };

    ghost faults = { λ s. s.faults };

    fn put(&mut self, piece: &[u8]) -> Result<usize, Failed> {
        match self.writer.write(piece) {
            Ok(count) if count > 0 || piece.is_empty() => Ok(count),
            _ => {
                self.faults = self.faults.saturating_add(1);
                Err(Failed)
            }
        }
    }
}
