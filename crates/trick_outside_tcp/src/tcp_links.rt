//! The two links of a client, each with a descriptor of its own for the one connection.
//!
//! A link lets its descriptor go as soon as it needs it no more, so that clients that have left hold none until the end
//! of the run.

ghost use Rattle.std.specs.Prelude.{◌≡◌};
ghost use Rattle.std.specs.Io.{WritesAtMost};

use std::io::{self, ErrorKind, Read, Write};
use std::net::{Shutdown, TcpStream};
use std::time::Duration;
use trick_outside::{LinkIn, LinkOut, Read1, Taken1};

/// The direction of a connection in which a client's bytes come.
#[derive(Debug, Drop)]
pub struct TcpIn {
    stream: Option<TcpStream>,
    faults: u64,
}

/// The direction of a connection in which messages go to a client.
///
/// A write that the client's side does not take within the time of its door fails: a client that does not read holds
/// its writer no longer.
#[derive(Debug, Drop)]
pub struct TcpOut {
    stream: Option<TcpStream>,
    faults: u64,
}

/// The two links over a connection, whose writes wait so long at the most. Small messages go at once. It fails where the
/// system takes none of that.
pub fn links_of(stream: TcpStream, wait: Duration) -> io::Result<(TcpIn, TcpOut)> {
    stream.set_nodelay(true)?;
    stream.set_write_timeout(Some(wait))?;
    let output = TcpOut {
        stream: Some(stream.try_clone()?),
        faults: 0,
    };
    let input = TcpIn {
        stream: Some(stream),
        faults: 0,
    };
    Ok((input, output))
}

/// One write, made again where the process was stopped and went on meanwhile.
fn write_once(stream: &mut TcpStream, piece: &[u8]) -> io::Result<usize>
    ensures { WritesAtMost result piece.now }
{
    for _ in 0..u64::MAX {
        match stream.write(piece) {
            Err(error) if error.kind() == ErrorKind::Interrupted => {}
            done => return done,
        }
    }
    Err(io::Error::from(ErrorKind::TimedOut))
}

impl LinkIn for TcpIn {
    ghost use Rattle.std.specs.Prelude.{None};

    ghost holds = { λ _. None };

    ghost failures = { λ link. link.faults };

    fn read(&mut self, buffer: &mut [u8]) -> Read1 {
        let Some(stream) = &mut self.stream else {
            return Read1::End;
        };
        match stream.read(buffer) {
            Ok(count) if count > 0 || buffer.is_empty() => Read1::Count(count),
            Ok(_) => {
                self.stream = None;
                Read1::End
            }
            Err(_) => {
                self.stream = None;
                self.faults = self.faults.saturating_add(1);
                Read1::Failed
            }
        }
    }

    fn faults(&self) -> u64 {
        self.faults
    }
}

impl LinkOut for TcpOut {
    ghost use Rattle.std.specs.Prelude.{None};

    ghost holds = { λ _. None };

    ghost failures = { λ link. link.faults };

    fn write(&mut self, piece: &[u8]) -> Taken1 {
        if let Some(stream) = &mut self.stream {
            match write_once(stream, piece) {
                Ok(count) if count > 0 || piece.is_empty() => return Taken1::Took(count),
                Err(error) if error.kind() == ErrorKind::OutOfMemory => return Taken1::OutOfMemory,
                _ => {}
            }
        }
        self.faults = self.faults.saturating_add(1);
        Taken1::Failed
    }

    fn hang_up(&mut self) {
        if let Some(stream) = self.stream.take() {
            // A client that has gone already has nothing to be shut.
            let _ = stream.shutdown(Shutdown::Both);
        }
    }

    fn faults(&self) -> u64 {
        self.faults
    }
}
