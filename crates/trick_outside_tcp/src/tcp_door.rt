ghost use Rattle.std.specs.Prelude.{◌≡◌};
ghost use Rattle.trick_outside.specs.Causes.{HasCause};

use crate::tcp_links::links_of;
use crate::{TcpIn, TcpOut};
use std::io::{self, ErrorKind};
use std::net::{Ipv4Addr, Net, TcpListener, TcpStream};
use std::rt::Clock;
use std::thread;
use std::time::Duration;
use trick_outside::{Came, Door};

/// Milliseconds that a call waits where no client has come.
const NAP: u64 = 10;

/// Seconds that a write waits for a client at the most.
const WRITE_WAIT: u64 = 10;

/// A door that takes clients from a port of the address 127.0.0.1, for as long as it is there. It never ends.
#[derive(Debug, Drop)]
pub struct TcpDoor<R> {
    rt: R,
    listener: Option<TcpListener>,
    faults: u64,
    idle: u64,
}

/// A listener at a port, of which a call waits for nobody.
fn listen<R>(rt: &R, port: u16) -> io::Result<TcpListener>
where
    R: Net<Listener = TcpListener, Stream = TcpStream>,
{
    let listener = TcpListener::bind(rt, (Ipv4Addr::LOCALHOST, port))?;
    listener.set_nonblocking(true)?;
    Ok(listener)
}

impl<R: Clock> TcpDoor<R> {
    /// A door at this port; at port 0 it is one that is free. Where the port cannot be opened each call of `next`
    /// fails.
    pub fn open(rt: R, port: u16) -> TcpDoor<R>
    where
        R: Net<Listener = TcpListener, Stream = TcpStream>,
    {
        TcpDoor {
            listener: listen(&rt, port).ok(),
            rt,
            faults: 0,
            idle: 0,
        }
    }

    /// The port at which clients come, where it is open.
    pub fn port(&self) -> Option<u16> {
        let address = self.listener.as_ref()?.local_addr().ok()?;
        Some(address.port())
    }

    // The links of a client that has come.
    fn accept(&self) -> io::Result<(TcpIn, TcpOut)> {
        let Some(listener) = &self.listener else {
            return Err(io::Error::from(ErrorKind::NotConnected));
        };
        let (stream, _) = listener.accept()?;
        links_of(stream, Duration::from_secs(WRITE_WAIT))
    }
}

impl<R: Clock> Door for TcpDoor<R> {
    type In = TcpIn;

    type Out = TcpOut;

    ghost failures = { λ door. door.faults };

    ghost idleness = { λ door. door.idle };

    ghost visited = { λ _ _ _. Unit {0} };

    ghost has_client = { λ _. ⊥ };

    ghost has_ended = { λ _. ⊥ };

    fn next(&mut self) -> Came<TcpIn, TcpOut> {
        match self.accept() {
            Ok((input, output)) => Came::Client(input, output),
            Err(error) => match error.kind() {
                // A client that has gone before it was taken is none.
                ErrorKind::WouldBlock | ErrorKind::ConnectionAborted => {
                    thread::sleep(&self.rt, Duration::from_millis(NAP));
                    self.idle = self.idle.saturating_add(1);
                    Came::NotYet
                }
                ErrorKind::OutOfMemory => Came::OutOfMemory,
                _ => {
                    self.faults = self.faults.saturating_add(1);
                    Came::Failed
                }
            },
        }
    }

    fn back(&mut self, _number: u32, _input: TcpIn, _output: TcpOut) {}

    fn faults(&self) -> u64 {
        self.faults
    }

    fn idle(&self) -> u64 {
        self.idle
    }

    ghost visited_none = { λ _. tt };

    ghost visited_join = { λ _ _ _ _ _ _ _. tt };
}
