//! Connections with both ends in this process.

use std::io::{Read, Write};
use std::net::{Ipv4Addr, Net, Shutdown, TcpListener, TcpStream};
use std::process::Abort;
use std::rt::Clock;
use std::thread;
use std::time::Duration;
use trick_outside::{Came, Door, LinkIn, LinkOut, Read1, Taken1};
use trick_outside_tcp::{TcpDoor, TcpIn, TcpOut, links_of};

/// Whether a door tells that no client came yet.
fn gives_nobody(door: &mut TcpDoor<impl Clock>) -> bool {
    matches!(door.next(), Came::NotYet)
}

/// Whether a door fails.
fn has_failed(door: &mut TcpDoor<impl Clock>) -> bool {
    matches!(door.next(), Came::Failed)
}

/// A client of a door, which has not asked for it yet.
fn connect(rt: &(impl Abort + Net<Stream = TcpStream>), door: &TcpDoor<impl Clock>) -> TcpStream {
    let port = door.port().expect(rt, "a port");
    TcpStream::connect(rt, (Ipv4Addr::LOCALHOST, port)).expect(rt, "the connection")
}

/// The next client of a door, for which it is asked for some seconds at the most.
fn next_client(door: &mut TcpDoor<impl Clock>) -> Option<(TcpIn, TcpOut)> {
    for _ in 0..500 {
        if let Came::Client(input, output) = door.next() {
            return Some((input, output));
        }
    }
    None
}

/// The client that comes to a door.
fn client_of(rt: &impl Abort, door: &mut TcpDoor<impl Clock>) -> (TcpIn, TcpOut) {
    next_client(door).expect(rt, "a client")
}

/// What a client says is read, and then that it has said all.
fn is_heard(rt: &impl Abort, client: &mut TcpStream, input: &mut TcpIn) {
    let mut buffer = [0u8; 8];
    client.write_all(b"one\n").expect(rt, "the connection");
    assert!(rt; input.read(&mut buffer) == Read1::Count(4));
    assert!(rt; buffer.starts_with(b"one\n"));
    client
        .shutdown(Shutdown::Write)
        .expect(rt, "the connection");
    assert!(rt; input.read(&mut buffer) == Read1::End);
    assert!(rt; input.read(&mut buffer) == Read1::End);
}

/// A client is told what comes until it is hung up.
fn is_told(rt: &impl Abort, output: &mut TcpOut) {
    assert!(rt; output.write(b"two\n") == Taken1::Took(4));
    assert!(rt; output.write(b"") == Taken1::Took(0));
    assert!(rt; output.faults() == 0);
    output.hang_up();
    output.hang_up();
    assert!(rt; output.write(b"three\n") == Taken1::Failed);
    assert!(rt; output.faults() == 1);
}

/// All that a client is told up to its end.
fn all_told(rt: &(impl Abort + AllocGlobal), client: &mut TcpStream) -> Vec<u8> {
    let mut told = Vec::new(rt.alloc());
    client.read_to_end(&mut told).expect(rt, "the connection");
    told
}

#[test]
fn a_client_comes_and_goes(rt: HostRuntime) {
    let mut door = TcpDoor::open(rt, 0);
    assert!(rt; gives_nobody(&mut door));
    assert_eq!(rt; door.idle(), 1);
    let mut client = connect(&rt, &door);
    let (mut input, mut output) = client_of(&rt, &mut door);
    is_heard(&rt, &mut client, &mut input);
    // A client that has said all is still told what comes.
    is_told(&rt, &mut output);
    assert_eq!(rt; all_told(&rt, &mut client).as_slice(), b"two\n".as_slice());
    door.back(1, input, output);
    assert_eq!(rt; door.faults(), 0);
}

#[test]
fn a_port_has_one_door(rt: HostRuntime) {
    let door = TcpDoor::open(rt, 0);
    let mut other = TcpDoor::open(rt, door.port().expect(&rt, "a port"));
    assert!(rt; has_failed(&mut other));
    assert_eq!(rt; other.faults(), 1);
}

#[test]
fn a_reader_ends_where_the_writer_hangs_up(rt: HostRuntime) {
    let mut door = TcpDoor::open(rt, 0);
    let _client = connect(&rt, &door);
    let (input, mut output) = client_of(&rt, &mut door);
    let reader = thread::spawn(&rt, move || {
        let mut link = input;
        link.read(&mut [0u8; 8])
    })
    .expect(&rt, "the connection");
    thread::sleep(&rt, Duration::from_millis(50));
    output.hang_up();
    assert_eq!(rt; reader.join(&rt), Read1::End);
}

/// A client of a listener.
fn client_at(rt: &(impl Abort + Net<Stream = TcpStream>), listener: &TcpListener) -> TcpStream {
    let address = listener.local_addr().expect(rt, "an address");
    TcpStream::connect(rt, address).expect(rt, "the connection")
}

/// The links of the next client of a listener.
fn next_links(rt: &impl Abort, listener: &TcpListener) -> (TcpIn, TcpOut) {
    let (stream, _) = listener.accept().expect(rt, "the connection");
    links_of(stream, Duration::from_millis(50)).expect(rt, "the connection")
}

/// Writes until a write fails.
fn write_to_the_end(output: &mut TcpOut) {
    let piece = [b'0'; 4096];
    for _ in 0..10_000 {
        if output.write(&piece) == Taken1::Failed {
            break;
        }
    }
}

#[test]
fn a_client_that_does_not_read_holds_nobody(rt: HostRuntime) {
    let listener = TcpListener::bind(&rt, (Ipv4Addr::LOCALHOST, 0)).expect(&rt, "the connection");
    let _client = client_at(&rt, &listener);
    let (_input, mut output) = next_links(&rt, &listener);
    write_to_the_end(&mut output);
    assert_eq!(rt; output.faults(), 1);
}
