use rm_edge::{
    Clock, Counted, Failed, FileShelf, HostClock, Link, Peer, Shelf, Sink, StdSink, UdpLink,
};
use std::fs;
use std::test::Fail;

#[test]
fn a_real_file_is_read_from_a_place_on(rt: HostRuntime) -> Result<(), Fail> {
    fs::write(&rt, "digits", b"0123456789")?;
    let mut shelf = Counted::new(FileShelf(rt));
    let mut into = [0; 4];
    assert_eq!(rt; shelf.read("digits", 3, &mut into), Ok(4));
    assert_eq!(rt; into, *b"3456");
    assert_eq!(rt; shelf.read("digits", 8, &mut into), Ok(2));
    assert_eq!(rt; &into[..2], b"89".as_slice());
    assert_eq!(rt; shelf.read("digits", 10, &mut into), Ok(0));
    fs::remove_file(&rt, "digits")?;
    assert_eq!(rt; shelf.read("digits", 0, &mut into), Err(Failed));
    Ok(())
}

#[test]
fn standard_output_takes_a_line(rt: HostRuntime) {
    let mut sink = Counted::new(StdSink(rt));
    assert_eq!(rt; sink.put(b"a line\n"), Ok(()));
}

#[test]
fn a_socket_receives_what_another_one_sends(rt: HostRuntime) -> Result<(), Fail> {
    let (mut link, mut other) = (
        Counted::new(UdpLink::new(rt)),
        Counted::new(UdpLink::new(rt)),
    );
    let mut into = *b"......";
    assert_eq!(rt; link.receive(&mut into), Err(Failed));
    let mut ports = 40_000..40_100;
    let port = ports.find(|port| link.bind(*port).is_ok());
    let from = ports.find(|port| other.bind(*port).is_ok());
    let (Some(port), Some(from)) = (port, from) else {
        return Err(Fail::new("no port is free"));
    };
    let local = |port| Peer {
        ip: [127, 0, 0, 1],
        port,
    };
    assert_eq!(rt; other.send(local(port), b"datagram"), Ok(()));
    assert_eq!(rt; link.receive(&mut into), Ok((local(from), 6)));
    assert_eq!(rt; into, *b"datagr");
    Ok(())
}

#[test]
fn a_socket_sends_nothing_to_port_0(rt: HostRuntime) -> Result<(), Fail> {
    let nobody = Peer {
        ip: [127, 0, 0, 1],
        port: 0,
    };
    let mut link = Counted::new(UdpLink::new(rt));
    assert_eq!(rt; link.send(nobody, b"reply"), Err(Failed));
    if !(40_100..40_200).any(|port| link.bind(port).is_ok()) {
        return Err(Fail::new("no port is free"));
    }
    assert_eq!(rt; link.send(nobody, b"reply"), Ok(()));
    Ok(())
}

#[test]
fn the_clock_of_the_machine_goes_on(rt: HostRuntime) {
    let mut clock = HostClock::new(rt);
    let first = clock.now();
    assert!(rt; first <= clock.now());
}
