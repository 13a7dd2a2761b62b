//! Sockets on loopback.

use super::script::names;
use crate::assertions::assert_equal;
use host_ports::{Listen, Ports, RealPorts};
use std::alloc::Global;
use std::io::{Read, Write};
use std::net::{Ipv4Addr, Net, SocketAddr, TcpListener, TcpStream};
use std::process::Abort;
use std::test::Fail;

/// A port that nobody listens on.
fn free_port(rt: &HostRuntime) -> Result<u16, Fail> {
    let listener = TcpListener::bind(rt, SocketAddr::from((Ipv4Addr::LOCALHOST, 0)))?;
    Ok(listener.local_addr()?.port())
}

/// The events of the first poll that gives some, of so many.
fn polled<R: Net>(
    rt: &R,
    alloc: Global,
    ports: &mut RealPorts,
    paused: &[u32],
) -> Result<String, Fail> {
    for _ in 0..200 {
        let events = ports.poll(rt, 10, paused)?;
        if !events.is_empty() {
            return Ok(names(alloc, &events)?);
        }
    }
    Ok(String::new(alloc))
}

fn at(port: u16) -> SocketAddr {
    SocketAddr::from((Ipv4Addr::LOCALHOST, port))
}

/// Sockets that listen, and the addresses at which they do for KISS and for AGWPE.
fn opened(rt: &HostRuntime) -> Result<(Box<RealPorts>, SocketAddr, SocketAddr), Fail> {
    let (kiss, agw) = (free_port(rt)?, free_port(rt)?);
    let mut ports = Box::new(rt.alloc(), RealPorts::new(rt.alloc()))?;
    let asked = Listen {
        address: Ipv4Addr::LOCALHOST,
        kiss: Some(kiss),
        agw: Some(agw),
    };
    ports.listen(rt, asked)?;
    Ok((ports, at(kiss), at(agw)))
}

/// A host that has brought some octets.
fn connected(rt: &HostRuntime, to: SocketAddr) -> Result<TcpStream, Fail> {
    let mut host = TcpStream::connect(rt, to)?;
    host.write_all(b"12345")?;
    Ok(host)
}

/// The next two octets for a host.
fn answer(mut host: TcpStream) -> Result<[u8; 2], Fail> {
    let mut answer = [0; 2];
    host.read_exact(&mut answer)?;
    Ok(answer)
}

fn assert_polled<R: Net + Abort>(
    rt: &R,
    alloc: Global,
    ports: &mut RealPorts,
    paused: &[u32],
    want: &str,
) -> Result<(), Fail> {
    let polled = polled(rt, alloc, ports, paused)?;
    assert_equal(rt, &polled.as_str(), &want);
    Ok(())
}

#[test]
fn no_host_connects_before_they_listen(rt: HostRuntime) {
    assert!(rt; RealPorts::new(rt.alloc()).poll(&rt, 0, &[]).is_err());
}

#[test]
fn hosts_connect_on_loopback(rt: HostRuntime) -> Result<(), Fail> {
    let (mut ports, _, to) = opened(&rt)?;
    let host = connected(&rt, to)?;
    assert_polled(&rt, rt.alloc(), &mut ports, &[1], "A1 ")?;
    assert_polled(&rt, rt.alloc(), &mut ports, &[], "B1 ")?;
    assert_equal(&rt, &ports.send(&rt, 1, b"67"), &Ok(2));
    assert_equal(&rt, &answer(host)?, b"67");
    ports.shut(1);
    assert!(rt; ports.send(&rt, 1, b"8").is_err());
    Ok(())
}

// Each host gets its own answer, and joins by the protocol of its port.
#[test]
fn two_hosts_at_each_port_are_told_apart(rt: HostRuntime) -> Result<(), Fail> {
    let (mut ports, kiss, agw) = opened(&rt)?;
    let mut hosts = Vec::new(rt.alloc());
    let table = [
        (kiss, "K1 ", b"1a"),
        (agw, "A2 ", b"2b"),
        (kiss, "K3 ", b"3c"),
        (agw, "A4 ", b"4d"),
    ];
    for (to, joins, _) in table {
        hosts.push(TcpStream::connect(&rt, to)?)?;
        assert_polled(&rt, rt.alloc(), &mut ports, &[], joins)?;
    }
    for (id, (_, _, text)) in (1..5).zip(table) {
        assert_equal(&rt, &ports.send(&rt, id, text), &Ok(2));
    }
    for (host, (_, _, text)) in hosts.into_iter().zip(table) {
        assert_equal(&rt, &answer(host)?, text);
    }
    Ok(())
}

#[test]
fn a_port_that_is_not_asked_for_stays_closed(rt: HostRuntime) -> Result<(), Fail> {
    let (kiss, agw) = (free_port(&rt)?, free_port(&rt)?);
    let mut ports = Box::new(rt.alloc(), RealPorts::new(rt.alloc()))?;
    let asked = Listen {
        address: Ipv4Addr::LOCALHOST,
        kiss: None,
        agw: Some(agw),
    };
    ports.listen(&rt, asked)?;
    assert!(rt; TcpStream::connect(&rt, at(kiss)).is_err());
    let _host = TcpStream::connect(&rt, at(agw))?;
    assert_polled(&rt, rt.alloc(), &mut ports, &[], "A1 ")?;
    Ok(())
}

// The address belongs to nobody: it is kept for documents.
#[test]
fn an_address_of_another_machine_is_refused(rt: HostRuntime) -> Result<(), Fail> {
    let asked = Listen {
        address: Ipv4Addr::new(192, 0, 2, 1),
        kiss: Some(free_port(&rt)?),
        agw: None,
    };
    let mut ports = Box::new(rt.alloc(), RealPorts::new(rt.alloc()))?;
    assert!(rt; ports.listen(&rt, asked).is_err());
    Ok(())
}

#[test]
fn a_host_is_dialed(rt: HostRuntime) -> Result<(), Fail> {
    let listener = TcpListener::bind(&rt, at(0))?;
    let mut ports = Box::new(rt.alloc(), RealPorts::new(rt.alloc()))?;
    assert_equal(&rt, &ports.dial(&rt, listener.local_addr()?.port()), &Ok(1));
    let (mut host, _) = listener.accept()?;
    host.write_all(b"12345")?;
    assert_polled(&rt, rt.alloc(), &mut ports, &[], "B1 ")?;
    assert_equal(&rt, &ports.send(&rt, 1, b"67"), &Ok(2));
    assert_equal(&rt, &answer(host)?, b"67");
    assert_polled(&rt, rt.alloc(), &mut ports, &[], "L1 ")?;
    Ok(())
}

#[test]
fn a_dial_is_refused_where_nobody_listens(rt: HostRuntime) -> Result<(), Fail> {
    let mut ports = Box::new(rt.alloc(), RealPorts::new(rt.alloc()))?;
    assert!(rt; ports.dial(&rt, free_port(&rt)?).is_err());
    Ok(())
}
