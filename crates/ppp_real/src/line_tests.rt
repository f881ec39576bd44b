use crate::{RealDialer, RealLineIn, RealLineOut};
use ppp_base::Octets;
use ppp_outside::{Dialer, Dialled, LineGot, LineIn, LineWords, Sink, Took};
use std::io::{Read, Write};
use std::net::TcpListener;
use std::os::unix::net::UnixListener;
use std::process::Abort;
use std::sync::Wait;
use std::test::Fail;
use std::{fs, rt};

fn socket_words(text: &str) -> LineWords {
    LineWords::Socket(Octets::from_octets(text.as_bytes()).unwrap_or(Octets::new()))
}

// What a line answers to the other end, which is `peer`: octets, then nothing, then the end.
fn talks<R: Wait + rt::Clock + Abort + Drop, P: Read + Write + Drop>(
    rt: &R,
    mut input: RealLineIn<R>,
    mut output: RealLineOut,
    mut peer: P,
) -> Result<(), Fail> {
    let mut buf = [0u8; 16];
    assert_eq!(rt; input.read(&mut buf, 10), LineGot::Quiet);
    assert_eq!(rt; input.read(&mut buf, 0), LineGot::Quiet);
    peer.write_all(b"RING")?;
    assert_eq!(rt; input.read(&mut buf, 5000), LineGot::Got(4));
    assert_eq!(rt; &buf[..4], b"RING".as_slice());
    assert_eq!(rt; output.write(b"ATA"), Took::Took(3));
    let mut heard = [0u8; 3];
    peer.read_exact(&mut heard)?;
    assert_eq!(rt; heard.as_slice(), b"ATA".as_slice());
    drop(peer);
    assert_eq!(rt; input.read(&mut buf, 5000), LineGot::End);
    Ok(())
}

#[test]
fn tcp_line_talks(rt: HostRuntime) -> Result<(), Fail> {
    let listener = TcpListener::bind(&rt, "127.0.0.1:0")?;
    let address = listener.local_addr()?.to_string(rt.alloc())?;
    let mut dialer = RealDialer::new(rt, rt.alloc());
    let Dialled::Line(input, output) = dialer.dial(&socket_words(address.as_str())) else {
        panic!(rt; "no line")
    };
    let (peer, _) = listener.accept()?;
    talks(&rt, input, output, peer)
}

#[test]
fn unix_line_talks(rt: HostRuntime) -> Result<(), Fail> {
    let path = format!(in rt.alloc(); "/tmp/ppp_real_line_{}", std::process::id(rt.process()))?;
    let listener = UnixListener::bind(&rt, path.as_str())?;
    let mut dialer = RealDialer::new(rt, rt.alloc());
    let Dialled::Line(input, output) = dialer.dial(&socket_words(path.as_str())) else {
        panic!(rt; "no line")
    };
    let (peer, _) = listener.accept()?;
    fs::remove_file(&rt, path.as_str())?;
    talks(&rt, input, output, peer)
}

// Nobody listens at the path, and the other text is no address.
#[test]
fn a_dial_fails(rt: HostRuntime) -> Result<(), Fail> {
    let mut dialer = RealDialer::new(rt, rt.alloc());
    for text in ["/tmp/ppp_real_nobody", "127.0.0.1"] {
        match dialer.dial(&socket_words(text)) {
            Dialled::Failed => {}
            Dialled::Line(_, _) => panic!(rt; "a line to nobody"),
        }
    }
    Ok(())
}
