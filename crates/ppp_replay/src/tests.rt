use crate::run::replay_run;
use crate::status_of;
use ppp_base::NoMemory;
use ppp_outside::{MemorySink, MemorySource};
use std::alloc::Global;
use std::io;
use std::test::Fail;

// The status and the output for these words and an input that comes in pieces, where these calls of the source and the
// sink fail.
fn ran(
    alloc: Global,
    words: &[&str],
    input: &str,
    source_fails: &[u64],
    sink_fails: &[u64],
) -> Result<(u8, Vec<u8>), NoMemory> {
    let octets = Vec::from_slice(alloc, input.as_bytes())?;
    let mut source = MemorySource::new(octets, 7, Vec::from_slice(alloc, source_fails)?);
    let mut sink = MemorySink::new(alloc, 4096, 5, Vec::from_slice(alloc, sink_fails)?)?;
    let mut strings = Vec::new(alloc);
    for word in words {
        strings.push(String::from_str(alloc, word)?)?;
    }
    let status = replay_run(alloc, &strings, &mut source, &mut sink);
    Ok((status, Vec::from_slice(alloc, sink.written())?))
}

fn replayed(
    alloc: Global,
    input: &str,
    source_fails: &[u64],
    sink_fails: &[u64],
) -> Result<(u8, Vec<u8>), NoMemory> {
    ran(alloc, &[], input, source_fails, sink_fails)
}

#[test]
fn replays_traces(rt: HostRuntime) -> Result<(), Fail> {
    let rows = [
        (
            "bare\nopen\nup\nrcr+\nrca\nend 1 exit 0\ndown\nend 2 exit 0\n",
            "1 tls 1/0 rest\n2 irc,scr 6/9 rest\n3 sca 8/9 rest\n4 irc,tlu 9/10 ip-up 1 run 1\n5 - 9/10 rest\n6 tld 1/10 ip-down 1 run 2\n7 - 1/10 rest\n",
        ),
        (
            "bare\nopen\nup\nrcr+\nrca\ndown\nup\nrcr+\nrca\nend 1 exit 0\nend 2 exit 0\nend 3 exit 0",
            "1 tls 1/0 rest\n2 irc,scr 6/9 rest\n3 sca 8/9 rest\n4 irc,tlu 9/10 ip-up 1 run 1\n5 tld 1/10 run 1\n6 irc,scr 6/9 run 1\n7 sca 8/9 run 1\n8 irc,tlu 9/10 run 1\n9 - 9/10 ip-down 1 run 2\n10 - 9/10 ip-up 2 run 3\n11 - 9/10 rest\n",
        ),
        (
            "bare\nopen\nup\nrcr+\nrca\ndown\nend 1 killed\n",
            "1 tls 1/0 rest\n2 irc,scr 6/9 rest\n3 sca 8/9 rest\n4 irc,tlu 9/10 ip-up 1 run 1\n5 tld 1/10 run 1\n6 - 1/10 ip-down 1 run 2\n",
        ),
        (
            "bare\nopen\nup\nrcr+\nrca\nend 9 exit 0\nend 1 none\ndown\n",
            "1 tls 1/0 rest\n2 irc,scr 6/9 rest\n3 sca 8/9 rest\n4 irc,tlu 9/10 ip-up 1 run 1\n5 stale 9/10 run 1\n6 - 9/10 rest\n7 tld 1/10 ip-down 1 run 2\n",
        ),
        (
            "bare\nopen\nup\nrca\nrca",
            "1 tls 1/0 rest\n2 irc,scr 6/9 rest\n3 irc 7/10 rest\n4 scr 6/9 rest\n",
        ),
        (
            "bare\nopen\nup\ntimeout\ntimeout\ntimeout\ntimeout\ntimeout\ntimeout\ntimeout\ntimeout\ntimeout\ntimeout\n",
            "1 tls 1/0 rest\n2 irc,scr 6/9 rest\n3 scr 6/8 rest\n4 scr 6/7 rest\n5 scr 6/6 rest\n6 scr 6/5 rest\n7 scr 6/4 rest\n8 scr 6/3 rest\n9 scr 6/2 rest\n10 scr 6/1 rest\n11 scr 6/0 rest\n12 tlf 3/0 rest\n",
        ),
        ("bare\ndown", "1 - 0/0 rest\n"),
        ("bare", ""),
    ];
    for (input, output) in rows {
        let (status, written) = replayed(rt.alloc(), input, &[], &[])?;
        assert_eq!(rt; status, 0, "at {input:?}");
        assert_eq!(rt; written.as_slice(), output.as_bytes(), "at {input:?}");
    }
    Ok(())
}

#[test]
fn refuses_other_inputs(rt: HostRuntime) -> Result<(), Fail> {
    let rows = [
        ("", 3, "bad trace: line 1: empty\n"),
        ("bare \nup\n", 3, "bad trace: line 1: header\n"),
        ("bare\n\n", 3, "bad trace: line 2: step\n"),
        (
            "bare\nopen\nup \nend 01 none\n",
            3,
            "bad trace: line 3: step\n",
        ),
        ("full 1\nx", 3, "bad trace: line 2: header\n"),
        ("fuller", 3, "bad trace: line 1: header\n"),
    ];
    for (input, status, output) in rows {
        let (answer, written) = replayed(rt.alloc(), input, &[], &[])?;
        assert_eq!(rt; answer, status, "at {input:?}");
        assert_eq!(rt; written.as_slice(), output.as_bytes(), "at {input:?}");
    }
    Ok(())
}

#[test]
fn tells_faults(rt: HostRuntime) -> Result<(), Fail> {
    let trace = "bare\nopen\nup\n";
    let rows: [(&str, &[u64], &[u64], u8, &str); 5] = [
        (trace, &[2], &[], 33, ""),
        (trace, &[], &[1], 35, ""),
        (trace, &[], &[2], 35, "1 tls"),
        ("else", &[], &[1], 3, ""),
        ("else", &[], &[2], 3, "bad t"),
    ];
    for (input, source_fails, sink_fails, status, output) in rows {
        let (answer, written) = replayed(rt.alloc(), input, source_fails, sink_fails)?;
        assert_eq!(rt;
            answer,
            status,
            "at {input:?} {source_fails:?} {sink_fails:?}"
        );
        assert_eq!(rt; written.as_slice(), output.as_bytes());
    }
    Ok(())
}

#[test]
fn refuses_words(rt: HostRuntime) -> Result<(), Fail> {
    let rows: [&[&str]; 4] = [&["-x"], &["-c", "-c"], &["-c "], &[""]];
    for words in rows {
        let (answer, written) = ran(rt.alloc(), words, "end\n", &[], &[])?;
        assert_eq!(rt; answer, 2);
        assert!(rt; written.is_empty());
    }
    Ok(())
}

#[test]
fn checks_reports(rt: HostRuntime) -> Result<(), Fail> {
    let rows: [(&str, &[u64], &[u64], u8, &str); 9] = [
        (
            "link 1\n0 attempt 0 0 1\nstatus none\nend\n",
            &[],
            &[],
            3,
            "line 3\n",
        ),
        ("link 1\nstatus 5\nend\n", &[], &[], 0, "lawful\n"),
        ("end\n", &[], &[], 0, "lawful\n"),
        (
            "unit 0\n0 ip-open 0 0 1\n0 start 1 0 1\n0 start 1 0 1\n",
            &[],
            &[],
            3,
            "line 4\n",
        ),
        ("unit 0\nend\n", &[], &[], 3, "line 2\n"),
        ("end\n", &[1], &[], 33, ""),
        ("end\n", &[], &[2], 35, "lawfu"),
        ("unit 0\nend\n", &[], &[1], 3, ""),
        ("unit 0\nend\n", &[], &[2], 3, "line "),
    ];
    for (input, source_fails, sink_fails, status, output) in rows {
        let (answer, written) = ran(rt.alloc(), &["-c"], input, source_fails, sink_fails)?;
        assert_eq!(rt; answer, status, "at {input:?}");
        assert_eq!(rt; written.as_slice(), output.as_bytes(), "at {input:?}");
    }
    Ok(())
}

#[test]
fn words_that_are_not_text(rt: HostRuntime) {
    assert_eq!(rt; status_of(&io::Error::from(io::ErrorKind::InvalidData)), 2);
    assert_eq!(rt; status_of(&io::Error::from(io::ErrorKind::OutOfMemory)), 32);
}

#[test]
fn replays_full_traces(rt: HostRuntime) -> Result<(), Fail> {
    let rows = [
        (
            "full 1\noptions 1\nsocket h:1\npap 0\nchap 0\n1 begin\n1 dial fail\n",
            "1 taken\n link 1 0 attempt 0 0 1\n2 taken\n link 1 0 cause 1 0 1\n link 1 0 over 0 0 1\n link 1 0 finished 7 0 0\n",
        ),
        (
            "full 1\noptions 1\nsocket h:1\npap 0\nchap 0\n1 begin\n1 word TERM\n1 dial ok\n",
            "1 taken\n link 1 0 attempt 0 0 1\n2 taken\n link 1 0 signal 3 0 0\n link 1 0 cause 11 3 1\n3 taken\n link 1 0 over 0 0 1\n link 1 0 finished 5 0 0\n",
        ),
        (
            "full 1\noptions 1\nsocket h:1 nomagic\npap 0\nchap 0\n1 begin\n1 dial ok\n1 sent ok\n1 line end\n",
            "1 taken\n link 1 0 attempt 0 0 1\n2 taken\n link 1 0 line 0 0 1\n3 taken\n link 1 out 7eff7d23c0217d217d217d207d2e7d227d267d207d207d207d207d277d227d287d2270347e\n4 taken\n link 1 0 cause 10 0 1\n link 1 0 over 0 0 1\n link 1 0 finished 16 0 0\n",
        ),
        (
            "full 1\noptions 1\nsocket h:1\npap 0\nchap 0\n1 dial ok\n1 rx 7e\n1 rx 1 0 7e\n1 line left\n1 sent ok\n1 hook 1 none\nunit 0 hook 1 none\ncarry 1\ntick 5\n",
            "1 stale\n2 stale\n3 stale\n4 stale\n5 stale\n6 stale\n7 stale\n8 taken\n9 taken\n",
        ),
    ];
    for (input, wanted) in rows {
        let (status, output) = replayed(rt.alloc(), input, &[], &[])?;
        assert!(rt;
            status == 0 && output.as_slice() == wanted.as_bytes(),
            "{input}"
        );
    }
    Ok(())
}

#[test]
fn sums_made_traces_up(rt: HostRuntime) -> Result<(), Fail> {
    let rows = [
        (
            ["-g", "7", "1", "1"],
            "steps 1 taken 1 stale 0 marks 1 given 0\n",
        ),
        (
            ["-g", "7", "1", "3"],
            "steps 3 taken 3 stale 0 marks 2 given 0\n",
        ),
        (
            ["-g", "7", "1", "8"],
            "steps 8 taken 8 stale 0 marks 7 given 0\n",
        ),
    ];
    for (words, wanted) in rows {
        let (status, output) = ran(rt.alloc(), &words, "", &[], &[])?;
        assert!(rt; status == 0 && output.as_slice() == wanted.as_bytes());
    }
    let others = [
        ["-g", "7", "0", "1"],
        ["-g", "7", "17", "1"],
        ["-g", "7", "1", "0"],
        ["-g", "7", "1", "200001"],
        ["-g", "07", "1", "1"],
        ["-h", "7", "1", "1"],
    ];
    for words in others {
        let (status, _output) = ran(rt.alloc(), &words, "", &[], &[])?;
        assert_eq!(rt; status, 2);
    }
    Ok(())
}
