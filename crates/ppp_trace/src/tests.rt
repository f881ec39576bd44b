use crate::{
    BadTrace, BareStep, FaultKind, TraceFault, WorldStep, fault_text, read_bare, read_step,
    read_trace,
};
use ppp_fsm::FsmEvent;
use ppp_outside::ScriptEnd;
use std::alloc::Global;
use std::test::Fail;

// The line that tells the fault of an input, and nothing where it is a trace.
fn told(alloc: Global, input: &[u8]) -> Result<Vec<u8>, Fail> {
    match read_bare(alloc, input) {
        Ok(_) => Ok(Vec::new(alloc)),
        Err(TraceFault::Bad(bad)) => Ok(Vec::from_slice(alloc, fault_text(bad).as_slice())?),
        Err(TraceFault::NoMemory(_)) => Ok(Vec::from_slice(alloc, b"no memory")?),
    }
}

#[test]
fn reads_steps(rt: HostRuntime) -> Result<(), Fail> {
    let input =
        b"bare\nopen\nrcr+\nend 1 exit 0\nend 4294967295 exit 255\nend 0 killed\nend 20 none";
    let steps = match read_bare(rt.alloc(), input) {
        Ok(steps) => steps,
        Err(_) => Vec::new(rt.alloc()),
    };
    let wanted = [
        BareStep::Event(FsmEvent::Open),
        BareStep::Event(FsmEvent::RcrGood),
        BareStep::End {
            job: 1,
            answer: ScriptEnd::Exit(0),
        },
        BareStep::End {
            job: 4_294_967_295,
            answer: ScriptEnd::Exit(255),
        },
        BareStep::End {
            job: 0,
            answer: ScriptEnd::Killed,
        },
        BareStep::End {
            job: 20,
            answer: ScriptEnd::NotStarted,
        },
    ];
    assert!(rt; steps.as_slice() == wanted.as_slice());
    Ok(())
}

#[test]
fn tells_the_size(rt: HostRuntime) -> Result<(), Fail> {
    let text = fault_text(BadTrace {
        line: 0,
        kind: FaultKind::Size,
    });
    assert_eq!(rt; text.as_slice(), b"bad trace: line 0: size\n".as_slice());
    Ok(())
}

#[test]
fn tells_the_first_fault(rt: HostRuntime) -> Result<(), Fail> {
    let rows = [
        ("bare", ""),
        ("bare\n", ""),
        ("bare\nup\n", ""),
        ("bare\nup", ""),
        ("", "bad trace: line 1: empty\n"),
        ("\n", "bad trace: line 1: header\n"),
        ("bare \nup\n", "bad trace: line 1: header\n"),
        ("full 1\nfly\n", "bad trace: line 1: header\n"),
        ("bare\n\n", "bad trace: line 2: step\n"),
        ("bare\nUp\nfly\n", "bad trace: line 2: step\n"),
        (
            "bare\nup\ndown\nend 1 none\nfly\nup\n",
            "bad trace: line 5: step\n",
        ),
        ("bare\nend 01 exit 0\n", "bad trace: line 2: step\n"),
        ("bare\nend 4294967296 none\n", "bad trace: line 2: step\n"),
        ("bare\nend 1 exit 256\n", "bad trace: line 2: step\n"),
        ("bare\nend 1 exit\n", "bad trace: line 2: step\n"),
        ("bare\nend  1 none\n", "bad trace: line 2: step\n"),
        ("bare\nend +1 none\n", "bad trace: line 2: step\n"),
        ("bare\nend 1 none \n", "bad trace: line 2: step\n"),
    ];
    for (input, line) in rows {
        assert_eq!(rt;
            told(rt.alloc(), input.as_bytes())?.as_slice(),
            line.as_bytes(),
            "at {input:?}"
        );
    }
    Ok(())
}

#[test]
fn counts_steps(rt: HostRuntime) -> Result<(), Fail> {
    let alloc = rt.alloc();
    let mut text = Vec::from_slice(alloc, b"bare")?;
    for _ in 0..100_000u32 {
        text.extend_from_slice(b"\nup")?;
    }
    assert!(rt; told(alloc, text.as_slice())?.is_empty());
    let good = text.len();
    text.extend_from_slice(b"\nup")?;
    assert_eq!(rt;
        told(alloc, text.as_slice())?.as_slice(),
        b"bad trace: line 100002: steps\n".as_slice()
    );
    text.truncate(good);
    text.extend_from_slice(b"\nfly")?;
    assert_eq!(rt;
        told(alloc, text.as_slice())?.as_slice(),
        b"bad trace: line 100002: step\n".as_slice()
    );
    Ok(())
}

#[test]
fn reads_the_steps_of_full_traces(rt: HostRuntime) -> Result<(), Fail> {
    let rows = [
        "1 begin",
        "2 dial ok",
        "1 dial fail",
        "1 rx 7e",
        "2 rx 4294967295 18446744073709551615 7Eff",
        "1 line end",
        "1 line fail",
        "1 line left",
        "2 sent ok",
        "2 sent fail",
        "1 tick 72057594037927936",
        "tick 0",
        "1 word HUP",
        "1 word USR2",
        "2 hook 1 exit 255",
        "unit 15 hook 4294967295 killed",
        "unit 0 hook 1 none",
        "packet 0 45",
        "carry 2",
    ];
    for row in rows {
        assert!(rt; read_step(row.as_bytes(), 2).is_some(), "{row}");
    }
    Ok(())
}

#[test]
fn refuses_lines_that_are_no_steps(rt: HostRuntime) -> Result<(), Fail> {
    let rows = [
        "",
        "begin",
        "0 begin",
        "3 begin",
        "01 begin",
        "1  begin",
        "1 begin ",
        "1 rx ",
        "1 rx 7",
        "1 rx 1 7e",
        "1 rx 4294967296 0 7e",
        "1 tick 72057594037927937",
        "1 word KILL",
        "1 hook 1 exit 256",
        "unit 16 hook 1 none",
        "packet 0 ",
        "carry 3",
    ];
    for row in rows {
        assert!(rt; read_step(row.as_bytes(), 2).is_none(), "{row}");
    }
    Ok(())
}

// Whether a line of so many octets in hexadecimal digits behind these words is a step.
fn takes(alloc: Global, words: &[u8], octets: usize) -> Result<bool, Fail> {
    let mut line = Vec::from_slice(alloc, words)?;
    for _octet in 0..octets {
        line.extend_from_slice(b"5a")?;
    }
    Ok(read_step(line.as_slice(), 1).is_some())
}

#[test]
fn takes_so_many_octets(rt: HostRuntime) -> Result<(), Fail> {
    assert!(rt; takes(rt.alloc(), b"1 rx ", 1024)?);
    assert!(rt; !takes(rt.alloc(), b"1 rx ", 1025)?);
    assert!(rt; takes(rt.alloc(), b"packet 15 ", 2048)?);
    assert!(rt; !takes(rt.alloc(), b"packet 15 ", 2049)?);
    Ok(())
}

#[test]
fn keeps_what_a_step_says(rt: HostRuntime) -> Result<(), Fail> {
    let step = read_step(b"2 rx 3 7 0Aff", 2);
    match &step {
        Some(
            WorldStep::RxAt {
                session,
                offset,
                octets,
                ..
            },
        ) => {
            assert_eq!(rt; *session, 3);
            assert_eq!(rt; *offset, 7);
            assert_eq!(rt; octets.as_slice(), [0x0a, 0xff].as_slice());
            Ok(())
        }
        _ => Err(Fail::from("not these octets")),
    }
}

// The line that tells the fault of a full trace, and nothing where it is one.
fn told_of_full(alloc: Global, input: &[u8]) -> Result<Vec<u8>, Fail> {
    match read_trace(alloc, input) {
        Ok(_) => Ok(Vec::new(alloc)),
        Err(TraceFault::Bad(bad)) => Ok(Vec::from_slice(alloc, fault_text(bad).as_slice())?),
        Err(TraceFault::NoMemory(_)) => Ok(Vec::from_slice(alloc, b"no memory")?),
    }
}

#[test]
fn tells_the_first_fault_of_a_full_trace(rt: HostRuntime) -> Result<(), Fail> {
    let rows = [
        (
            "full 1\noptions 1\nsocket h:1\npap 0\nchap 0\n1 begin\n1 dial fail\n",
            "",
        ),
        (
            "full 1\noptions 1\nsocket h:1\npap 0\nchap 1\na b c\ntick 5",
            "",
        ),
        ("", "bad trace: line 1: empty\n"),
        ("bare\nopen", "bad trace: line 1: header\n"),
        ("full 18446744073709551616\n", "bad trace: line 1: header\n"),
        ("full 1\n", "bad trace: line 2: header\n"),
        ("full 1\noptions 01\n", "bad trace: line 2: header\n"),
        (
            "full 1\noptions 2\nsocket h:1\n",
            "bad trace: line 4: header\n",
        ),
        (
            "full 1\noptions 99999999999999999999\nfrob\n",
            "bad trace: line 4: header\n",
        ),
        (
            "full 1\noptions 1\nfrob\npap 0\n",
            "bad trace: line 2: options\n",
        ),
        (
            "full 1\noptions 1\nfile trace\npap 0\n",
            "bad trace: line 2: options\n",
        ),
        (
            "full 1\noptions 1\nsocket h:1 connect 'chat -f trace'\npap 0\nchap 0\n",
            "bad trace: line 2: options\n",
        ),
        (
            "full 1\noptions 1\nsocket h:1 connect 'chat OK AT'\npap 0\nchap 0\n",
            "",
        ),
        (
            "full 1\noptions 1\nsocket h:1\npap 1\na\nchap 0\n",
            "bad trace: line 4: secrets\n",
        ),
        (
            "full 1\noptions 1\nsocket h:1\npap 0\nchap 1\na\n",
            "bad trace: line 5: secrets\n",
        ),
        (
            "full 1\noptions 1\nsocket h:1\npap 0\nchap 0\n2 begin\n",
            "bad trace: line 6: step\n",
        ),
    ];
    for (input, wanted) in rows {
        let told = told_of_full(rt.alloc(), input.as_bytes())?;
        assert!(rt; told.as_slice() == wanted.as_bytes(), "{input}");
    }
    Ok(())
}

#[test]
fn tells_a_line_that_is_too_long(rt: HostRuntime) -> Result<(), Fail> {
    let mut input = Vec::from_slice(rt.alloc(), b"full 1\noptions 2\nsocket h:1\n#")?;
    for _octet in 0..8192u32 {
        input.push(b'x')?;
    }
    input.extend_from_slice(b"\npap 0\nchap 0\n")?;
    let told = told_of_full(rt.alloc(), input.as_slice())?;
    assert_eq!(rt; told.as_slice(), b"bad trace: line 4: long\n".as_slice());
    Ok(())
}

#[test]
fn keeps_what_a_trace_says(rt: HostRuntime) -> Result<(), Fail> {
    let input =
        b"full 7\noptions 3\nmru 1400\nlink socket a:1\nlink socket b:1\npap 0\nchap 0\n2 begin\n";
    let Ok(trace) = read_trace(rt.alloc(), input) else {
        return Err(Fail::from("a trace"));
    };
    assert_eq!(rt; trace.seed, 7);
    assert_eq!(rt; trace.config.links.as_slice().len(), 2);
    assert_eq!(rt; trace.steps.as_slice(), b"2 begin\n".as_slice());
    Ok(())
}

#[test]
fn makes_a_trace(rt: HostRuntime) -> Result<(), Fail> {
    let text = crate::made_text(rt.alloc(), 7, 1, 8)?;
    let wanted =
        "full 7\noptions 2\nloglimit 65536 nomagic persist holdoff 0 maxfail 0\nlink socket h:1 unit 0 10.0.1.1:10.0.1.2\npap 0\nchap 0\n1 begin\n1 dial ok\n1 sent ok\n";
    match std::str::from_utf8(text.as_slice()) {
        Ok(text) => assert!(rt; text.starts_with(wanted), "{text}"),
        Err(_) => assert!(rt; false),
    }
    assert!(rt; crate::made_trace(rt.alloc(), 7, 16, 400).is_ok());
    Ok(())
}
