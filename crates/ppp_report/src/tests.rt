use crate::check_report;
use std::test::Fail;

#[test]
fn reports(rt: HostRuntime) -> Result<(), Fail> {
    // The number of the bad line, 0 where there is none.
    let rows = [
        ("link 1\n0 attempt 0 0 1\nstatus none\nend\n", 3),
        ("link 1\nstatus 5\nend\n", 0),
        ("link 1\nstatus 5\nend", 0),
        ("end\n", 0),
        ("end", 0),
        (
            "link 1\n0 auth-open 0 0 1\n0 start 1 0 1\n0 start 1 0 1\n",
            4,
        ),
        ("unit 0\nend\n", 2),
        ("", 1),
        ("\n", 1),
        ("end\n\n", 2),
        ("link 1", 2),
        ("link 1\nstatus 5", 3),
        ("link 2\nstatus 5\nend\n", 1),
        ("link 1\n0 ip-open 0 0 1\n", 2),
        ("link 1\nstatus 256\nend\n", 2),
        ("link 1\nstatus 05\nend\n", 2),
        ("link 1\n0 auth-open 0 0 1\nstatus 0\nend\n", 3),
        ("link 1\n0 auth-open 0 0 1", 3),
        ("unit 0\n0 ip-open 0 0 1\nend\n", 2),
        ("unit 0\n0 ip-open 0 0 1", 2),
        ("unit 0\n0 ip-open 0 0 1\n0 start 3 0 1\nend\n", 3),
        ("unit 0\n0 ip-open 0 0 1\n00 start 1 0 1\nend\n", 2),
        (
            "unit 0\n0 ip-open 0 0 1\n0 start 1 0 1\n0 ip-open 0 0 2\n0 ended 0 0 1\nend\n",
            5,
        ),
        (
            "unit 0\n0 ip-open 0 0 1\n0 ip-open 0 0 2\n0 start 1 0 1\n0 ended 0 0 1\n0 ip-closed 0 0 1\n0 start 2 0 1\nend\n",
            0,
        ),
        (
            "unit 0\n0 ip-open 0 0 1\n0 ip-open 0 0 2\n0 start 1 0 3\nend\n",
            4,
        ),
        (
            "unit 0\n0 ip-open 0 0 1\n0 ip-open 0 0 2\n0 start 1 0 2\n0 ended 2 0 1\nend\n",
            0,
        ),
        ("unit 3\n0 made 1 0 1\nunit 2\n0 made 1 0 1\nend\n", 3),
        (
            "unit 3\n0 made 1 0 1\nunit 4\n5 made 255 65535 4294967295\nend\n",
            0,
        ),
        ("unit 3\n18446744073709551616 made 1 0 1\nend\n", 2),
        ("unit 3\n18446744073709551615 made 1 0 1\nend\n", 0),
    ];
    for (text, line) in rows {
        let answer = match check_report(text.as_bytes()) {
            Ok(()) => 0,
            Err(bad) => bad.line,
        };
        assert_eq!(rt; answer, line, "at {text:?}");
    }
    Ok(())
}
