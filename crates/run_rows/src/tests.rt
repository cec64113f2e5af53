use crate::case::{Case, outcome, plain, word_list};
use crate::meeting::ClaimMeeting;
use crate::steady_run;
use sidb_io::{NoGate, SteadySink, SteadySource};
use sim_cli::code;
use std::test::Fail;

/// Two neighbours along a row, and their ground text, of 94 bytes.
const TWO: &str = "0 0 0\n1 0 0\n";

const TWO_GROUND: &str = "sidb-ground 1\nsites 2\nsite 0 0 0 0\nsite 1 1 0 0\n\
     skipped 0\nentries 2\n-0 certain\n0- certain\nend\n";

/// The certificate of one site, which is negative.
const ONE_CERTIFICATE: &str = "sidb-certificate 1\nsidb-table 1\nsites 1\nbase 3\n\
     mu -320000000000 -910000000000\nend\nentries 1\n- certain\ntokens\nn\nl 0\ns 0\ns 0\nend\n";

/// Of each task words, an input, and the output.
const TASKS: [(&str, &str, &str); 5] = [
    ("", TWO, TWO_GROUND),
    (
        "--task potentials",
        "0 0 0\n",
        "sidb-table 1\nsites 1\nbase 3\nmu -320000000000 -910000000000\nend\n",
    ),
    ("--task certify", "0 0 0\n", ONE_CERTIFICATE),
    (
        "--task check",
        ONE_CERTIFICATE,
        "sidb-ground 1\nsites 1\nskipped 0\nentries 1\n- certain\nend\n",
    ),
    (
        "--task window --window 0.02",
        "0 0 0\n",
        "sidb-window 1\nwindow 20000000000\nsites 1\nsite 0 0 0 0\nskipped 0\nentries 1\n\
         - certain\nend\n",
    ),
];

#[test]
fn one_row_of_each_task(rt: HostRuntime) -> Result<(), Fail> {
    for (words, input, wanted) in TASKS {
        let (code, output) = outcome(&rt, rt.alloc(), &plain(words, input), &NoGate)?;
        assert_eq!(rt; code, 0, "{words}");
        assert_eq!(rt; output.as_slice(), wanted.as_bytes(), "{words}");
    }
    Ok(())
}

/// Where the words are refused the source is not read, and the line may be cut off.
#[test]
fn refused_words_read_nothing(rt: HostRuntime) -> Result<(), Fail> {
    let mut case = Case {
        failed_read: Some(0),
        ..plain("hello", TWO)
    };
    let (code, output) = outcome(&rt, rt.alloc(), &case, &NoGate)?;
    assert_eq!(rt; code, 2);
    assert_eq!(rt; output.as_slice(), b"fault words\n".as_slice());
    case.failed_write = Some(1);
    let (code, output) = outcome(&rt, rt.alloc(), &case, &NoGate)?;
    assert_eq!(rt; code, 8);
    assert_eq!(rt; output.as_slice(), b"fault wor".as_slice());
    Ok(())
}

/// Each read of a run fails in turn, then each write. Ten bytes a call.
#[test]
fn faults_of_the_outside(rt: HostRuntime) -> Result<(), Fail> {
    let alloc = rt.alloc();
    let whole = TWO_GROUND.as_bytes();
    for call in 0..11u64 {
        let mut case = Case {
            piece: 10,
            failed_read: Some(call),
            ..plain("", TWO)
        };
        let (code, output) = outcome(&rt, alloc, &case, &NoGate)?;
        assert_eq!(rt; code, if call < 3 { 7 } else { 0 });
        assert_eq!(rt; output.len(), if call < 3 { 0 } else { whole.len() });
        case.failed_read = None;
        case.failed_write = Some(call);
        let (code, output) = outcome(&rt, alloc, &case, &NoGate)?;
        assert_eq!(rt; code, if call < 10 { 8 } else { 0 });
        assert_eq!(rt; output.len(), whole.len().min(call as usize * 10));
    }
    Ok(())
}

/// The read that would tell the end fails too, where one piece holds the whole text.
#[test]
fn the_end_may_fail(rt: HostRuntime) -> Result<(), Fail> {
    let case = Case {
        piece: 100,
        failed_read: Some(1),
        ..plain("", TWO)
    };
    let (code, output) = outcome(&rt, rt.alloc(), &case, &NoGate)?;
    assert_eq!(rt; code, 7);
    assert!(rt; output.is_empty());
    Ok(())
}

/// Two workers are at work at the same time, and the answer is that of one. Sites that are far
/// from each other.
#[test]
fn two_workers_meet(rt: HostRuntime) -> Result<(), Fail> {
    let alloc = rt.alloc();
    let mut sites = String::new(alloc);
    for k in 0..40u64 {
        let line = format!(in alloc; "{k}0 0 0\n")?;
        sites.push_str(&line)?;
    }
    let gate = ClaimMeeting::new();
    let (code, both) = outcome(&rt, alloc, &plain("--workers 2", &sites), &gate)?;
    assert_eq!(rt; code, 0);
    assert!(rt; gate.is_over());
    let (_, one) = outcome(&rt, alloc, &plain("--workers 1", &sites), &NoGate)?;
    assert_eq!(rt; both.as_slice(), one.as_slice());
    Ok(())
}

#[test]
fn steady_ends(rt: HostRuntime) -> Result<(), Fail> {
    let alloc = rt.alloc();
    let words = word_list(alloc, "--workers 1")?;
    let mut source = SteadySource::new(TWO.as_bytes().to_vec(alloc)?);
    let mut sink = SteadySink::new();
    let status = steady_run(&rt, alloc, &words, &mut source, &mut sink, &NoGate);
    assert_eq!(rt; code(&status), 0);
    Ok(())
}
