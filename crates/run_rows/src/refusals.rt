// Each read and each write of a run is refused in turn, and each capacity of the sink, where one
// byte a call is given and taken.
use crate::case::{Case, outcome, plain};
use sidb_io::NoGate;
use std::test::Fail;

/// Words, an input, and the exit status and the text where nothing is refused.
#[derive(Clone, Copy)]
struct Row {
    words: &'static str,
    input: &'static str,
    status: u8,
    text: &'static str,
}

/// Two neighbours along a row.
const NEIGHBOURS: Row = Row {
    words: "",
    input: "0 0 0\n1 0 0\n",
    status: 0,
    text: "sidb-ground 1\nsites 2\nsite 0 0 0 0\nsite 1 1 0 0\nskipped 0\nentries 2\n\
         -0 certain\n0- certain\nend\n",
};

/// Their certificate.
const CERTIFICATE: &str = "sidb-certificate 1\nsidb-table 1\nsites 2\nbase 3\n\
     mu -320000000000 -910000000000\nclass 620124254312 620124254313\npair 0 1 0\nend\n\
     entries 2\n-0 certain\n0- certain\ntokens\nn\nn\ns 0\nl 0\ns 1\nn\nl 1\ns 0\ns 0\n\
     s 0\nend\n";

const CERTIFIED: Row = Row {
    words: "--task certify",
    text: CERTIFICATE,
    ..NEIGHBOURS
};

const CHECKED: Row = Row {
    words: "--task check",
    input: CERTIFICATE,
    status: 0,
    text: "sidb-ground 1\nsites 2\nskipped 0\nentries 2\n-0 certain\n0- certain\nend\n",
};

const DUPLICATE: Row = Row {
    words: "",
    input: "0 0 0\n0 0 0\n",
    status: 3,
    text: "fault input duplicate 1 2\n",
};

/// The truth table of an inverter: the input at both ends, and the output between them.
const INVERTER: Row = Row {
    words: "--task truth --input 0:3 --output 1:2 --function not",
    input: "0 0 0\n6 0 0\n8 0 0\n14 0 0\n",
    status: 0,
    text: "sidb-truth 1\nfunction not\ninputs 1\noutputs 1\n\
         pattern 0 wants 1 works entries 1\n-0- certain\n\
         pattern 1 wants 0 works entries 1\n-0- certain\nverdict works\nend\n",
};

const ROWS: [Row; 5] = [NEIGHBOURS, CERTIFIED, CHECKED, DUPLICATE, INVERTER];

/// A run of one byte a call.
fn case_of(row: &Row) -> Case<'static> {
    Case {
        piece: 1,
        ..plain(row.words, row.input)
    }
}

/// The last read that a run makes is the one after the last byte, which finds the end.
#[test]
fn each_read_is_refused(rt: HostRuntime) -> Result<(), Fail> {
    for row in ROWS {
        let last = row.input.len() as u64;
        for call in 0..last.saturating_add(2) {
            let case = Case {
                failed_read: Some(call),
                ..case_of(&row)
            };
            let (status, output) = outcome(&rt, rt.alloc(), &case, &NoGate)?;
            let whole = call > last;
            assert_eq!(rt; status, if whole { row.status } else { 7 }, "{call}");
            let text = if whole { row.text } else { "" };
            assert_eq!(rt; output.as_slice(), text.as_bytes(), "{call}");
        }
    }
    Ok(())
}

#[test]
fn each_write_is_refused(rt: HostRuntime) -> Result<(), Fail> {
    for row in ROWS {
        let whole = row.text.as_bytes();
        for call in 0..whole.len().saturating_add(1) {
            let case = Case {
                failed_write: Some(call as u64),
                ..case_of(&row)
            };
            let (status, output) = outcome(&rt, rt.alloc(), &case, &NoGate)?;
            let wanted = if call < whole.len() { 8 } else { row.status };
            assert_eq!(rt; status, wanted, "{call}");
            assert_eq!(rt; output.as_slice(), &whole[..call], "{call}");
        }
    }
    Ok(())
}

/// A sink takes as many bytes as it has capacity for, and no more.
#[test]
fn each_capacity_is_kept(rt: HostRuntime) -> Result<(), Fail> {
    for row in ROWS {
        let whole = row.text.as_bytes();
        for capacity in 0..whole.len().saturating_add(1) {
            let case = Case {
                capacity,
                ..case_of(&row)
            };
            let (status, output) = outcome(&rt, rt.alloc(), &case, &NoGate)?;
            let wanted = if capacity < whole.len() {
                8
            } else {
                row.status
            };
            assert_eq!(rt; status, wanted, "{capacity}");
            assert_eq!(rt; output.as_slice(), &whole[..capacity], "{capacity}");
        }
    }
    Ok(())
}
