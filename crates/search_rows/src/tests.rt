ghost use Rattle.std.specs.Prelude.{◌≤◌};
ghost use Rattle.sidb_units.specs.declared.TheConstants.{MAX_NODES};
ghost use Rattle.window_model.specs.Windows.{IsWindow};

use energy_window::{WindowAnswer, WindowCertificate, check_window, solve_window, walk_window};
use entry_lines::entry_line;
use ground_entries::GroundList;
use ground_state::{SolveAnswer, solve, solve_within};
use plain_search::{plain_solve, plain_window};
use potential_problem::Problem;
use potential_table::read_table;
use shared_check::walk_shared;
use sidb_io::NoGate;
use sidb_units::{MAX_NODES, Memory};
use std::alloc::Global;
use std::test::Fail;
use std::thread::Threads;
use token_sinks::{Token, Tokens};
use window_model::window_of;

/// Two sites with a wide span: no list is certainly valid.
const WIDE_PAIR: &str =
    "sidb-table 1\nsites 2\nbase 3\nmu -2 -590000000002\nclass 1 3\npair 0 1 0\nend\n";

/// Tables of a few sites, among them wide spans, ties, base 2 and fixed charges.
const TABLES: [&str; 10] = [
    WIDE_PAIR,
    "sidb-table 1\nsites 0\nbase 3\nmu -1 -2\nend\n",
    "sidb-table 1\nsites 3\nbase 3\nmu -60 -1000\nclass 50 50\nclass 50 52\nclass 51 51\n\
     pair 0 1 0\npair 0 2 1\npair 1 2 2\nend\n",
    "sidb-table 1\nsites 4\nbase 3\nmu -50 -1000\n\
     class 100 100\nclass 12 12\nclass 9 11\nclass 10 10\n\
     pair 0 1 0\npair 0 2 1\npair 0 3 2\npair 1 2 3\npair 1 3 1\npair 2 3 0\nend\n",
    "sidb-table 1\nsites 3\nbase 3\nmu -320000000000 -910000000000\n\
     class 620124254312 620124254313\nclass 287140799939 287140799940\n\
     pair 0 1 0\npair 0 2 1\npair 1 2 0\nend\n",
    "sidb-table 1\nsites 3\nbase 2\nmu -320 -910\nclass 600 640\nclass 270 330\n\
     pair 0 1 0\npair 0 2 1\npair 1 2 0\nend\n",
    "sidb-table 1\nsites 4\nbase 3\nmu -320 -910\nclass 560 680\nclass 250 350\nclass 130 180\n\
     pair 0 1 0\npair 0 2 1\npair 0 3 2\npair 1 2 0\npair 1 3 1\npair 2 3 0\nend\n",
    "sidb-table 1\nsites 6\nbase 3\nmu -320 -910\n\
     class 280 294\nclass 88 94\nclass 53 58\nclass 36 39\nclass 21 23\nclass 16 17\nclass 12 13\n\
     pair 0 1 0\npair 0 2 2\npair 0 3 3\npair 0 4 5\npair 0 5 6\npair 1 2 1\npair 1 3 2\n\
     pair 1 4 4\npair 1 5 5\npair 2 3 0\npair 2 4 2\npair 2 5 3\npair 3 4 1\npair 3 5 2\n\
     pair 4 5 0\nend\n",
    "sidb-table 1\nsites 5\nbase 3\nmu -50 -300\nclass 0 60\nclass 40 90\n\
     pair 0 1 0\npair 0 2 1\npair 0 3 0\npair 0 4 1\npair 1 2 0\npair 1 3 1\npair 1 4 0\n\
     pair 2 3 0\npair 2 4 1\npair 3 4 0\nend\n",
    "sidb-table 2\nsites 4\nfixed 2\nbase 3\nmu -320 -910\ncharge -1\ncharge 2\n\
     class 280 294\nclass 88 94\nclass 53 58\nclass 36 39\nclass 21 23\nclass 16 17\n\
     pair 0 1 0\npair 0 2 2\npair 0 3 3\npair 1 2 1\npair 1 3 2\npair 2 3 0\n\
     near 0 0 5\nnear 0 1 4\nnear 1 0 4\nnear 1 1 5\nnear 2 0 2\nnear 2 1 5\n\
     near 3 0 1\nnear 3 1 5\nend\n",
];

/// The lines of the entries of a list.
fn lines_of(alloc: Global, list: &GroundList) -> Result<String, Fail> {
    let mut text = String::new(alloc);
    for j in 0..list.len() {
        let line = entry_line(alloc, list.entry(j))?;
        text.push_str(&line)?;
        text.push_str("\n")?;
    }
    Ok(text)
}

/// The entries of the plain program.
fn by_plain(alloc: Global, problem: &Problem) -> Result<String, Fail> {
    match plain_solve(alloc, problem)? {
        Some(list) => lines_of(alloc, &list),
        None => Ok(String::from_str(alloc, "too long")?),
    }
}

/// The entries of the search, or the name of its refusal.
fn by_search<R: Threads + Sync>(
    rt: &R,
    alloc: Global,
    problem: &Problem,
    limit: u64,
) -> Result<String, Fail>
    requires { (1 ≤ limit) × (limit ≤ MAX_NODES) }
{
    match solve(rt, alloc, problem, limit, 1, &NoGate) {
        SolveAnswer::List(solved) => lines_of(alloc, &solved.list),
        SolveAnswer::Budget => Ok(String::from_str(alloc, "budget")?),
        SolveAnswer::ListTooLong => Ok(String::from_str(alloc, "too long")?),
        SolveAnswer::Memory => Err(Memory)?,
    }
}

/// A table text of eight sites that see nothing of each other, with both levels at 0.
fn zero_table(alloc: Global, base: u64) -> Result<String, Fail> {
    let mut text = format!(in alloc; "sidb-table 1\nsites 8\nbase {base}\nmu 0 0\nclass 0 0\n")?;
    for i in 0..8u64 {
        for j in i + 1..8u64 {
            let line = format!(in alloc; "pair {i} {j} 0\n")?;
            text.push_str(&line)?;
        }
    }
    text.push_str("end\n")?;
    Ok(text)
}

#[test]
fn both_give_one_list(rt: HostRuntime) -> Result<(), Fail> {
    let alloc = rt.alloc();
    for text in TABLES {
        let problem = read_table(alloc, text.as_bytes())?;
        let plain = by_plain(alloc, &problem)?;
        let found = by_search(&rt, alloc, &problem, MAX_NODES)?;
        assert_eq!(rt; found.as_str(), plain.as_str(), "{text}");
    }
    for base in [2, 3] {
        let text = zero_table(alloc, base)?;
        let problem = read_table(alloc, text.as_bytes())?;
        let plain = by_plain(alloc, &problem)?;
        let found = by_search(&rt, alloc, &problem, MAX_NODES)?;
        assert_eq!(rt; found.as_str(), plain.as_str());
    }
    Ok(())
}

/// The tree of the wide pair has six nodes and no bound, that of the zero table 9,841 at bound 0.
#[test]
fn limits_count_nodes(rt: HostRuntime) -> Result<(), Fail> {
    let alloc = rt.alloc();
    let wide = read_table(alloc, WIDE_PAIR.as_bytes())?;
    match solve(&rt, alloc, &wide, 6, 1, &NoGate) {
        SolveAnswer::List(solved) => {
            assert_eq!(rt; solved.nodes, 6);
            assert!(rt; solved.bound.is_none());
            assert_eq!(rt; solved.list.len(), 3);
        }
        _ => assert!(rt; false),
    }
    let found = by_search(&rt, alloc, &wide, 5)?;
    assert_eq!(rt; found.as_str(), "budget");
    let text = zero_table(alloc, 3)?;
    let zero = read_table(alloc, text.as_bytes())?;
    let found = by_search(&rt, alloc, &zero, 9841)?;
    assert_eq!(rt; found.as_str(), "too long");
    let found = by_search(&rt, alloc, &zero, 9840)?;
    assert_eq!(rt; found.as_str(), "budget");
    Ok(())
}

/// The entries of the plain program within a window.
fn by_plain_within(alloc: Global, problem: &Problem, window: i64) -> Result<String, Fail>
    requires { IsWindow window }
{
    match plain_window(alloc, problem, window)? {
        Some(list) => lines_of(alloc, &list),
        None => Ok(String::from_str(alloc, "too long")?),
    }
}

/// The entries of the search within a window, or the name of its refusal.
fn by_search_within<R: Threads + Sync>(
    rt: &R,
    alloc: Global,
    problem: &Problem,
    window: i64,
) -> Result<String, Fail>
    requires { IsWindow window }
{
    match solve_window(rt, alloc, problem, window, MAX_NODES, 1, &NoGate) {
        WindowAnswer::List(list) => lines_of(alloc, &list),
        WindowAnswer::Budget => Ok(String::from_str(alloc, "budget")?),
        WindowAnswer::ListTooLong => Ok(String::from_str(alloc, "too long")?),
        WindowAnswer::Memory => Err(Memory)?,
    }
}

/// Whether both programs give one list within a window.
fn are_same<R: Threads + Sync>(rt: &R, alloc: Global, text: &str, window: i64) -> Result<bool, Fail>
    requires { IsWindow window }
{
    let problem = read_table(alloc, text.as_bytes())?;
    let plain = by_plain_within(alloc, &problem, window)?;
    let found = by_search_within(rt, alloc, &problem, window)?;
    Ok(found.as_str() == plain.as_str())
}

#[test]
fn both_give_one_window_list(rt: HostRuntime) -> Result<(), Fail> {
    let alloc = rt.alloc();
    for text in TABLES {
        assert!(rt; are_same(&rt, alloc, text, 0)?, "{text}");
        assert!(rt; are_same(&rt, alloc, text, 1)?, "{text}");
        assert!(rt; are_same(&rt, alloc, text, 7)?, "{text}");
        assert!(rt; are_same(&rt, alloc, text, 60)?, "{text}");
        assert!(rt; are_same(&rt, alloc, text, 400)?, "{text}");
        assert!(rt; are_same(&rt, alloc, text, 200_000_000_000)?, "{text}");
        assert!(rt; are_same(&rt, alloc, text, 2_000_000_000_000)?, "{text}");
    }
    Ok(())
}

/// Four sites where two lists compete, whose energies are these two.
fn pair_of(alloc: Global, first: &str, second: &str) -> Result<String, Fail> {
    Ok(format!(in alloc;
        "sidb-table 1\nsites 4\nbase 3\nmu -50 -1000\n\
        class 100 100\nclass 12 12\nclass {first}\nclass {second}\n\
        pair 0 1 0\npair 0 2 1\npair 0 3 2\npair 1 2 3\npair 1 3 1\npair 2 3 0\nend\n"
    )?)
}

/// The one list is above the other by 1: it is an entry with a window of 1 and not with one of 0.
/// Where each may be above the other by 1, a window of 1 makes both certain.
#[test]
fn windows_reach_their_end(rt: HostRuntime) -> Result<(), Fail> {
    let alloc = rt.alloc();
    let text = pair_of(alloc, "10 10", "11 11")?;
    let problem = read_table(alloc, text.as_bytes())?;
    let none = by_search_within(&rt, alloc, &problem, 0)?;
    assert_eq!(rt; none.as_str(), "-00- certain\n");
    let one = by_search_within(&rt, alloc, &problem, 1)?;
    assert_eq!(rt; one.as_str(), "-00- certain\n0--0 certain\n");
    let text = pair_of(alloc, "9 11", "10 10")?;
    let problem = read_table(alloc, text.as_bytes())?;
    let none = by_search_within(&rt, alloc, &problem, 0)?;
    assert_eq!(rt;
        none.as_str(),
        "-00- unresolved rival 1 -1 1\n0--0 unresolved rival 0 -1 1\n"
    );
    let one = by_search_within(&rt, alloc, &problem, 1)?;
    assert_eq!(rt; one.as_str(), "-00- certain\n0--0 certain\n");
    Ok(())
}

/// The tokens of the first pair within a window of 1, worked by hand: branches are closed by sites,
/// and where the bound is above 11, the one energy and the window, by entry 0.
const WALK: [Token; 22] = [
    Token::Node,
    Token::Node,
    Token::Site(0),
    Token::Node,
    Token::Energy(0),
    Token::Node,
    Token::Listed(0),
    Token::Site(2),
    Token::Site(2),
    Token::Site(2),
    Token::Site(1),
    Token::Node,
    Token::Node,
    Token::Node,
    Token::Site(2),
    Token::Listed(1),
    Token::Site(3),
    Token::Energy(0),
    Token::Site(2),
    Token::Site(0),
    Token::Site(0),
    Token::Site(0),
];

/// Nine of these prefixes are nodes; the checker takes the tokens, and answers the list.
#[test]
fn a_window_is_walked_and_checked(rt: HostRuntime) -> Result<(), Fail> {
    let alloc = rt.alloc();
    let text = pair_of(alloc, "10 10", "11 11")?;
    let problem = read_table(alloc, text.as_bytes())?;
    let SolveAnswer::List(solved) = solve_within(&rt, alloc, &problem, 1, MAX_NODES, 1, &NoGate)
    else {
        return Err(Memory)?;
    };
    let mut tokens = Tokens::new(alloc)?;
    let nodes = walk_window(alloc, &problem, solved.bound, 1, &solved.list, &mut tokens);
    assert_eq!(rt; (nodes, solved.bound), (Ok(9), Some(10)));
    assert_eq!(rt; tokens.len(), WALK.len());
    for k in 0..tokens.len() {
        assert_eq!(rt; Some(tokens.at(k)), WALK.get(k).copied());
    }
    let list = solved.list;
    let certificate = WindowCertificate {
        problem,
        window: 1,
        list,
        tokens,
    };
    let Ok(checked) = check_window(alloc, &certificate) else {
        return Err(Memory)?;
    };
    let lines = lines_of(alloc, &checked)?;
    assert_eq!(rt; lines.as_str(), "-00- certain\n0--0 certain\n");
    Ok(())
}

/// Each token of a certificate is accepted by the look at subtrees, which counts the nodes.
#[test]
fn subtrees_are_looked_at(rt: HostRuntime) -> Result<(), Fail> {
    let alloc = rt.alloc();
    for text in TABLES {
        let problem = read_table(alloc, text.as_bytes())?;
        let SolveAnswer::List(solved) = solve_within(&rt, alloc, &problem, 0, MAX_NODES, 1, &NoGate)
        else {
            return Err(Memory)?;
        };
        let found = walk_shared(
            &rt,
            alloc,
            &problem,
            window_of(0),
            solved.bound,
            &solved.list,
        )?;
        assert_eq!(rt; found, Some(solved.nodes), "{text}");
    }
    Ok(())
}
