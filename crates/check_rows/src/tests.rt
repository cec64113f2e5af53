use crate::certificates::{
    EITHER, FOUR, TOKENS, TWO, WIDE, WINDOW_TOKENS, answer, certain, checked, closed, given,
    refused, unresolved,
};
use certificate_model::{CertRefusal, CloseWhy, EntryWhy, Token};
use charge_model::{Deciding, Test, span_between};
use sidb_io::MemSink;
use sidb_units::Memory;
use std::alloc::Global;
use std::test::Fail;
use token_sinks::Stop;
use token_writer::write_tokens;
use window_model::window_of;

#[test]
fn a_whole_tree_is_sound(rt: HostRuntime) -> Result<(), Fail> {
    let alloc = rt.alloc();
    let lines = [certain("-0"), certain("0-")];
    let none = window_of(0);
    assert_eq!(rt; answer(alloc, TWO, none, &lines, &TOKENS)?, Ok(()));
    let short = answer(alloc, TWO, none, &lines, &TOKENS[..9])?;
    assert_eq!(rt; short, Err(CertRefusal::Short));
    let long = [
        Token::Node,
        Token::Node,
        Token::Site(0),
        Token::Listed(0),
        Token::Site(1),
        Token::Node,
        Token::Listed(1),
        Token::Site(0),
        Token::Site(0),
        Token::Site(0),
        Token::Site(0),
    ];
    assert_eq!(rt;
        answer(alloc, TWO, none, &lines, &long)?,
        Err(CertRefusal::Long)
    );
    Ok(())
}

/// What the first token at the empty prefix is answered.
fn at_first(alloc: Global, token: Token) -> Result<Result<(), CertRefusal>, Memory> {
    let lines = [certain("-0"), certain("0-")];
    answer(alloc, TWO, window_of(0), &lines, &[token])
}

/// What a token at the full prefix `-0` is answered.
fn at_full(alloc: Global, token: Token) -> Result<Result<(), CertRefusal>, Memory> {
    let lines = [certain("-0"), certain("0-")];
    let tokens = [Token::Node, Token::Node, Token::Site(0), token];
    answer(alloc, TWO, window_of(0), &lines, &tokens)
}

#[test]
fn each_test_refuses(rt: HostRuntime) -> Result<(), Fail> {
    let alloc = rt.alloc();
    assert_eq!(rt;
        at_first(alloc, Token::Listed(0))?,
        closed(0, CloseWhy::Shape)
    );
    assert_eq!(rt;
        at_first(alloc, Token::Site(2))?,
        closed(0, CloseWhy::Number)
    );
    assert_eq!(rt;
        at_first(alloc, Token::Energy(2))?,
        closed(0, CloseWhy::Number)
    );
    assert_eq!(rt;
        at_first(alloc, Token::Site(0))?,
        closed(0, CloseWhy::SiteCan)
    );
    assert_eq!(rt;
        at_first(alloc, Token::Energy(0))?,
        closed(0, CloseWhy::NotAbove)
    );
    assert_eq!(rt; at_full(alloc, Token::Node)?, closed(3, CloseWhy::Shape));
    assert_eq!(rt;
        at_full(alloc, Token::Listed(1))?,
        closed(3, CloseWhy::OtherList)
    );
    assert_eq!(rt;
        at_full(alloc, Token::Hop(1, 0))?,
        closed(3, CloseWhy::Number)
    );
    Ok(())
}

#[test]
fn each_full_test_refuses(rt: HostRuntime) -> Result<(), Fail> {
    let alloc = rt.alloc();
    let population = at_full(alloc, Token::Population(0))?;
    assert_eq!(rt; population, closed(3, CloseWhy::PopulationHolds));
    let hop = at_full(alloc, Token::Hop(0, 1))?;
    assert_eq!(rt; hop, closed(3, CloseWhy::HopHolds));
    let beaten = at_full(alloc, Token::Beaten(1))?;
    assert_eq!(rt; beaten, closed(3, CloseWhy::NotBeaten));
    Ok(())
}

/// Its first entry is possibly valid and not certainly, so no energy of it cuts.
#[test]
fn energies_of_uncertain_entries_cut_nothing(rt: HostRuntime) -> Result<(), Fail> {
    let lines = [
        unresolved(
            "--",
            Deciding::Population(0, Test::AboveMinus, span_between(-1, 1)),
        ),
        unresolved(
            "-0",
            Deciding::Population(1, Test::BelowMinus, span_between(-1, 1)),
        ),
        unresolved(
            "0-",
            Deciding::Population(0, Test::BelowMinus, span_between(-1, 1)),
        ),
    ];
    let found = answer(rt.alloc(), WIDE, window_of(0), &lines, &[Token::Energy(0)])?;
    assert_eq!(rt; found, closed(0, CloseWhy::NotCertain));
    Ok(())
}

#[test]
fn entries_are_tested(rt: HostRuntime) -> Result<(), Fail> {
    let alloc = rt.alloc();
    let none = window_of(0);
    let order = answer(alloc, TWO, none, &[certain("0-"), certain("-0")], &[])?;
    assert_eq!(rt; order, refused(1, EntryWhy::Order));
    let possible = answer(alloc, TWO, none, &[certain("--")], &[])?;
    assert_eq!(rt; possible, refused(0, EntryWhy::NotPossible));
    let rival = unresolved("-0", Deciding::Rival(1, span_between(0, 0)));
    let mark = answer(alloc, TWO, none, &[rival, certain("0-")], &[])?;
    assert_eq!(rt; mark, refused(0, EntryWhy::Mark));
    Ok(())
}

/// The second list is higher by 1: it is beaten by a window of 0 and listed by a window of 1.
#[test]
fn windows_list_more(rt: HostRuntime) -> Result<(), Fail> {
    let alloc = rt.alloc();
    let lines = [certain("-00-"), certain("0--0")];
    let ground = answer(alloc, FOUR, window_of(0), &lines, &[])?;
    assert_eq!(rt; ground, refused(1, EntryWhy::Beaten));
    let wide = answer(alloc, FOUR, window_of(1), &lines, &[])?;
    assert_eq!(rt; wide, Err(CertRefusal::Short));
    let either = [
        unresolved("-00-", Deciding::Rival(1, span_between(-1, 1))),
        unresolved("0--0", Deciding::Rival(0, span_between(-1, 1))),
    ];
    let ground = answer(alloc, EITHER, window_of(0), &either, &[])?;
    assert_eq!(rt; ground, Err(CertRefusal::Short));
    let wide = answer(alloc, EITHER, window_of(1), &lines, &[])?;
    assert_eq!(rt; wide, Err(CertRefusal::Short));
    Ok(())
}

#[test]
fn a_whole_tree_within_a_window_is_sound(rt: HostRuntime) -> Result<(), Fail> {
    let alloc = rt.alloc();
    let lines = [certain("-00-"), certain("0--0")];
    let sound = answer(alloc, FOUR, window_of(1), &lines, &WINDOW_TOKENS)?;
    assert_eq!(rt; sound, Ok(()));
    let short = answer(alloc, FOUR, window_of(1), &lines, &WINDOW_TOKENS[..21])?;
    assert_eq!(rt; short, Err(CertRefusal::Short));
    let wider = answer(alloc, FOUR, window_of(1000), &lines, &WINDOW_TOKENS)?;
    assert_eq!(rt; wider, closed(4, CloseWhy::NotAbove));
    Ok(())
}

/// The prefix `--` has the least energy 620124254312, and the entries have 0.
#[test]
fn windows_lower_the_bound(rt: HostRuntime) -> Result<(), Fail> {
    let alloc = rt.alloc();
    let lines = [certain("-0"), certain("0-")];
    let tokens = [Token::Node, Token::Node, Token::Energy(0)];
    let cut = answer(alloc, TWO, window_of(620_124_254_311), &lines, &tokens)?;
    assert_eq!(rt; cut, Err(CertRefusal::Short));
    let kept = answer(alloc, TWO, window_of(620_124_254_312), &lines, &tokens)?;
    assert_eq!(rt; kept, closed(2, CloseWhy::NotAbove));
    Ok(())
}

#[test]
fn the_top_call_gives_the_list(rt: HostRuntime) -> Result<(), Fail> {
    assert_eq!(rt; checked(rt.alloc())?, Ok(2));
    Ok(())
}

#[test]
fn tokens_are_written_as_lines(rt: HostRuntime) -> Result<(), Fail> {
    let alloc = rt.alloc();
    let tokens = given(alloc, &TOKENS[..5])?;
    let mut sink = MemSink::new(Vec::with_capacity(alloc, 64)?, 3, Vec::new(alloc));
    assert_eq!(rt; write_tokens(&tokens, &mut sink), Ok(()));
    assert_eq!(rt; sink.written(), b"n\nn\ns 0\nl 0\ns 1\n".as_slice());
    let mut failing = MemSink::new(Vec::with_capacity(alloc, 64)?, 3, vec![in alloc; 1u64]?);
    assert_eq!(rt; write_tokens(&tokens, &mut failing), Err(Stop::Fault));
    assert_eq!(rt; failing.written(), b"n\n".as_slice());
    Ok(())
}
