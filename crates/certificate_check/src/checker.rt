ghost use Rattle.std.specs.Prelude.{IfErr, ◌≡◌, ◌≢◌, ◌↔◌, IsOk, Err, ◌<◌, ◌-◌, ◌^◌, List, ℕ, Option, None, IfOk, MatchOption, pos};
ghost use Rattle.certificate_model.specs.declared.token.Token.{Token};
ghost use Rattle.certificate_model.specs.declared.refusal.CertRefusal.{CertRefusal};
ghost use Rattle.charge_model.specs.GroundList.{lists_of};
ghost use Rattle.certificate_model.specs.Entries.{AreSoundEntries};
ghost use Rattle.certificate_model.specs.Certificates.{FitsProblem};
ghost use Rattle.entry_facts.specs.Facts.{AreFactsOfEach};
ghost use Rattle.certificate_check.specs.Checking.{IsOpening, IsNoOpening, Certified, AcceptsToken, RefusesToken, HasGoneOn, HasRefused, HasPassed, IsFinished, refused_token, faults_of};

use crate::climbing::advance;
use crate::refused::Refused;
use certificate_laws::laws::trails_grow;
use certificate_model::{CertRefusal, Token};
use entry_facts::{EntryFacts, all_facts};
use entry_tests::first_refused;
use ground_entries::GroundList;
use potential_problem::Problem;
use prefix_bound::Track;
use sidb_units::Memory;
use std::alloc::Global;
use std::marker::Model;
use token_sinks::{Stop, TokenSink};
use token_tests::first_failing;
use window_model::{Window, window_of};

/// The facts of the entries, or the first test that one of them fails.
fn tested_facts(
    alloc: Global,
    problem: &Problem,
    window: Window,
    list: &GroundList,
) -> Result<Vec<EntryFacts>, CertRefusal>
    requires { FitsProblem problem.now list.now }
    ensures ok { IfOk result (λ v. AreFactsOfEach problem.now (lists_of list.now) v.items) }
    ensures sound { IfOk result (λ _. AreSoundEntries problem.now window.width list.now) }
    ensures refused { IfErr result (IsNoOpening problem.now window.width list.now) }
{
    let facts = all_facts(alloc, problem, list)?;
    match first_refused(alloc, problem, window, list, facts.as_slice())? {
        Some(refused) => Err(CertRefusal::Entry(refused.entry, refused.why)),
        None => Ok(facts),
    }
}

/// Takes the tokens of a certificate of this problem, this window and this list, and keeps of them
/// their number, the prefix where the next one stands, and the first one that it refused.
#[derive(Drop)]
pub struct Checker<'a> {
    alloc: Global,
    problem: &'a Problem,
    window: Window,
    list: &'a GroundList,
    facts: Vec<EntryFacts>,
    track: Track<'a>,
    whole: bool,
    passed: u64,
    refused: Option<Refused>,
}

impl<'a> Model for Checker<'a> {
    ghost use Rattle.certificate_check.specs.Checking.{Checking};

    ghost Value = { Checking };

    ghost use Rattle.certificate_check.specs.CheckerSeen.{seen, IsChecker};

    ghost view = { seen };

    ghost invariant = { IsChecker };
}

impl<'a> Checker<'a> {
    /// A checker with a window of 0 over this problem and this list that has taken no token, or the
    /// first test that an entry fails.
    pub fn new(
        alloc: Global,
        problem: &'a Problem,
        list: &'a GroundList,
    ) -> Result<Checker<'a>, CertRefusal>
        requires { FitsProblem problem.now list.now }
        ensures ok { IfOk result (IsOpening problem.now (pos 0) list.now) }
        ensures sound { IfOk result (λ _. AreSoundEntries problem.now (pos 0) list.now) }
        ensures refused { IfErr result (IsNoOpening problem.now (pos 0) list.now) }
    {
        Checker::within(alloc, problem, window_of(0), list)
    }

    /// A checker over this problem, this window and this list that has taken no token, or the first
    /// test that an entry fails.
    pub fn within(
        alloc: Global,
        problem: &'a Problem,
        window: Window,
        list: &'a GroundList,
    ) -> Result<Checker<'a>, CertRefusal>
        requires { FitsProblem problem.now list.now }
        ensures ok { IfOk result (IsOpening problem.now window.width list.now) }
        ensures sound { IfOk result (λ _. AreSoundEntries problem.now window.width list.now) }
        ensures refused { IfErr result (IsNoOpening problem.now window.width list.now) }
    {
        let facts = tested_facts(alloc, problem, window, list)?;
        let track = Track::new(alloc, problem)?;
        Ok(Checker {
            alloc,
            problem,
            window,
            list,
            facts,
            track,
            whole: false,
            passed: 0,
            refused: None,
        })
    }

    /// Why the next token is refused here, where it is.
    fn why_refused(&self, token: Token) -> Result<Option<CertRefusal>, Memory>
        ensures { IfOk result (λ o. MatchOption o (AcceptsToken self.now token)
            (RefusesToken self.now token)) }
    {
        if self.whole {
            return Ok(Some(CertRefusal::Long));
        }
        let failing = first_failing(
            self.alloc,
            self.problem,
            self.window,
            self.facts.as_slice(),
            &self.track,
            token,
        )?;
        match failing {
            Some(why) => Ok(Some(CertRefusal::Close(self.passed, why))),
            None => Ok(None),
        }
    }

    /// Takes a token that passes its tests.
    fn go_on(&mut self, token: Token)
        requires clear { self.old.refused ≡ None }
        requires accepts { AcceptsToken self.old token }
        requires room { self.old.passed < 2 ^ 64 - 1 }
        ensures { HasGoneOn self.old self.new token }
    {
        self.whole = advance(self.problem, &mut self.track, token);
        self.passed += 1;
    }

    /// Refuses a token.
    fn refuse(&mut self, token: Token, refusal: CertRefusal)
        requires refuses { RefusesToken self.old token refusal }
        ensures { HasRefused self.old self.new token refusal }
    {
        self.refused = Some(Refused { token, refusal });
    }

    /// What was found.
    fn outcome(&self) -> Result<(), CertRefusal>
        ensures finished { IsFinished self.now result }
        ensures exactly { IsOk result ↔ ((self.now.refused ≡ None) × (self.now.place ≡ None)) }
        ensures no_memory { result ≢ Err CertRefusal.Memory }
    {
        match self.refused {
            Some(refused) => Err(refused.refusal),
            None => {
                if self.whole {
                    Ok(())
                } else {
                    Err(CertRefusal::Short)
                }
            }
        }
    }

    /// Whether the tokens that were taken make the certificate sound, or why not.
    pub fn finish(self) -> Result<(), CertRefusal>
        ensures finished { IsFinished self.entry result }
        ensures exactly { IsOk result ↔ ((self.entry.refused ≡ None) × (self.entry.place ≡ None)) }
        ensures no_memory { result ≢ Err CertRefusal.Memory }
    {
        self.outcome()
    }
}

impl<'a> TokenSink for Checker<'a> {
    ghost Subject = { Certified };

    ghost over = { λ s. s.over };

    ghost stands_for = { HasPassed };

    ghost refused = { λ s. refused_token s.refused };

    ghost faults = { λ s. faults_of s.refused };

    fn token(&mut self, token: Token) -> Result<(), Stop> {
        trails_grow();
        match self.why_refused(token)? {
            Some(refusal) => {
                self.refuse(token, refusal);
                Err(Stop::Fault)
            }
            None => {
                self.go_on(token);
                Ok(())
            }
        }
    }
}
