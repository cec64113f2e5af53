ghost use Rattle.std.specs.Prelude.{◌≡◌, IsTrue, IfOk, IfSome};
ghost use Rattle.charge_model.specs.Charges.{IsOfBase};
ghost use Rattle.charge_model.specs.GroundList.{lists_of};
ghost use Rattle.window_model.specs.Windows.{IsMarkedWindowList};
ghost use Rattle.certificate_model.specs.declared.token.Token.{Token as TokenData};
ghost use Rattle.certificate_model.specs.Tokens.{HasShape};
ghost use Rattle.tree_leaves.specs.Subtree.{IsPrefix};
ghost use Rattle.written_tokens.specs.Guiding.{IsTokenAt};
ghost use Rattle.shared_check.specs.Parts.{IsGuideOf};

use charge_state::Charges;
use entry_facts::{EntryFacts, all_facts};
use entry_tests::first_refused;
use ground_entries::GroundList;
use potential_problem::Problem;
use prefix_bound::Track;
use sidb_units::Memory;
use std::alloc::Global;
use std::marker::Model;
use token_sinks::{Stop, Token};
use token_tests::first_failing;
use tree_leaves::track_of;
use window_model::Window;
use written_tokens::Guide;

/// What gives the token of each prefix, and what tests it: a problem, a window, a threshold and
/// the entries. All threads read it.
#[derive(Drop)]
pub struct Setting<'a> {
    alloc: Global,
    window: Window,
    guide: Guide<'a>,
    facts: Vec<EntryFacts>,
}

impl<'a> Model for Setting<'a> {
    ghost use Rattle.written_tokens.specs.Guiding.{Guiding};

    ghost Value = { Guiding };

    ghost use Rattle.shared_check.specs.SettingSeen.{seen, IsSetting};

    ghost view = { seen };

    ghost invariant = { IsSetting };
}

impl<'a> Setting<'a> {
    /// The setting for a window list, or None where an entry fails a test.
    pub fn new(
        alloc: Global,
        problem: &'a Problem,
        window: Window,
        threshold: Option<i64>,
        list: &GroundList,
    ) -> Result<Option<Setting<'a>>, Memory>
        requires { IsMarkedWindowList problem.now window.width list.now }
        ensures { IfOk result (λ o. IfSome o
            (IsGuideOf problem.now window.width threshold (lists_of list.now))) }
    {
        let facts = all_facts(alloc, problem, list)?;
        match first_refused(alloc, problem, window, list, facts.as_slice())? {
            Some(_) => Ok(None),
            None => {
                let guide = Guide::new(alloc, problem, window, threshold, list)?;
                Ok(Some(Setting {
                    alloc,
                    window,
                    guide,
                    facts,
                }))
            }
        }
    }

    /// The memory that it takes.
    pub fn alloc(&self) -> Global {
        self.alloc
    }

    /// The problem.
    pub fn problem(&self) -> &Problem
        ensures { result.now ≡ self.now.problem }
    {
        self.guide.problem()
    }

    /// What gives the token of each prefix.
    pub fn guide(&self) -> &Guide<'a>
        ensures { result.now ≡ self.now }
    {
        &self.guide
    }

    /// Whether a token passes its tests at the prefix of a track.
    pub fn passes(&self, track: &Track, token: Token) -> Result<bool, Memory>
        requires problem { track.now.problem ≡ self.now.problem }
        requires of_base { IsOfBase self.now.problem.base track.now.prefix }
        ensures { IfOk result (λ passed. IsTrue passed
            → HasShape self.now.problem track.now.prefix token) }
    {
        match first_failing(
            self.alloc,
            self.guide.problem(),
            self.window,
            self.facts.as_slice(),
            track,
            token,
        )? {
            Some(_) => Ok(false),
            None => Ok(true),
        }
    }

    /// The token of a prefix, where it passes its tests.
    pub fn token_at(&self, prefix: &Charges) -> Result<Token, Stop>
        requires prefix { IsPrefix self.now.problem prefix.now }
        requires some { (token : TokenData) × IsTokenAt self.now prefix.now token }
        ensures found { IfOk result (IsTokenAt self.now prefix.now) }
        ensures only { IfOk result (λ token. (other : TokenData)
            → IsTokenAt self.now prefix.now other → other ≡ token) }
    {
        let track = track_of(self.alloc, self.guide.problem(), prefix)?;
        let token = self.guide.next_token(&track)?;
        let passed = self.passes(&track, token)?;
        if passed { Ok(token) } else { Err(Stop::Fault) }
    }
}
