ghost use Rattle.std.specs.Prelude.{◌≡◌, None, IfOk};
ghost use Rattle.tree_leaves.specs.Subtree.{IsPrefix};
ghost use Rattle.shared_check.specs.TesterSeen.{faults_of};

use crate::setting::Setting;
use certificate_check::advance;
use charge_state::{Charges, cmp_charges};
use prefix_bound::Track;
use sidb_units::Memory;
use std::cmp::Ordering;
use std::marker::Model;
use token_sinks::{Stop, Token, TokenSink};
use tree_leaves::track_of;

/// Tests each token at the place where it has to stand, from a prefix on, and keeps of them where
/// the next one stands, and the first one that it refused.
#[derive(Drop)]
pub struct Tester<'s, 'a> {
    setting: &'s Setting<'a>,
    track: Track<'s>,
    whole: bool,
    refused: Option<Token>,
}

impl<'s, 'a> Model for Tester<'s, 'a> {
    ghost use Rattle.std.specs.Prelude.{Option};
    ghost use Rattle.certificate_model.specs.declared.token.Token.{Token};

    ghost Value = { Option Token };

    ghost use Rattle.shared_check.specs.TesterSeen.{seen, IsTester};

    ghost view = { seen };

    ghost invariant = { IsTester };
}

impl<'s, 'a> Tester<'s, 'a> {
    /// A tester that has taken no token and stands at a prefix.
    pub fn new(setting: &'s Setting<'a>, prefix: &Charges) -> Result<Tester<'s, 'a>, Memory>
        requires { IsPrefix setting.now.problem prefix.now }
        ensures { IfOk result (λ t. t ≡ None) }
    {
        let track = track_of(setting.alloc(), setting.problem(), prefix)?;
        Ok(Tester {
            setting,
            track,
            whole: false,
            refused: None,
        })
    }

    /// Whether the next token stands at the prefix of a track, or nowhere where the tree is whole.
    pub fn stands_at(&self, whole: bool, track: &Track) -> bool {
        if whole || self.whole {
            return whole == self.whole;
        }
        self.track.len() == track.len()
            && cmp_charges(self.track.charges(), track.charges()) == Ordering::Equal
    }
}

impl<'s, 'a> TokenSink for Tester<'s, 'a> {
    ghost Subject = { Unit {0} };

    ghost over = { λ _. tt };

    ghost stands_for = { λ _ _. Unit {0} };

    ghost refused = { λ s. s };

    ghost faults = { faults_of };

    fn token(&mut self, token: Token) -> Result<(), Stop> {
        if self.whole {
            self.refused = Some(token);
            return Err(Stop::Fault);
        }
        match self.setting.passes(&self.track, token) {
            Err(Memory) => Err(Stop::Memory),
            Ok(false) => {
                self.refused = Some(token);
                Err(Stop::Fault)
            }
            Ok(true) => {
                self.whole = advance(self.setting.problem(), &mut self.track, token);
                Ok(())
            }
        }
    }
}
